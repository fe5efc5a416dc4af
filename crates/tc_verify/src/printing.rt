//! Verdicts as lines.
ghost use Rattle.std.specs.Prelude.{◌≡◌, ◌∷◌, [], codes, decimal, IfOk};
ghost use Rattle.tc_lists.specs.Texts.{joined};
ghost use Rattle.tc_verify.specs.Texts.{IsOfKnown, place_text, verdict_text};

use crate::verdicts::Verdict;
use std::alloc::Global;
use tc_config::Config;
use tc_lists::{NoMemory, append_number};
use tc_print::print_name;
use tc_term::Name;

/// The line of a verdict, with its end.
pub fn verdict_text(alloc: Global, config: &Config, verdict: Verdict) -> Result<Vec<u8>, NoMemory>
    requires { IsOfKnown config.now verdict }
    ensures { IfOk result (λ text. text.items ≡ verdict_text config.now verdict) }
{
    match verdict {
        Verdict::Yes => b"yes\n".to_vec(alloc),
        Verdict::NoText(line) => line_text(alloc, line),
        Verdict::NoEntry(centre, number) => {
            place_text(alloc, b"no entry ", &config.centres()[centre].name, number)
        }
        Verdict::NoAgent(agent, number) => {
            place_text(alloc, b"no agent ", &config.agents()[agent].name, number)
        }
        Verdict::NoEnd => b"no end\n".to_vec(alloc),
    }
}

// That a line is at fault.
fn line_text(alloc: Global, line: usize) -> Result<Vec<u8>, NoMemory>
    ensures { IfOk result (λ text. text.items ≡ joined (codes "no text " ∷ decimal line ∷ codes "\n" ∷ [])) }
{
    let mut text = b"no text ".to_vec(alloc)?;
    append_number(line as u64, &mut text)?;
    text.push(b'\n')?;
    Ok(text)
}

// What isn't so, of what, and where.
fn place_text(alloc: Global, words: &[u8], name: &Name, number: usize) -> Result<Vec<u8>, NoMemory>
    ensures { IfOk result (λ text. text.items ≡ place_text words.now name.now number) }
{
    let mut text = words.to_vec(alloc)?;
    print_name(alloc, name, &mut text)?;
    text.push(b' ')?;
    append_number(number as u64, &mut text)?;
    text.push(b'\n')?;
    Ok(text)
}
