//! Verdicts on texts.
ghost use Rattle.std.specs.Prelude.{◌≡◌, IfOk};
ghost use Rattle.tc_verify.specs.Texts.{IsOfKnown};
ghost use Rattle.tc_verify.specs.Verdicts.{IsAudit, IsVerdict, IsVerdictOn};
ghost use Rattle.tc_verify.specs.declared.verdicts.Verdict.{Verdict};

use crate::agents::first_agent_of;
use crate::centres::first_bad_of;
use crate::ends::any_waits;
use crate::texts::read_text_of;
use std::alloc::Global;
use tc_config::Config;
use tc_histtext::TextFault;
use tc_lists::NoMemory;

/// What is asked of a text.
#[derive(Clone, Copy, Debug, PartialEq, Eq)]
pub enum Question {
    /// Whether it is the text of a run of the configuration.
    Run,
    /// Whether it is the text of a service of the configuration's agents, as far as it tells.
    Service,
}

/// What is found of a text: the first of these that is so. Places are counted from 0, lines,
/// entries and rows from 1.
#[derive(Clone, Copy, Debug, PartialEq, Eq)]
pub enum Verdict {
    /// All is as it is to be.
    Yes,
    /// This line is the first that is no line of a text.
    NoText(usize),
    /// Of the centre at this place, the first that is at fault, this entry is the first that isn't
    /// legal; behind the last one, the state at the end isn't quiet.
    NoEntry(usize, usize),
    /// Of the agent at this place, the first that is at fault, this row is the first.
    NoAgent(usize, usize),
    /// The last line says another thing than the rows.
    NoEnd,
}

/// Whether the bytes are the text of a run of the configuration: histories of runs of its centres to
/// quiet states, in which any choice was taken, and the rows that the scripts of its agents have come
/// to by them; or the first place at which they are not.
///
/// Takes time linear in the text, but for what the reactions that it tells take, and memory in
/// proportion to it.
pub fn verify(alloc: Global, config: &Config, text: &[u8]) -> Result<Verdict, NoMemory>
    ensures verdict { IfOk result (IsVerdict config.now text.now) }

    // Each verdict comes exactly where it is due, but for want of memory.
    ensures same { (v : Verdict) → IsVerdict config.now text.now v → IfOk result (λ w. w ≡ v) }
{
    verdict_on(alloc, Question::Run, config, text)
}

/// Whether the bytes are the text of a service of the configuration's agents, as far as a text tells
/// it: histories as for `verify`, and rows that agree with them, of asks that grants permit.
pub fn audit(alloc: Global, config: &Config, text: &[u8]) -> Result<Verdict, NoMemory>
    ensures verdict { IfOk result (IsAudit config.now text.now) }

    // Each verdict comes exactly where it is due, but for want of memory.
    ensures same { (v : Verdict) → IsAudit config.now text.now v → IfOk result (λ w. w ≡ v) }
{
    verdict_on(alloc, Question::Service, config, text)
}

/// The verdict on the bytes, by what is asked of them.
pub fn verdict_on(
    alloc: Global,
    question: Question,
    config: &Config,
    text: &[u8],
) -> Result<Verdict, NoMemory>
    ensures verdict { IfOk result (IsVerdictOn question config.now text.now) }
    ensures same { (v : Verdict) → IsVerdictOn question config.now text.now v
        → IfOk result (λ w. w ≡ v) }
    ensures known { IfOk result (IsOfKnown config.now) }
{
    let told = match read_text_of(alloc, config, text) {
        Ok(told) => told,
        Err(TextFault::Line(line)) => return Ok(Verdict::NoText(line)),
        Err(TextFault::NoMemory) => return Err(NoMemory),
    };
    if let Some((centre, number)) = first_bad_of(alloc, config, told.histories.items())? {
        return Ok(Verdict::NoEntry(centre, number));
    }
    if let Some((agent, number)) = first_agent_of(alloc, question, config, &told)? {
        return Ok(Verdict::NoAgent(agent, number));
    }
    if told.blocked == any_waits(told.logs.items()) {
        Ok(Verdict::Yes)
    } else {
        Ok(Verdict::NoEnd)
    }
}
