//! Lines, read as what they say.
ghost use Rattle.std.specs.Prelude.{◌≡◌, ◌++◌, [], IfNone, IfOk, IfSome, List, ℕ};
ghost use Rattle.tc_model.specs.Reactions.{AreClauses, Rule, clauses_text};
ghost use Rattle.tc_model.specs.Typed.{IsTypedOutcome};
ghost use Rattle.tc_model.specs.declared.calls.Op.TheVariants.{SetSpec};
ghost use Rattle.tc_model.specs.declared.entries.Entry.TheVariants.{Called};
ghost use Rattle.tc_histline.specs.Items.{HasItemLine};
ghost use Rattle.tc_histline.specs.Lines.{HasLine, IsLineAt, line_text};
ghost use Rattle.tc_histline.specs.Text.{item_text};
ghost use Rattle.tc_histline.specs.declared.versions.Version.{Version};
ghost use Rattle.tc_model.specs.declared.items.Item.{Item};
ghost use Rattle.tc_histline.specs.declared.lines.Line.{Line};
ghost use Rattle.tc_histline.specs.declared.lines.Line.TheVariants as line;

use crate::lines::{Line, WrittenLine};
use crate::read_items::read_item;
use crate::read_lines::read_written;
use crate::versions::Version;
use std::alloc::Global;
use tc_lists::{NoMemory, Seq};
use tc_model::{CallId, Clauses, Entry, Item, Op, Outcome};
use tc_names::Names;
use tc_spec::{SpecFault, print_spec, read_spec};

/// The line that stands at the front, and how many bytes it has, wherever in a text it may stand.
/// An entry is one of these agents.
///
/// A faulty line is read no further than up to its fault: no line has a line feed but at its end.
/// Takes time linear in the length of the line.
pub fn read_line(
    alloc: Global,
    version: Version,
    agents: &Names,
    text: &[u8],
) -> Result<Option<(Line, usize)>, NoMemory>
    ensures found { IfOk result
        (λ r. IfSome r (λ x. IsLineAt version agents.now text.now x.0 x.1)) }
    ensures none { IfOk result
        (λ r. IfNone r ((l : Line) (rest : List ℕ) → HasLine version agents.now l
        → text.now ≡ line_text version agents.now l ++ rest → ⊥)) }
{
    agents.differ();
    let Some((written, rest)) = read_written(alloc, version, agents, text)? else {
        return Ok(None);
    };
    let size = text.len() - rest.len();
    match written {
        WrittenLine::Plain(line) => {
            line.typed();
            Ok(Some((line, size)))
        }
        WrittenLine::Replacing {
            id,
            text: spec,
            outcome,
        } => {
            let Some(clauses) = clauses_of(alloc, spec.items())? else {
                return Ok(None);
            };
            Ok(Some((replacing(alloc, id, clauses, outcome), size)))
        }
    }
}

/// The line of a reaction that stands at the front, and how many bytes it has.
///
/// `read_line` reads it too. Most lines are of reactions, and this moves no line of any kind.
pub fn read_reaction(alloc: Global, text: &[u8]) -> Result<Option<(Item, usize)>, NoMemory>
    ensures found { (version : Version) (agents : List (List ℕ)) → IfOk result
        (λ r. IfSome r (λ x. IsLineAt version agents text.now (line.Reaction x.0) x.1)) }
    ensures none { IfOk result
        (λ r. IfNone r ((item : Item) (rest : List ℕ) → HasItemLine item
        → text.now ≡ item_text item ++ rest → ⊥)) }
{
    match read_item(alloc, text)? {
        Some((item, rest)) => Ok(Some((item, text.len() - rest.len()))),
        None => Ok(None),
    }
}

// The line of a call that replaces the clauses.
fn replacing(alloc: Global, id: CallId, clauses: Clauses, outcome: Outcome) -> Line
    ensures line { result ≡ line.Entry (Called id (SetSpec clauses) outcome []) }
    ensures clauses { AreClauses clauses }
    ensures outcome { IsTypedOutcome outcome }
{
    let _items = clauses.items();
    outcome.typed();
    Line::Entry(Entry::Called {
        id,
        op: Op::SetSpec(clauses),
        outcome,
        items: Seq::empty(alloc),
    })
}

// The clauses of which this is the text.
fn clauses_of(alloc: Global, text: &[u8]) -> Result<Option<Clauses>, NoMemory>
    ensures found { IfOk result (λ r. IfSome r (λ cs. clauses_text cs ≡ text.now)) }
    ensures none { IfOk result (λ r. IfNone r
        ((cs : List Rule) → AreClauses cs → clauses_text cs ≡ text.now → ⊥)) }
{
    let clauses = match read_spec(alloc, text) {
        Ok(clauses) => clauses,
        Err(SpecFault::Bad(_)) => return Ok(None),
        Err(SpecFault::NoMemory) => return Err(NoMemory),
    };
    let mut printed = Vec::new(alloc);
    print_spec(alloc, &clauses, &mut printed)?;
    if printed.as_slice() == text {
        return Ok(Some(clauses));
    }
    Ok(None)
}
