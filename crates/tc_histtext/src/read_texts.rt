//! Texts, read back.
ghost use Rattle.std.specs.Prelude.{◌≡◌, ◌≢◌, ◌≤◌, ℕ, All, AllPairs, IfErr, IfOk, drop};
ghost use Rattle.std.specs.Prelude.{length};
ghost use Rattle.tc_model.specs.Typed.{AreBytes};
ghost use Rattle.tc_histtext.specs.Answers.{IsFound, IsTextFault, IsThisLine, IsWant};
ghost use Rattle.tc_histtext.specs.ReadTexts.{IsFirstFault, IsText};
ghost use Rattle.tc_histtext.specs.declared.read_texts.Text.{Text};

use crate::reading::Reading;
use std::alloc::Global;
use tc_histline::{TextRow, Version};
use tc_lists::{NoMemory, Seq};
use tc_model::{Entry, bytes_fit};
use tc_names::Names;
use tc_term::Name;

/// What a text tells: a history for each centre, a log for each agent, and whether its last line
/// says that some agent waits.
#[derive(Drop)]
pub struct Text {
    pub version: Version,
    pub histories: Seq<Seq<Entry>>,
    pub logs: Seq<Seq<TextRow>>,
    pub blocked: bool,
}

/// Why bytes are no text: the first line that is at fault, counted from 1; or memory has run out
/// before that was known.
#[derive(Clone, Copy, Debug, PartialEq, Eq, thiserror::Error)]
pub enum TextFault {
    #[error("line {0} is no line of the text")]
    Line(usize),
    #[error("out of memory")]
    NoMemory,
}

impl From<NoMemory> for TextFault {
    ghost use Rattle.std.specs.Prelude.{◌≡◌};
    ghost use Rattle.tc_histtext.specs.declared.read_texts.TextFault.{TextFault};

    ghost from_gives = { λ _ fault. fault ≡ TextFault.NoMemory };

    fn from(_: NoMemory) -> TextFault {
        TextFault::NoMemory
    }
}

/// What bytes are: a text, or none by the fault of this line.
#[derive(Drop)]
pub enum Found {
    Text(Text),
    Fault(usize),
}

/// The text that the bytes are, of a history for each of these centres and a log for each of these
/// agents, in order; or the first line that is at fault.
///
/// A text has either version, either end, and rows of any numbers and centres: whether it is that
/// of a run is not asked. Takes time linear in the bytes, and memory in proportion to them.
pub fn read_text(
    alloc: Global,
    text: &[u8],
    centres: &[Name],
    agents: &[Name],
) -> Result<Text, TextFault>
    requires differ { AllPairs ◌≢◌ agents.now }
    ensures text { IfOk result (λ t. IsText centres.now agents.now t text.now) }
    ensures fault { IfErr result (IsTextFault centres.now agents.now text.now) }

    // Each answer comes exactly where it is due, but for want of memory.
    ensures whole { (t : Text) → IsText centres.now agents.now t text.now → IfErr result IsWant }
    ensures same { (t : Text) → IsText centres.now agents.now t text.now
        → IfOk result (λ r. r ≡ t) }
    ensures first { (k : ℕ) → IsFirstFault centres.now agents.now text.now k
        → IfErr result (IsThisLine k) }
    ensures refused { (k : ℕ) → IsFirstFault centres.now agents.now text.now k
        → IfOk result (λ _. ⊥) }
{
    let names = names_of(alloc, agents)?;
    match find(alloc, text, centres, agents, &names)? {
        Found::Text(text) => Ok(text),
        Found::Fault(line) => Err(TextFault::Line(line)),
    }
}

// What the bytes are, where the agents have these names.
fn find(
    alloc: Global,
    text: &[u8],
    centres: &[Name],
    agents: &[Name],
    names: &Names,
) -> Result<Found, NoMemory>
    requires differ { AllPairs ◌≢◌ agents.now }
    requires named { names.now ≡ agents.now }
    ensures { IfOk result (IsFound centres.now agents.now text.now) }
{
    names_fit(centres);
    names_fit(agents);
    let mut reading = Reading::new(alloc);
    let mut rest = text;
    let mut count = 0;
    while !rest.is_empty() {
        let Some(size) = reading.next(alloc, centres, agents, names, rest)? else {
            return Ok(Found::Fault(count + 1));
        };
        rest = behind(rest, size);
        count += 1;
    }
    match reading.finish() {
        Some(text) => Ok(Found::Text(text)),
        None => Ok(Found::Fault(count + 1)),
    }
}

// The names with their places.
fn names_of(alloc: Global, agents: &[Name]) -> Result<Names, NoMemory>
    requires differ { AllPairs ◌≢◌ agents.now }
    ensures { IfOk result (λ names. names ≡ agents.now) }
{
    let mut names = Names::new(alloc);
    for agent in agents {
        names.add(agent.copy(alloc)?)?;
    }
    Ok(names)
}

// What stands behind so many bytes.
fn behind(bytes: &[u8], size: usize) -> &[u8]
    requires within { size ≤ length bytes.now }
    ensures { result.now ≡ drop size bytes.now }
{
    &bytes[size..]
}

// Tells contracts that the names are bytes, and does nothing.
fn names_fit(names: &[Name])
    ensures { All AreBytes names.now }
{
    for name in names {
        bytes_fit(name.bytes());
    }
}
