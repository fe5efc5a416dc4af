//! What stands open while a term is read.
ghost use Rattle.std.specs.Prelude.{◌≡◌, [], ◌∷◌, IfOk, IsFalse, IsTrue, List, MatchOption, OnOk};
ghost use Rattle.std.specs.Prelude.{Some, map, suc};
ghost use Rattle.tc_read.specs.declared.frames.Frame.{Frame};
ghost use Rattle.tc_read.specs.Frames.{IsMove, below, counted_more, framed, frames_of, items_of};
ghost use Rattle.tc_read.specs.Frames.{opened, top};
ghost use Rattle.tc_read.specs.Items.{kept_item};
ghost use Rattle.tc_read.specs.Kept.{Kept};
ghost use Rattle.tc_read.specs.Machine.{Awaits, Goes_to, Holds, limit};
ghost use Rattle.tc_read.specs.Views.{token_view};

use crate::measured::Item;
use crate::operators::{ARGUMENT_PRIORITY, MINUS_PRIORITY, Operator, WHOLE_PRIORITY};
use crate::tokens::Tokens;
use std::alloc::Global;
use tc_lists::NoMemory;
use tc_term::Name;

/// An operator behind its left side, a minus, a round bracket, a compound's name with so many
/// arguments, a list's elements so far, or all of them before the list's tail.
#[derive(Drop)]
pub enum Frame {
    Between(Operator),
    Negated,
    Group,
    Args(Name, usize),
    Elements(usize),
    Tail(usize),
}

/// A term is awaited, or one of this priority has been read, or the whole has.
#[derive(Clone, Copy)]
pub enum State {
    Awaits,
    Holds(u16),
    Ends,
}

/// Where a step leads: to this state, with these tokens left.
#[derive(Clone, Copy)]
pub struct Step<'a> {
    pub state: State,
    pub rest: Tokens<'a>,
}

/// The step that is made, if there is one; none says that the tokens are no term.
pub type Move<'a> = Result<Option<Step<'a>>, NoMemory>;

/// What stands open, and what was read in it, the innermost last. A term that has been read is the
/// last item.
#[derive(Drop)]
pub struct Stack {
    pub frames: Vec<Frame>,
    pub items: Vec<Item>,
}

impl Stack {
    /// Nothing is open, and nothing has been read.
    pub fn new(alloc: Global) -> Result<Stack, NoMemory>
        ensures { IfOk result (λ stack. (frames_of stack ≡ []) × (items_of stack ≡ [])) }
    {
        Ok(Stack {
            frames: Vec::with_capacity(alloc, 8)?,
            items: Vec::with_capacity(alloc, 8)?,
        })
    }

    /// Opens a place inside the innermost one.
    #[inline(always)]
    pub fn push_frame(&mut self, frame: Frame) -> Result<(), NoMemory>
        ensures frames { OnOk result (frames_of self.new ≡ frame ∷ frames_of self.old) }
        ensures items { items_of self.new ≡ items_of self.old }
    {
        self.frames.push(frame)?;
        Ok(())
    }

    /// Takes the innermost open place off, if any is open.
    #[inline(always)]
    pub fn pop_frame(&mut self) -> Option<Frame>
        ensures frames { MatchOption result
            ((frames_of self.old ≡ []) × (frames_of self.new ≡ []))
            (λ frame. frames_of self.old ≡ frame ∷ frames_of self.new) }
        ensures items { items_of self.new ≡ items_of self.old }
    {
        self.frames.pop()
    }

    /// Counts one item more in the innermost open place, where others may follow, and says whether
    /// it did.
    #[inline(always)]
    pub fn count_item(&mut self) -> bool
        ensures counted { IsTrue result
            → counted_more (frames_of self.old) ≡ Some (frames_of self.new) }
        ensures same { IsFalse result → frames_of self.new ≡ frames_of self.old }
        ensures items { items_of self.new ≡ items_of self.old }
    {
        match self.frames.last_mut() {
            Some(frame) => count_in(frame),
            None => false,
        }
    }

    /// Adds what has been read.
    #[inline(always)]
    pub fn push_item(&mut self, item: Item) -> Result<(), NoMemory>
        ensures items { OnOk result (items_of self.new ≡ kept_item item ∷ items_of self.old) }
        ensures frames { frames_of self.new ≡ frames_of self.old }
    {
        self.items.push(item)?;
        Ok(())
    }

    /// Takes the last item off. Where there is none, the answer is one that doesn't fit.
    #[inline(always)]
    pub fn pop_item(&mut self) -> Item
        ensures item { kept_item result ≡ top (items_of self.old) }
        ensures items { items_of self.new ≡ below (items_of self.old) }
        ensures frames { frames_of self.new ≡ frames_of self.old }
    {
        match self.items.pop() {
            Some(item) => item,
            None => Item::Large,
        }
    }
}

/// A step behind this item of this priority, which is the last one then.
#[inline(always)]
pub fn held<'a>(stack: &mut Stack, item: Item, priority: u16, rest: Tokens<'a>) -> Move<'a>
    ensures { IfOk result
        (λ r. IsMove (Goes_to (opened stack.old) (Holds (kept_item item) priority)
        (map token_view rest.now)) stack.new r) }
{
    stack.push_item(item)?;
    Ok(Some(Step {
        state: State::Holds(priority),
        rest,
    }))
}

/// A step into the place that this frame opens.
#[inline(always)]
pub fn awaited<'a>(stack: &mut Stack, frame: Frame, rest: Tokens<'a>) -> Move<'a>
    ensures { IfOk result
        (λ r. IsMove (Goes_to (framed (frame ∷ frames_of stack.old) (items_of stack.old)) Awaits
        (map token_view rest.now)) stack.new r) }
{
    stack.push_frame(frame)?;
    Ok(Some(Step {
        state: State::Awaits,
        rest,
    }))
}

/// Counts one item more in this frame, where others may follow, and says whether it did.
#[inline(always)]
fn count_in(frame: &mut Frame) -> bool
    ensures counted { IsTrue result → (frames : List Frame)
        → counted_more (frame.old ∷ frames) ≡ Some (frame.new ∷ frames) }
    ensures same { IsFalse result → frame.new ≡ frame.old }
{
    match frame {
        Frame::Args(_, count) => is_raised(count),
        Frame::Elements(count) => is_raised(count),
        _ => false,
    }
}

/// Makes the count one more, if a greater one can be held, and says whether it did.
#[inline(always)]
fn is_raised(count: &mut usize) -> bool
    ensures raised { IsTrue result → count.new ≡ suc count.old }
    ensures same { IsFalse result → count.new ≡ count.old }
{
    if *count == usize::MAX {
        return false;
    }
    *count += 1;
    true
}

/// The highest priority of a term in the innermost open place.
#[inline(always)]
pub fn limit(stack: &Stack) -> u16
    ensures { (ks : List Kept) → result ≡ limit (framed (frames_of stack.now) ks) }
{
    match stack.frames.last() {
        None => WHOLE_PRIORITY,
        Some(frame) => frame_limit(frame),
    }
}

#[inline(always)]
fn frame_limit(frame: &Frame) -> u16
    ensures { (frames : List Frame) (ks : List Kept)
        → result ≡ limit (framed (frame.now ∷ frames) ks) }
{
    match frame {
        Frame::Between(operator) => operator.right,
        Frame::Negated => MINUS_PRIORITY,
        Frame::Group => WHOLE_PRIORITY,
        Frame::Args(_, _) | Frame::Elements(_) | Frame::Tail(_) => ARGUMENT_PRIORITY,
    }
}
