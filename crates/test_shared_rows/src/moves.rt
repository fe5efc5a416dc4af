//! What an agent does at a shared centre, and what it notes of that.

/// What is asked of a centre, with the text of the tuple or of the template.
#[derive(Clone, Copy, Debug)]
pub enum Request {
    Out(&'static [u8]),
    In(&'static [u8]),
    Inp(&'static [u8]),
}

/// What an agent does at its centre.
#[derive(Clone, Copy, Debug)]
pub enum Act {
    /// It makes a call, and waits where that is pending.
    Call(Request),
    /// It asks what became of its call of this number.
    Poll(u64),
    /// It takes a turn and holds it for a while, in which others may come.
    Hold,
}

/// What an agent does next, once all agents have made so many moves.
#[derive(Clone, Copy, Debug)]
pub struct Move {
    pub after: u64,
    pub act: Act,
}

/// What an agent notes of a move: what it was told, whether it waited, and how many turns it took.
#[derive(Debug, Drop)]
pub struct Note {
    pub told: Vec<u8>,
    pub waited: bool,
    pub turns: u32,
}
