//! How sessions end.

/// How a session has ended.
#[derive(Clone, Copy, Debug, PartialEq, Eq, Drop)]
pub enum SessionEnd {
    /// A line asked for the end.
    Quit,
    /// The input was at its end.
    EndOfInput,
    /// A read has failed.
    ReadFault,
    /// A write has failed.
    WriteFault,
    /// A line was too long.
    LineTooLong,
    /// Memory has run out.
    NoMemory,
}
