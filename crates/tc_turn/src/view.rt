//! What a seat at the turnstile's table knows. No value of these types is made: they stand in proofs
//! alone.
use std::collections::LinkedList;

/// A pass that has ended: its number, the beginning of the history that it knew, and its entries.
pub struct PassRecord<E> {
    pub number: u64,
    pub seen: LinkedList<E>,
    pub mine: LinkedList<E>,
}

/// What a seat knows: that of the maker of passes, that of a pass, or one that is nobody's.
pub struct View<E, O> {
    /// The turnstile's origin, where the seat is the maker's or a pass's.
    pub origin: Option<O>,
    /// The number of the pass, where the seat is a pass's.
    pub number: Option<u64>,
    /// The beginning of the history that it knows.
    pub seen: LinkedList<E>,
    /// The entries that its number owns.
    pub mine: LinkedList<E>,
    /// The last count that it read.
    pub floor: u64,
    /// How many turns it has left.
    pub turns: u64,
    pub ticket: Option<u64>,
    pub on_turn: bool,
    /// The number of the next pass, where the seat is the maker's.
    pub next: Option<u64>,
    /// How many turns the maker gives each pass.
    pub share: u64,
    /// The passes that have ended in this seat.
    pub ended: LinkedList<PassRecord<E>>,
}
