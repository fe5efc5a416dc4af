//! The count of steps.
use std::marker::Model;
use std::sync::ledger::{Blank, Book, Ledger, Share};

/// How many steps were made, in a ledger. It takes no bytes.
///
/// Nothing counts back, and nobody who is lent a count can begin another one in its ledger.
#[derive(Drop)]
pub struct Steps<L: Ledger> {
    book: Book<L>,
    all: Share<L>,
}

impl<L: Ledger> Model for Steps<L> {
    ghost use Rattle.std.specs.Prelude.{ℕ, ◌<◌};

    ghost Value = { ℕ };

    ghost view = { λ s. s.book.total };

    ghost invariant = { λ s. 0 < s.all.parts };
}

impl<L: Ledger> Steps<L> {
    ghost use Rattle.std.specs.Prelude.{◌≡◌, ◌+◌, ◌<◌};

    /// No step yet, in the ledger that a blank opens.
    pub fn none(blank: Blank) -> Steps<L>
        requires name { blank.name ≡ L.name }
        requires parts { blank.parts ≡ L.parts }
        requires some { 0 < blank.parts }
        ensures { result ≡ 0 }
    {
        let (book, all) = blank.open::<L>();
        Steps { book, all }
    }

    /// One step more.
    pub fn count(&mut self)
        ensures { self.new ≡ self.old + 1 }
    {
        self.book.add(&mut self.all, 1);
    }
}
