//! Slots and marks. A row that is taken stays in its slot while a mark may bring it back.

/// A place in the list of rows, for the row of an age. Once that is gone it is a gap, whose row is
/// `NO_ROW`.
///
/// The row is there where `taken` is 0. Else it was so manieth to be taken, from 1, of the rows
/// that a mark may bring back.
#[derive(Clone, Copy)]
pub(crate) struct Place {
    pub(crate) age: u64,
    pub(crate) taken: u32,
    pub(crate) row: u32,
}

/// The row of a gap, at which no tuple is. Rows are below it.
pub(crate) const NO_ROW: u32 = u32::MAX;

impl Place {
    ghost use Rattle.std.specs.Prelude.{◌≡◌, is_some};
    ghost use Rattle.tc_bag.specs.Places.{row_in, row_there};

    /// Whether it is no gap.
    #[inline]
    pub(crate) fn is_filled(&self) -> bool
        ensures { result ≡ is_some (row_in self.now) }
    {
        self.row != NO_ROW
    }

    /// The number of its tuple, where it is no gap.
    #[inline]
    pub(crate) fn row(&self) -> Option<usize>
        ensures { result ≡ row_in self.now }
    {
        if self.row == NO_ROW {
            None
        } else {
            Some(self.row as usize)
        }
    }

    /// The number of its tuple, where the row is there.
    #[inline]
    pub(crate) fn there(&self) -> Option<usize>
        ensures { result ≡ row_there self.now }
    {
        if self.taken == 0 { self.row() } else { None }
    }
}

/// What a bag needs to go back: its next age at the mark, and how many rows that a mark may bring
/// back were taken before.
#[derive(Clone, Copy)]
pub(crate) struct Mark {
    pub(crate) next: u64,
    pub(crate) taken: usize,
}
