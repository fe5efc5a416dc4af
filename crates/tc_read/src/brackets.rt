//! How many brackets are open.
ghost use Rattle.std.specs.Prelude.{◌≤◌, ◌+◌, ◌-◌, ℕ, max};
ghost use Rattle.tc_term.specs.Limits.{most_brackets};

use tc_term::MOST_BRACKETS;

/// The brackets that are open, until they are too many at some place.
#[derive(Drop)]
pub struct Brackets {
    pub count: usize,
    pub too_many: bool,
    ghost few: { count ≤ most_brackets },
}

impl Brackets {
    ghost use Rattle.tc_read.specs.Brackets.{CountsTo};

    /// None is open.
    pub fn new() -> Brackets
        ensures { CountsTo result 0 0 }
    {
        Brackets {
            count: 0,
            too_many: false,
        }
    }

    /// One is closed.
    #[inline(always)]
    pub fn closed(&mut self)
        ensures { (n most : ℕ) → CountsTo self.old n most → CountsTo self.new (n - 1)
            (max most (n - 1)) }
    {
        self.count = self.count.saturating_sub(1);
    }

    /// One is opened.
    #[inline(always)]
    pub fn opened(&mut self)
        ensures { (n most : ℕ) → CountsTo self.old n most → CountsTo self.new (n + 1)
            (max most (n + 1)) }
    {
        if self.count == MOST_BRACKETS {
            self.too_many = true;
        } else {
            self.count += 1;
        }
    }
}
