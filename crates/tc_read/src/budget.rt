//! What a term that is being read may still take.
ghost use Rattle.std.specs.Prelude.{◌≡◌};
ghost use Rattle.tc_read.specs.Budget.{numbered, paid, whole};

use tc_term::{MOST_VARIABLES, Room};

/// The room that is left for nodes and names, and how many variables have come.
#[derive(Clone, Copy)]
pub struct Budget {
    pub room: Room,
    pub variables: usize,
}

impl Budget {
    /// What a whole template may take.
    #[inline(always)]
    pub fn whole() -> Budget
        ensures { result ≡ whole }
    {
        Budget {
            room: Room::whole(),
            variables: 0,
        }
    }

    /// What is left behind a node whose name has so many bytes, if there is room for it.
    #[inline(always)]
    pub fn paid(self, size: usize) -> Option<Budget>
        ensures { result ≡ paid size self }
    {
        if self.room.nodes == 0 || size > self.room.name_bytes {
            return None;
        }
        Some(Budget {
            room: Room {
                nodes: self.room.nodes - 1,
                name_bytes: self.room.name_bytes - size,
            },
            variables: self.variables,
        })
    }

    /// What is left behind a variable of this number, if it has come before or is the next.
    #[inline(always)]
    pub fn numbered(self, number: usize) -> Option<Budget>
        ensures { result ≡ numbered number self }
    {
        if number >= MOST_VARIABLES || number > self.variables {
            return None;
        }
        if number < self.variables {
            return Some(self);
        }
        Some(Budget {
            room: self.room,
            variables: number + 1,
        })
    }
}
