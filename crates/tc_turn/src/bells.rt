//! Where threads sleep until their tickets are next. Nothing here is part of the rule.
ghost use Rattle.std.specs.Prelude.{◌≡◌};
ghost use Rattle.tc_turn.specs.declared.bells.TheConstants.{BELLS};

use std::alloc::Global;
use tc_bells::{Bell, Bells};
use tc_lists::NoMemory;

/// The number of bells. Tickets that are so many apart share one.
const BELLS: u64 = 64;

#[derive(Drop)]
pub(crate) struct TicketBells {
    all: Bells,
    ghost wide: { all ≡ BELLS },
}

impl TicketBells {
    pub(crate) fn new(alloc: Global) -> Result<TicketBells, NoMemory> {
        let all = Bells::new(alloc, BELLS as usize)?;
        Ok(TicketBells { all })
    }

    /// The bell at which the ticket's thread sleeps.
    pub(crate) fn of(&self, ticket: u64) -> &Bell {
        let Some(bell) = self.all.get((ticket % BELLS) as usize) else {
            unreachable!()
        };
        bell
    }
}
