//! Sites: shared centres, a desk at them for each agent, and who decides what agents may do.
//!
//! `Site::new` makes the site of a configuration, `Site::of_cores` one round cores that are there.
//! A desk keeps its agent's log, which agrees with what its passes have seen of the histories.
//! Desks may be used in threads of their own. Once each has ended, `close` gives the cores back,
//! and the logs.
//!
//! ```
//! let (site, kits) = Site::new(alloc, &config, warden)?;
//! // in the thread of each kit:
//! let mut desk = AgentDesk::new(alloc, &site, kit);
//! let served = desk.call(rt, alloc, &centre, ask);
//! let ended = desk.end();
//! // with all ended desks, in order:
//! let mut closed = site.close(alloc, all)?;
//! // a request may have been answered once its desk had ended:
//! closed.settle(alloc, &names)?;
//! let Closed { cores, logs } = closed;
//! ```
//!
//! In reading order:
//!
//! | File of src/ | Holds |
//! |---|---|
//! | sites | `Site`: how it is made, and how it is closed |
//! | founding | the cores of a configuration |
//! | sharing | cores that become shared centres, whose passes are dealt out |
//! | kits | what desks are made of, and what is left of them |
//! | desks | `AgentDesk`: its calls |
//! | judging | what is decided of a call before a turn is taken |
//! | turns, looking, polling | what a call, a look or a wait, and a poll come to at a centre |
//! | waiting | where a desk has its pending row |
//! | closing | passes that end, and cores that are taken back |
//! | settling | pending rows that get their replies, once a site is closed |
#![tactic(auto)]

mod closing;
mod desks;
mod founding;
mod judging;
mod kits;
mod looking;
mod polling;
mod settling;
mod sharing;
mod sites;
mod turns;
mod waiting;

pub use desks::AgentDesk;
pub use kits::{Closed, DeskKit, EndedDesk};
pub use sites::Site;
pub use tc_lists::NoMemory;
