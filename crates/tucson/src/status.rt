//! How a call of the program ends.
ghost use Rattle.std.specs.Prelude.{◌≡◌};
ghost use Rattle.tucson.specs.Status.{number_of};

use tc_config::ConfigCause;

/// How a call ends. The program exits with the number of its status.
#[derive(Clone, Copy, PartialEq, Eq, Debug)]
pub enum Status {
    /// Every ask of every script has come to its end; or the text that is judged is that of a run
    /// of the configuration.
    Ended,
    /// A write has failed.
    WriteFault,
    /// The configuration's first faulty clause, from 1, or 0 for the whole of it; and why.
    Refused { clause: u32, cause: ConfigCause },
    /// Some agent waits, and all others have come to the ends of their scripts.
    Blocked,
    /// The text isn't that of a run of the configuration.
    No,
    /// A read has failed.
    ReadFault,
    NoMemory,
    /// The words aren't those of a command.
    Usage,
    /// The port can't be listened at, or some agent's connection can't be accepted.
    NetFault,
}

impl Status {
    /// The number with which the program exits.
    pub fn number(&self) -> u8
        ensures { result ≡ number_of self.now }
    {
        match self {
            Status::Ended => 0,
            Status::WriteFault => 1,
            Status::Refused { .. } => 2,
            Status::Blocked => 3,
            Status::No => 4,
            Status::ReadFault => 5,
            Status::NoMemory => 6,
            Status::Usage => 7,
            Status::NetFault => 8,
        }
    }
}
