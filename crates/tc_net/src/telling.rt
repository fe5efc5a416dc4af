//! A door that tells what it does.
ghost use Rattle.std.specs.Prelude.{◌≡◌};

use std::io::Write;
use tc_io::{Door, Failed, Stir};

/// A door that writes a line for each thing that it does: where it listens, and each connection
/// that it opens, by its number.
///
/// What can't be written is left out.
#[derive(Drop)]
pub struct TellingDoor<D, W> {
    door: D,
    lines: W,
    opened: u64,
}

impl<D: Door, W: Write> TellingDoor<D, W> {
    /// This door, which tells on this writer.
    pub fn new(door: D, lines: W) -> TellingDoor<D, W>
        ensures faults { ⟦<TellingDoor<D, W> as Door>⟧.door_faults result
            ≡ D.door_faults door }
        ensures opened { ⟦<TellingDoor<D, W> as Door>⟧.opened result ≡ D.opened door }
        ensures lent { ⟦<TellingDoor<D, W> as Door>⟧.lent result ≡ D.lent door }
    {
        TellingDoor {
            door,
            lines,
            opened: 0,
        }
    }
}

impl<D: Door, W: Write> Door for TellingDoor<D, W> {
    type Conn = D::Conn;

    ghost door_faults = { λ d. D.door_faults d.door };

    ghost opened = { λ d. D.opened d.door };

    ghost lent = { λ d. D.lent d.door };

    fn listen(&mut self, port: u16) -> Result<(), Failed> {
        match self.door.listen(port) {
            Ok(()) => {
                let _ = writeln!(
                    self.lines,
                    "tucson: listening at 127.0.0.1:{port}; after the last session the text follows"
                );
                Ok(())
            }
            Err(failed) => {
                let _ = writeln!(self.lines, "tucson: port {port} can't be listened at");
                Err(failed)
            }
        }
    }

    fn has_come(&mut self) -> bool {
        self.door.has_come()
    }

    fn rest(&mut self, most: Option<u64>) {
        self.door.rest(most)
    }

    fn next_stir(&mut self) -> Option<Stir> {
        self.door.next_stir()
    }

    fn accept(&mut self) -> Result<D::Conn, Failed> {
        match self.door.accept() {
            Ok(link) => {
                self.opened = self.opened.saturating_add(1);
                let _ = writeln!(self.lines, "tucson: agent {} has connected", self.opened);
                Ok(link)
            }
            Err(failed) => {
                let _ = writeln!(self.lines, "tucson: no further connection can be accepted");
                Err(failed)
            }
        }
    }
}
