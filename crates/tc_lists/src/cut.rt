//! A text is cut back where its writing has failed.
ghost use Rattle.std.specs.Prelude.{◌≡◌, OnErr, OnOk, take};

use crate::NoMemory;

/// The answer of a writing, with the text cut back to its old length where that has failed.
///
/// `before` is the length that the text had; a shorter text stays as it is.
pub fn cut_back(
    written: Result<(), NoMemory>,
    before: usize,
    into: &mut Vec<u8>,
) -> Result<(), NoMemory>
    ensures answer { result ≡ written }
    ensures written { OnOk result (into.new.items ≡ into.old.items) }
    ensures cut { OnErr result (into.new.items ≡ take before into.old.items) }
{
    if written.is_err() {
        into.truncate(before);
    }
    written
}
