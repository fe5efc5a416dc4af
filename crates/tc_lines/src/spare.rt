//! Room: bytes for which it is there, and room that isn't used.
ghost use Rattle.std.specs.Prelude.{◌≡◌, ◌+◌, ◌<◌, ◌≤◌, ◌++◌, length, vec_len, vec_capacity};

use crate::limits::MOST_SPARE;

/// Gives back the room of a list of bytes, if it is empty and once was long.
pub fn release_spare(bytes: &mut Vec<u8>)
    ensures items { bytes.new.items ≡ bytes.old.items }
    ensures spare { vec_len bytes.old ≡ 0 → vec_capacity bytes.new ≤ MOST_SPARE }
    ensures kept { 0 < vec_len bytes.old → vec_capacity bytes.new ≡ vec_capacity bytes.old }
{
    if bytes.is_empty() && bytes.capacity() > MOST_SPARE {
        bytes.shrink_to_fit();
    }
}

/// Appends bytes for which there is room.
pub fn push_bytes(bytes: &[u8], into: &mut Vec<u8>)
    requires { vec_len into.old + length bytes.now ≤ vec_capacity into.old }
    ensures items { into.new.items ≡ into.old.items ++ bytes.now }
    ensures len { vec_len into.new ≡ vec_len into.old + length bytes.now }
    ensures capacity { vec_capacity into.old ≤ vec_capacity into.new }
{
    match into.extend_from_slice(bytes) {
        Ok(()) => {}
        Err(_) => unreachable!(),
    }
}
