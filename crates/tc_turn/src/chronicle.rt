//! What a turnstile hands on: a value with a history that grows at its end.
ghost use Rattle.std.specs.Prelude.{◌≡◌, ℕ, List, Option, length};

/// A value that stands for an origin, which never changes, and for a list of entries.
///
/// Each entry is owned by the pass of some number, or by none.
pub trait Chronicle {
    type Entry;

    type Origin;

    ghost origin: { Self → Self.Origin };

    ghost history: { Self → List Self.Entry };

    ghost owner: { Self.Entry → Option ℕ };

    /// The number of entries.
    fn entries(&self) -> u64
        ensures { result ≡ length (history self.now) };
}
