//! What a turnstile guards.
ghost use Rattle.std.specs.Prelude.{◌≡◌, ℕ, List, length};

/// A value that keeps a history. Each entry of it is owned by the pass of some number.
pub trait Counted {
    type Entry;

    ghost history: { Self → List Self.Entry };

    ghost owner: { Self.Entry → ℕ };

    /// The length of the history.
    fn count(&self) -> u64
        ensures { result ≡ length (history self.now) };
}
