//! Clocks, which tell moments in milliseconds, and pauses between two looks at what isn't there yet.

ghost use Rattle.std.specs.Prelude.{◌≡◌, ℕ, ◌≤◌, ⊤, max};

/// Tells moments, in milliseconds from a beginning of its own.
pub trait Clock {
    // The greatest moment that it has told, 0 at first.
    ghost told: { Self → ℕ };

    // What one call does: the clock before, the moment that it told, and the clock after.
    ghost tells: { Self → ℕ → Self → Type 0 } = { λ _ _ _. ⊤ };

    /// The moment now. A clock may tell an earlier moment than before.
    fn now(&mut self) -> u64
        ensures rises { told self.old ≤ told self.new }
        ensures within { result ≤ told self.new }
        ensures told { told self.new ≡ max (told self.old) result }
        ensures tells { tells self.old result self.new };
}

/// Lets a little time pass.
pub trait Pause {
    fn pause(&mut self);
}
