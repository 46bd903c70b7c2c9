//! Where moments come from.

/// A clock. Each implementation says by `ticks` which answers it may give, and what becomes of it.
pub trait Clock {
    ghost use Rattle.std.specs.Prelude.{ℤ};

    // the old state, the answer, the new state
    ghost ticks: { Self → ℤ → Self → Type 0 };

    /// Seconds since 1970-01-01T00:00:00Z.
    fn seconds(&mut self) -> i64
        ensures { ticks self.old result self.new };
}
