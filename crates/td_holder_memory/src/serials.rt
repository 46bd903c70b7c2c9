//! Serials: they begin at 1, and places at 0.
ghost use Rattle.std.specs.Prelude.{◌≡◌, ◌≢◌, ◌+◌, ◌↔◌, ℕ, Some, None, IsTrue, IfSome};

/// Whether a serial is the one that comes after so many.
pub(crate) fn is_next(serial: Option<u32>, count: usize) -> bool
    ensures { IsTrue result ↔ (serial ≡ Some (count + 1)) }
{
    place_of(serial) == Some(count)
}

/// The place of a serial's row, where all stand in order.
pub(crate) fn place_of(serial: Option<u32>) -> Option<usize>
    ensures some { IfSome result (λ at. serial ≡ Some (at + 1)) }
    ensures none { result ≡ None → (at : ℕ) → serial ≢ Some (at + 1) }
{
    (serial? as usize).checked_sub(1)
}
