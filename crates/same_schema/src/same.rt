//! Things that can be compared.
ghost use Rattle.std.specs.Prelude.{◌≡◌, IsTrue};

/// What can be compared with another of its kind.
pub(crate) trait Same {
    /// Whether both are the same; `false` says nothing.
    fn is_same(&self, other: &Self) -> bool
        ensures { IsTrue result → self.now ≡ other.now };
}

/// Whether two lists have the same things in one order; `false` says nothing.
pub(crate) fn are_same<T: Same>(these: &[T], others: &[T]) -> bool
    ensures { IsTrue result → these.now ≡ others.now }
{
    if these.len() != others.len() {
        return false;
    }
    for (at, this) in these.iter().enumerate() {
        if !this.is_same(&others[at]) {
            return false;
        }
    }
    true
}
