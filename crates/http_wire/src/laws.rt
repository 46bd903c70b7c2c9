//! What holds of the bytes of any stream. There is nothing to call: the contract is the law.
ghost use Rattle.std.specs.Prelude.{◌≡◌, ◌≤◌, ◌⊎◌, ℕ, List, [], length, take};
ghost use Rattle.http_wire.specs.Wire.{WireRequest, Splits};
ghost use Rattle.http_wire.specs.OneReading.{HasNoWireRequest, Standing, StandsIn, IsUnsettled};

/// The same bytes are read as the same requests, however they were cut into pieces.
///
/// - `one`: bytes are whole requests and a rest that begins with none in one way at most.
/// - `front`: where they are read so twice, and once less far, the shorter list of requests begins the longer one.
/// - `ends`, `empty`: no request stands in front of what a stream ends with.
/// - `apart`: that is one of: not whole yet, refused for one reason, the head of a HEAD request for one target; but for
///   a head that has more than 64 fields while it is read, and for one that ends inside its target, where `httparse`
///   doesn't say whether it goes on or is refused already.
pub fn one_reading()
    ensures one { (bytes : List ℕ) (ws vs : List WireRequest) (r q : List ℕ) → Splits bytes ws r → Splits bytes vs q
        → HasNoWireRequest r → HasNoWireRequest q → (ws ≡ vs) × (r ≡ q) }
    ensures front { (bytes : List ℕ) (ws vs : List WireRequest) (r q : List ℕ) → Splits bytes ws r → Splits bytes vs q
        → length ws ≤ length vs → ws ≡ take (length ws) vs }
    ensures ends { (rest : List ℕ) (s : Standing) → StandsIn rest s → HasNoWireRequest rest }
    ensures empty { HasNoWireRequest [] }
    ensures apart { (rest : List ℕ) (s t : Standing) → StandsIn rest s → StandsIn rest t → (s ≡ t) ⊎ IsUnsettled rest }
{}
