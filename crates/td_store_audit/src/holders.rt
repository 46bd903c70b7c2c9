//! S2: the EORI of each holder is well formed, and the moment of its last change is in range.
ghost use Rattle.std.specs.Prelude.{◌↔◌, IsTrue};
ghost use Rattle.td_store_audit_rows.specs.Found.{HasFieldsOfS2};

use td_store_audit_rows::RawHolder;

/// Whether a holder has an EORI that is well formed, and a moment of its last change that is in range.
pub fn has_identity(raw: &RawHolder) -> bool
    ensures { IsTrue result ↔ HasFieldsOfS2 raw.now }
{
    raw.eori.is_some() && raw.last_at.is_some()
}
