//! A holder's guarantees.
ghost use Rattle.std.specs.Prelude.{◌↔◌, map, IsTrue};
ghost use Rattle.td_base.specs.References.{IsGrnSerial};
ghost use Rattle.td_store_rows.specs.GuaranteeTable.{guarantee_row_of};
ghost use Rattle.td_store_audit_rows.specs.InPlace.{AreNextGuarantees, IsGuaranteeInPlace};

use ascii_text::read_digits;
use td_base::{Country, GREATEST_GRN_SERIAL, Grn};
use td_store_rows::StoredGuarantee;

/// Whether these are a holder's guarantees from the one after the serial `before` on up to `last`, by their serials: none is left
/// out, and each has a GRN of the country, the holder and its serial, and a reference amount above nothing.
pub fn guarantees_are_in_place(
    country: Country,
    before: u32,
    last: u32,
    rows: &[StoredGuarantee],
) -> bool
    ensures { IsTrue result ↔ AreNextGuarantees country before last (map guarantee_row_of rows.now) }
{
    if before > last || last > GREATEST_GRN_SERIAL || rows.len() != (last - before) as usize {
        return false;
    }
    for i in 0..rows.len() {
        if rows[i].serial as usize != before as usize + i + 1 || !is_in_place(country, &rows[i]) {
            return false;
        }
    }
    true
}

// Whether a guarantee with such a serial is in its place. The year is that in its GRN.
fn is_in_place(country: Country, row: &StoredGuarantee) -> bool
    ensures { IsGrnSerial row.now.serial → (IsTrue result ↔ IsGuaranteeInPlace country (guarantee_row_of row.now)) }
{
    let grn = row.guarantee.grn;
    let _letters = country.as_bytes();
    let Some(year) = read_digits(&grn.as_bytes()[..2]) else {
        return false;
    };
    let made = Grn::make(year as u8, country, row.holder, row.serial);
    made == Some(grn) && row.guarantee.reference.get() >= 1
}
