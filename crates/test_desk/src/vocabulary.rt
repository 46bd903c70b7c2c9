//! Check digits, limits of references, and whose they are, where no run of the program shows them; and their laws. (References
//! and names that are read and told stand in the transcripts.)
use crate::examples::{GRN, MRN, code, country, eori, grn, holder, lrn, mrn, office};
use std::process::Abort;
use td_base::*;
use td_fields::WebFault;

const DIGITS: [(&[u8], Option<u8>); 8] = [
    (b"CSQU305438", Some(3)),
    (b"", Some(0)),
    (b"25CH0000010000001", Some(3)),
    (b"25CH0000010000003", Some(0)),
    (b"25CH000001000001J", Some(8)),
    (b"CSQu305438", None),
    (b"00000000000000000000000000000000000000000", None),
    (b"0000000000000000000000000000000000000000", Some(0)),
];

#[test]
fn check_digits(rt: HostRuntime) {
    for (text, digit) in &DIGITS {
        assert!(rt; check_digit(text) == *digit, "{digit:?}");
    }
}

/// A year and a serial, and whether there is a GRN, an MRN and one in the older form of holder 999999.
const LIMITS: [(u8, u32, (bool, bool, bool)); 8] = [
    (25, 0, (false, false, false)),
    (0, 1, (true, true, true)),
    (99, 1, (true, true, true)),
    (100, 1, (false, false, false)),
    (25, 999_999, (true, true, true)),
    (25, 1_000_000, (false, false, true)),
    (25, 9_999_999, (false, false, true)),
    (25, 10_000_000, (false, false, false)),
];

// Whether there is a GRN, whether an MRN, and whether one in the older form.
fn are_made(country: Country, holder: HolderNo, year: u8, serial: u32) -> (bool, bool, bool) {
    let grn = Grn::make(year, country, holder, serial);
    let mrn = Mrn::make(year, country, holder, serial);
    let older = Mrn::make_older(year, country, holder, serial);
    (grn.is_some(), mrn.is_some(), older.is_some())
}

#[test]
fn references_have_limits(rt: HostRuntime) {
    let (country, holder) = (country(&rt), holder(&rt, 999_999));
    for (year, serial, due) in &LIMITS {
        let made = are_made(country, holder, *year, *serial);
        assert!(rt; made == *due, "{year} {serial}");
    }
}

/// A country, an MRN, and the number of the owner there with the serial: only digits and `J` at the thirteenth place are
/// owned.
const MRNS_OWNED: [(&[u8], &[u8], Option<(u32, u32)>); 15] = [
    (b"CH", b"25CH000001000001J8", Some((1, 1))),
    (b"DE", b"25CH000001000001J8", None),
    (b"CH", b"24CH000001000001J6", Some((1, 1))),
    (b"CH", b"25DE000001000001J0", None),
    (b"CH", b"25CH00000100000013", Some((1, 1))),
    (b"CH", b"24CH00000100000011", Some((1, 1))),
    (b"CH", b"25DE00000100000015", None),
    (b"CH", b"25CH999999999999J6", Some((999_999, 999_999))),
    (b"CH", b"25CH99999999999996", Some((999_999, 9_999_999))),
    (b"CH", b"25CH000001000000J9", Some((1, 0))),
    (b"CH", b"25CH000000000001J2", None),
    (b"CH", b"25CH000001000001K6", None),
    (b"CH", b"25CH000001000001I0", None),
    (b"CH", b"25CH00000100001J10", None),
    (b"CH", b"25CH0000010000AJJ6", None),
];

/// The same of GRNs.
const GRNS_OWNED: [(&[u8], &[u8], Option<(u32, u32)>); 9] = [
    (b"CH", b"25CH0000010000014", Some((1, 1))),
    (b"CH", b"25CH0000010000023", Some((1, 2))),
    (b"CH", b"25CH0000020000010", Some((2, 1))),
    (b"BE", b"25BE0000010000019", Some((1, 1))),
    (b"LV", b"25LV0000010000017", Some((1, 1))),
    (b"UZ", b"25UZ0000010000019", Some((1, 1))),
    (b"DE", b"25CH0000010000014", None),
    (b"CH", b"25CH0000000000019", None),
    (b"CH", b"25CH00000100001J1", None),
];

fn mrn_owned(country: Country, mrn: Mrn) -> Option<(u32, u32)> {
    Some((mrn.owner(country)?.number(), mrn.serial(country)?))
}

fn grn_owned(country: Country, grn: Grn) -> Option<(u32, u32)> {
    Some((grn.owner(country)?.number(), grn.serial(country)?))
}

#[test]
fn references_are_owned(rt: HostRuntime) {
    for (office, text, due) in &MRNS_OWNED {
        let country = Country::read(office).expect(&rt, "a country");
        assert!(rt; mrn_owned(country, mrn(&rt, text)) == *due, "{due:?}");
    }
    for (office, text, due) in &GRNS_OWNED {
        let country = Country::read(office).expect(&rt, "a country");
        assert!(rt; grn_owned(country, grn(&rt, text)) == *due, "{due:?}");
    }
}

#[test]
fn laws_hold(rt: HostRuntime) {
    let (country, holder) = (country(&rt), holder(&rt, 999_999));
    letter_values_skip_elevens();
    made_grn_reads_back(25, country, holder, 1);
    made_mrn_reads_back(25, country, holder, 1);
    made_older_mrn_reads_back(25, country, holder, 1);
    made_references_differ();
    owned_mrns_are_made();
    holder_reads_back(holder);
    read_texts_are_printed(b"000001");
    texts_read_back(
        country,
        eori(&rt, b"CH1234567"),
        code(&rt, b"AB12"),
        lrn(&rt, b"aZ-0/9."),
        office(&rt, b"CH001251"),
        grn(&rt, GRN),
        mrn(&rt, MRN),
    );
}

#[test]
fn faults_are_named(rt: HostRuntime) {
    let (length, form, digit) = (RefFault::Length, RefFault::Form, RefFault::CheckDigit);
    assert!(rt; Mrn::read(b"").err() == Some(length));
    assert!(rt; Grn::read(b"2 CH0000010000014").err() == Some(form));
    let (range, bad) = (ClockRange, WebFault::BadGrn(form));
    let told = format!(in rt.alloc(); "{length}, {form}, {digit}, {range}, {bad}");
    let told = told.expect(&rt, "memory");
    assert_eq!(rt;
        told.as_str(),
        "wrong length, wrong form, wrong check digit, the moment is out of range, bad-grn"
    );
}
