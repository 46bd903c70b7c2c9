//! Amounts that no line has, and texts of amounts. (What batches read, what reports print and shares stand in the
//! transcripts.)
use crate::examples::cents;
use std::process::Abort;
use td_money::*;

/// Texts, and the cents that they are read as.
const READ: [(&[u8], Option<u64>); 4] = [
    (b"0.00", Some(0)),
    (b"10000000000000.00", Some(1_000_000_000_000_000)),
    (b"10000000000000.01", None),
    (b"100000000000000000000.00", None),
];

fn read(text: &[u8]) -> Option<u64> {
    Some(Cents::read(text)?.get())
}

/// Cents, and the text that they are printed as. (Reports print theirs by themselves.)
const PRINTED: [(u64, &str); 3] = [(0, "0.00"), (1, "0.01"), (123_456, "1234.56")];

fn assert_printed(rt: &(impl AllocGlobal + Abort), amount: Cents, text: &str) {
    let printed = format!(in rt.alloc(); "{amount}").expect(rt, "memory");
    assert_eq!(rt; printed.as_str(), text);
    cents_read_back(amount);
}

fn sum(one: Cents, other: Cents) -> Option<u64> {
    Some(one.plus(other)?.get())
}

#[test]
fn amounts_have_limits(rt: HostRuntime) {
    for (text, number) in &READ {
        assert!(rt; read(text) == *number, "{number:?}");
    }
    let one = cents(&rt, 1);
    let most = Reference::new(1_000_000_000_000_000).expect(&rt, "an amount");
    assert!(rt; sum(most.get(), one).is_none());
    assert!(rt; Cents::new(1_000_000_000_000_001).is_none());
    for (number, text) in &PRINTED {
        assert_printed(&rt, cents(&rt, *number), text);
    }
}
