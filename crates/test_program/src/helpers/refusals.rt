//! Places that tests/memory knows: it runs a test that marks them again and again, and refuses in each run another
//! request for memory between the two.
use std::process::Abort;

/// What is asked for where the requests begin that may be refused, in bytes.
const BEGIN: usize = 1_000_003;

/// And where they end.
const END: usize = 1_000_033;

fn mark(rt: &(impl AllocGlobal + Abort), bytes: usize) {
    let room: Vec<u8> = Vec::with_capacity(rt.alloc(), bytes).expect(rt, "memory");
    assert!(rt; room.is_empty());
}

/// From here on a request may be refused.
pub fn begin_refusals(rt: &(impl AllocGlobal + Abort)) {
    mark(rt, BEGIN);
}

/// From here on none is.
pub fn end_refusals(rt: &(impl AllocGlobal + Abort)) {
    mark(rt, END);
}
