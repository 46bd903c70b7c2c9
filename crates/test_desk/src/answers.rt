//! Replies that no transcript has, byte for byte, with ample memory: results of a control in each state (a desk answers
//! with two of them), and a refusal for which a holder needs too many serials.
use crate::examples::{MRN, cents, mrn};
use std::process::Abort;
use td_answers::{fault_is_told_in, reply_bytes};
use td_base::RefFault;
use td_commands::{Answer, Refusal, Said};
use td_fields::WebFault;
use td_movement::State;

fn is_told(rt: &(impl AllocGlobal + Abort), said: &Said, reply: &str) -> bool {
    let told = reply_bytes(rt.alloc(), said, false).expect(rt, "memory");
    told.as_slice() == reply.as_bytes()
}

/// States, and what is told of the result of a control after which a movement is in them: the body's length and the name.
const CONTROLLED: [(State, u32, &str); 8] = [
    (State::Accepted, 65, "accepted"),
    (State::Cancelled, 66, "cancelled"),
    (State::Released, 65, "released"),
    (State::Enquired, 65, "enquired"),
    (State::Arrived, 64, "arrived"),
    (State::Discrepant, 67, "discrepant"),
    (State::Cleared, 64, "cleared"),
    (State::WrittenOff, 68, "written-off"),
];

const SERIALS_SPENT: &str =
    "HTTP/1.1 409 Conflict\r\nContent-Type: application/json\r\nContent-Length: 25\r\n\r\n{\"error\":\"serials-spent\"}";

const ONE_IN_USE: &str =
    "HTTP/1.1 409 Conflict\r\nContent-Type: application/json\r\nContent-Length: 30\r\n\r\n{\"error\":\"below-use\",\"used\":1}";

fn controlled_reply(rt: &(impl AllocGlobal + Abort), length: u32, name: &str) -> String {
    let reply = format!(in rt.alloc();
        "HTTP/1.1 200 OK\r\nContent-Type: application/json\r\nContent-Length: {length}\r\n\r\n{{\"message\":\"IE018\",\"mrn\":\"25CH000001000001J8\",\"state\":\"{name}\"}}"
    );
    reply.expect(rt, "memory")
}

#[test]
fn results_of_a_control_are_written(rt: HostRuntime) {
    let mrn = mrn(&rt, MRN);
    for (state, length, name) in &CONTROLLED {
        let state = *state;
        let said = Said::Answered(Answer::Ie018 { mrn, state });
        assert!(rt; is_told(&rt, &said, &controlled_reply(&rt, *length, name)));
    }
}

#[test]
fn refusals_are_written(rt: HostRuntime) {
    let used = cents(&rt, 1);
    let spent = Said::Refused(Refusal::SerialsSpent);
    let in_use = Said::Refused(Refusal::BelowUse { used });
    assert!(rt; is_told(&rt, &spent, SERIALS_SPENT) && is_told(&rt, &in_use, ONE_IN_USE));
    fault_is_told_in(WebFault::BadGrn(RefFault::Form));
}
