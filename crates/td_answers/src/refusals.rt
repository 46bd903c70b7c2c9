//! Why a command is refused, as JSON, and the statuses of replies to it.
#![tactic(auto, unfolding(serde_json::proofs::OnLiterals::serde_json_on_literals))]

ghost use Rattle.std.specs.Prelude.{◌≡◌};
ghost use Rattle.td_commands.specs.declared.said.Said.TheVariants.{Refused};
ghost use Rattle.td_answers.specs.Answers.{said_body};
ghost use Rattle.td_answers.specs.Refusals.{refusal_body, refusal_data, refusal_status};

use crate::json::{Json, ToJson};
use crate::objects::is_grn;
use http::StatusCode;
use std::fmt;
use td_commands::Refusal;

impl ToJson for Refusal {
    ghost shown = { refusal_data };

    fn write_json<W: fmt::Write>(&self, f: &mut fmt::Formatter<W>) -> fmt::Result {
        match self {
            Refusal::WrongState { state } => write!(
                f,
                r#"{{"error":"{}","state":{}}}"#,
                self.name(),
                Json(state)
            ),
            Refusal::OverReference { free, grn } => write!(
                f,
                r#"{{"error":"{}","free":{},"grn":{}}}"#,
                self.name(),
                Json(free),
                Json(grn)
            ),
            Refusal::BelowUse { used } => write!(
                f,
                r#"{{"error":"{}","used":{}}}"#,
                self.name(),
                Json(used)
            ),
            _ => write!(f, r#"{{"error":"{}"}}"#, self.name()),
        }
    }
}

/// The status of the reply to a refusal.
pub(crate) fn refusal_status_of(refusal: &Refusal) -> StatusCode
    ensures { result ≡ refusal_status refusal.now }
{
    match refusal {
        Refusal::ClockRange => StatusCode::SERVICE_UNAVAILABLE,
        Refusal::NoHolder => StatusCode::NOT_FOUND,
        Refusal::HolderKnown => StatusCode::CONFLICT,
        Refusal::ClockBack => StatusCode::CONFLICT,
        Refusal::NoMovement => StatusCode::NOT_FOUND,
        Refusal::NoGuarantee => StatusCode::NOT_FOUND,
        Refusal::BadCode => StatusCode::FORBIDDEN,
        Refusal::GuaranteeEnded => StatusCode::CONFLICT,
        Refusal::LrnUsed => StatusCode::CONFLICT,
        Refusal::SerialsSpent => StatusCode::CONFLICT,
        Refusal::WrongState { .. } => StatusCode::CONFLICT,
        Refusal::OverReference { .. } => StatusCode::CONFLICT,
        Refusal::BelowUse { .. } => StatusCode::CONFLICT,
        Refusal::LimitDate => StatusCode::CONFLICT,
        Refusal::TooEarly => StatusCode::CONFLICT,
        Refusal::CodeKnown => StatusCode::CONFLICT,
        Refusal::NoCode => StatusCode::NOT_FOUND,
        Refusal::LastCode => StatusCode::CONFLICT,
        Refusal::CodesFull => StatusCode::CONFLICT,
        Refusal::AlreadyEnded => StatusCode::CONFLICT,
    }
}

/// The body of a refusal is these very bytes: nothing in it is escaped.
pub fn refusal_is_told_in(refusal: Refusal)
    ensures { said_body (Refused refusal) ≡ refusal_body refusal }
{
    if let Refusal::OverReference { grn, .. } = refusal {
        is_grn(&grn);
    }
}
