//! What the desk says to a command.
ghost use Rattle.std.specs.Prelude.{◌≡◌};

use crate::lists::{ListedGuarantees, ListedMovements};
use td_base::{Cents, Day, Eori, Grn, HolderNo, Lrn, Mrn};
use td_guarantee::Guarantee;
use td_movement::{Movement, State};

/// The answer to a command that is not refused.
#[derive(Debug, Drop)]
pub enum Answer {
    /// To a registration and a view of a holder: the EORI, and the holder's own numbers of guarantees and
    /// movements.
    Holder {
        holder: HolderNo,
        eori: Eori,
        guarantees: u32,
        movements: u32,
    },
    /// To an opening: the GRN of the new guarantee.
    Opened {
        grn: Grn,
    },
    /// To a revocation: the day from which on nothing is lodged or released on the guarantee.
    Revoked {
        ends: Day,
        grn: Grn,
    },
    /// To a declaration: MRN allocated (IE028), for the declaration's LRN.
    Ie028 {
        lrn: Lrn,
        mrn: Mrn,
    },
    /// To a request to cancel a declaration (IE014): the movement is cancelled.
    Ie014 {
        mrn: Mrn,
    },
    /// To a release for transit (IE029): the movement is released, and has to arrive by this day.
    Ie029 {
        limit: Day,
        mrn: Mrn,
    },
    /// To an arrival: arrival advice (IE006). It is late after the limit.
    Ie006 {
        late: bool,
        mrn: Mrn,
    },
    /// To the result of a control (IE018): the state of the movement then.
    Ie018 {
        mrn: Mrn,
        state: State,
    },
    /// To a write-off (IE045): the movement is written off.
    Ie045 {
        mrn: Mrn,
    },
    /// To a request on a movement that has not arrived (IE140): it is asked after.
    Ie140 {
        mrn: Mrn,
    },
    /// To a view of a movement: the movement as it is.
    Movement(Movement),
    /// To a view of all movements: each by its references and its state, by serial.
    Movements(ListedMovements),
    /// To a view of a guarantee, an amendment, and where a code is added or removed: the guarantee as it is
    /// then, and the amount in use on it.
    Guarantee(Guarantee, Cents),
    /// To a view of all guarantees: each as it is, and the amount in use on it, by serial.
    Guarantees(ListedGuarantees),
}

/// Why a command is refused.
#[derive(Clone, Copy, Debug, PartialEq, Eq)]
pub enum Refusal {
    /// The clock shows no moment from 2000 to 2099.
    ClockRange,
    /// The holder isn't registered.
    NoHolder,
    /// The holder is registered already.
    HolderKnown,
    /// The moment is before that of the holder's own last accepted change.
    ClockBack,
    /// No movement of the holder has this MRN.
    NoMovement,
    /// No guarantee of the holder has this GRN.
    NoGuarantee,
    /// The guarantee doesn't have this access code.
    BadCode,
    /// The guarantee has ended.
    GuaranteeEnded,
    /// The holder has a movement of other contents under this LRN.
    LrnUsed,
    /// The holder has used up all serials.
    SerialsSpent,
    /// The movement's state doesn't allow the move.
    WrongState { state: State },
    /// A line is more than what is free on its guarantee.
    OverReference { free: Cents, grn: Grn },
    /// The new reference amount is less than the amount in use.
    BelowUse { used: Cents },
    /// The limit isn't from the day itself to the 365th day after.
    LimitDate,
    /// The seventh day after the limit has not come.
    TooEarly,
    /// The guarantee has this access code already.
    CodeKnown,
    /// The guarantee doesn't have this access code.
    NoCode,
    /// The guarantee has no other access code.
    LastCode,
    /// The guarantee has as many access codes as it may.
    CodesFull,
    /// The guarantee has an end already.
    AlreadyEnded,
}

impl Refusal {
    ghost use Rattle.td_commands.specs.Commands.{refusal_name};

    /// The name that replies and result files give the refusal.
    pub fn name(&self) -> &'static str
        ensures { result.now ≡ refusal_name self.now }
    {
        match self {
            Refusal::ClockRange => "clock-range",
            Refusal::NoHolder => "no-holder",
            Refusal::HolderKnown => "holder-known",
            Refusal::ClockBack => "clock-back",
            Refusal::NoMovement => "no-movement",
            Refusal::NoGuarantee => "no-guarantee",
            Refusal::BadCode => "bad-code",
            Refusal::GuaranteeEnded => "guarantee-ended",
            Refusal::LrnUsed => "lrn-used",
            Refusal::SerialsSpent => "serials-spent",
            Refusal::WrongState { .. } => "wrong-state",
            Refusal::OverReference { .. } => "over-reference",
            Refusal::BelowUse { .. } => "below-use",
            Refusal::LimitDate => "limit-date",
            Refusal::TooEarly => "too-early",
            Refusal::CodeKnown => "code-known",
            Refusal::NoCode => "no-code",
            Refusal::LastCode => "last-code",
            Refusal::CodesFull => "codes-full",
            Refusal::AlreadyEnded => "already-ended",
        }
    }
}

/// An answer or a refusal.
#[derive(Debug, Drop)]
pub enum Said {
    Answered(Answer),
    Refused(Refusal),
}
