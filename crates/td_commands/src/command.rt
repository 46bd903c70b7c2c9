//! Commands, and whose they are.
ghost use Rattle.std.specs.Prelude.{◌≡◌, true};
ghost use Rattle.td_commands.specs.Commands.{owner_of, IsProper};

use crate::lines::Lines;
use crate::needs::Needs;
use td_base::{
    AccessCode, Country, Cover, Day, Eori, Grn, HolderNo, Lrn, Mrn, OfficeNo, Reference,
};
use td_movement::{Control, Ground};

/// What is asked of the desk.
#[derive(Debug, Drop)]
pub enum Command {
    /// An office registers a holder under a number, with an EORI. Two holders may have the same EORI.
    Register {
        holder: HolderNo,
        eori: Eori,
    },
    /// An office opens a comprehensive guarantee for a holder, with one access code.
    OpenGuarantee {
        holder: HolderNo,
        reference: Reference,
        cover: Cover,
        code: AccessCode,
    },
    /// An office amends a guarantee: its reference amount and its cover.
    Amend {
        grn: Grn,
        reference: Reference,
        cover: Cover,
    },
    /// An office revokes a guarantee: it ends on the sixteenth day after.
    Revoke {
        grn: Grn,
    },
    /// A holder lodges a declaration (IE015) under the holder's own LRN.
    Ie015 {
        holder: HolderNo,
        lrn: Lrn,
        departure: OfficeNo,
        destination: OfficeNo,
        lines: Lines,
    },
    /// A holder asks to cancel a declaration (IE014).
    Ie014 {
        holder: HolderNo,
        mrn: Mrn,
    },
    /// A holder gives a guarantee one access code more.
    AddCode {
        holder: HolderNo,
        grn: Grn,
        code: AccessCode,
    },
    /// A holder takes an access code from a guarantee.
    RemoveCode {
        holder: HolderNo,
        grn: Grn,
        code: AccessCode,
    },
    /// The office of departure releases a movement for transit (IE029), with the day by which it has to arrive.
    Ie029 {
        mrn: Mrn,
        limit: Day,
    },
    /// An office enters the arrival of a movement there (IE007).
    Ie007 {
        mrn: Mrn,
        office: OfficeNo,
    },
    /// The office of destination tells the result of its control (IE018).
    Ie018 {
        mrn: Mrn,
        result: Control,
    },
    /// The office of departure writes a movement off (IE045).
    Ie045 {
        mrn: Mrn,
        ground: Ground,
    },
    /// The office of departure asks after a movement that has not arrived (IE140).
    Ie140 {
        mrn: Mrn,
    },
    /// The holder's EORI, and how many guarantees and movements the holder has.
    SeeHolder {
        holder: HolderNo,
    },
    /// One of the holder's movements, by its MRN.
    SeeMovement {
        holder: HolderNo,
        mrn: Mrn,
    },
    /// All of the holder's movements.
    SeeMovements {
        holder: HolderNo,
    },
    /// One of the holder's guarantees, by its GRN.
    SeeGuarantee {
        holder: HolderNo,
        grn: Grn,
    },
    /// All of the holder's guarantees.
    SeeGuarantees {
        holder: HolderNo,
    },
}

/// A command, and the moment at which it came, in seconds since 1970-01-01T00:00:00Z.
#[derive(Debug, Drop)]
pub struct Stamped {
    pub at: i64,
    pub command: Command,
}

/// What a command is about.
#[derive(Clone, Copy, Debug, PartialEq, Eq)]
pub enum Subject {
    /// A holder.
    Holder(HolderNo),
    /// The movement with an MRN, on which an office acts.
    Movement(Mrn),
    /// The guarantee with a GRN, on which an office acts.
    Guarantee(Grn),
}

impl Subject {
    ghost use Rattle.std.specs.Prelude.{◌≡◌};
    ghost use Rattle.td_commands.specs.Commands.{owner_of_subject};

    /// The holder whom it belongs to at a desk of that country. The owner of a reference is read from its
    /// text alone.
    pub fn owner(&self, country: Country) -> Option<HolderNo>
        ensures { result ≡ owner_of_subject country self.now }
    {
        match self {
            Subject::Holder(holder) => Some(*holder),
            Subject::Movement(mrn) => mrn.owner(country),
            Subject::Guarantee(grn) => grn.owner(country),
        }
    }
}

impl Command {
    ghost use Rattle.std.specs.Prelude.{◌≡◌};
    ghost use Rattle.td_commands.specs.Commands.{subject_of};
    ghost use Rattle.td_commands.specs.Commands.{need_of, need_said};

    /// What it is about: its holder, or the movement or guarantee that an office acts on.
    pub fn subject(&self) -> Subject
        ensures { result ≡ subject_of self.now }
    {
        match self {
            Command::Register { holder, .. }
            | Command::OpenGuarantee { holder, .. }
            | Command::Ie015 { holder, .. }
            | Command::Ie014 { holder, .. }
            | Command::AddCode { holder, .. }
            | Command::RemoveCode { holder, .. }
            | Command::SeeHolder { holder }
            | Command::SeeMovement { holder, .. }
            | Command::SeeMovements { holder }
            | Command::SeeGuarantee { holder, .. }
            | Command::SeeGuarantees { holder } => Subject::Holder(*holder),
            Command::Amend { grn, .. } | Command::Revoke { grn } => Subject::Guarantee(*grn),
            Command::Ie029 { mrn, .. }
            | Command::Ie007 { mrn, .. }
            | Command::Ie018 { mrn, .. }
            | Command::Ie045 { mrn, .. }
            | Command::Ie140 { mrn } => Subject::Movement(*mrn),
        }
    }

    /// What the verdict on it needs of its owner's rows.
    pub fn needs(&self) -> Needs<'_>
        ensures { need_said result ≡ need_of self.now }
    {
        match self {
            Command::Register { .. } | Command::OpenGuarantee { .. } | Command::SeeHolder { .. } =>
                Needs::Nothing,
            Command::Ie015 { lrn, lines, .. } => Needs::Lodging(*lrn, lines),
            Command::Ie029 { mrn, .. } => Needs::Release(*mrn),
            Command::Ie014 { mrn, .. }
            | Command::Ie007 { mrn, .. }
            | Command::Ie018 { mrn, .. }
            | Command::Ie045 { mrn, .. }
            | Command::Ie140 { mrn } => Needs::Status(*mrn),
            Command::SeeMovement { mrn, .. } => Needs::Movement(*mrn),
            Command::Amend { grn, .. }
            | Command::Revoke { grn }
            | Command::AddCode { grn, .. }
            | Command::RemoveCode { grn, .. }
            | Command::SeeGuarantee { grn, .. } => Needs::Guarantee(*grn),
            Command::SeeMovements { .. } => Needs::AllMovements,
            Command::SeeGuarantees { .. } => Needs::AllGuarantees,
        }
    }
}

/// The holder whose command it is at a desk of that country: the holder field, else the owner of the
/// reference named.
pub fn owner(country: Country, command: &Command) -> Option<HolderNo>
    ensures { result ≡ owner_of country command.now }
{
    command.subject().owner(country)
}

/// Always true: what the types of a command's parts say of them, as a fact that proofs can use. A clause over every command
/// ranges over values that no type has; this tells that a command isn't one of them.
pub fn known(command: &Command) -> bool
    ensures known { result ≡ true }
    ensures proper { IsProper command.now }
{
    match command {
        Command::Register { holder, eori } => holder.number() >= 1 && eori.as_bytes().len() >= 3,
        Command::OpenGuarantee {
            holder,
            reference,
            cover,
            code,
        } => {
            let amounts = reference.get().get() >= 1 && cover.get() <= 100;
            holder.number() >= 1 && amounts && code.as_bytes().len() == 4
        }
        Command::Ie015 {
            holder,
            lrn,
            departure,
            destination,
            lines,
        } => {
            let offices = departure.as_bytes().len() == 8 && destination.as_bytes().len() == 8;
            let texts = !lrn.as_bytes().is_empty() && offices;
            holder.number() >= 1 && texts && !lines.as_slice().is_empty()
        }
        Command::Amend {
            grn,
            reference,
            cover,
        } => {
            let amounts = reference.get().get() >= 1 && cover.get() <= 100;
            grn.as_bytes().len() == 17 && amounts
        }
        Command::Revoke { grn } => grn.as_bytes().len() == 17,
        Command::AddCode { holder, grn, code } | Command::RemoveCode { holder, grn, code } => {
            let texts = grn.as_bytes().len() == 17 && code.as_bytes().len() == 4;
            holder.number() >= 1 && texts
        }
        Command::Ie029 { mrn, limit } => mrn.as_bytes().len() == 18 && limit.number() >= 1,
        Command::Ie007 { mrn, office } => {
            mrn.as_bytes().len() == 18 && office.as_bytes().len() == 8
        }
        Command::Ie018 { mrn, .. } | Command::Ie045 { mrn, .. } | Command::Ie140 { mrn } => {
            mrn.as_bytes().len() == 18
        }
        Command::SeeHolder { holder }
        | Command::SeeMovements { holder }
        | Command::SeeGuarantees { holder } => holder.number() >= 1,
        Command::Ie014 { holder, mrn } | Command::SeeMovement { holder, mrn } => {
            holder.number() >= 1 && mrn.as_bytes().len() == 18
        }
        Command::SeeGuarantee { holder, grn } => {
            holder.number() >= 1 && grn.as_bytes().len() == 17
        }
    }
}
