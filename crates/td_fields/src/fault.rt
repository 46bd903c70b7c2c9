//! Why a request can't be read.
ghost use Rattle.std.specs.Prelude.{◌≡◌};
ghost use Rattle.td_fields.specs.Faults.{reason_text};

use std::alloc::AllocError;
use td_base::RefFault;
use thiserror::Error;

/// The methods that a path of the desk has.
#[derive(Clone, Copy, Debug, PartialEq, Eq)]
pub struct Allowed {
    /// Whether it has `GET`.
    pub get: bool,
    /// Whether it has `POST`.
    pub post: bool,
    /// Whether it has `PUT`.
    pub put: bool,
}

/// A field of a request's body.
#[derive(Clone, Copy, Debug, PartialEq, Eq)]
pub enum Field {
    Eori,
    Reference,
    Cover,
    Code,
    Limit,
    Office,
    Result,
    Ground,
    Lrn,
    Departure,
    Destination,
    Lines,
}

/// Why a request can't be read. The order is that of the tests: the first that fails is told.
#[derive(Clone, Copy, Debug, PartialEq, Eq, Error)]
#[error("{}", self.name())]
pub enum WebFault {
    /// The desk has no such path, or the target isn't text.
    NoRoute,
    /// The path has other methods.
    NoMethod { allow: Allowed },
    /// The path's part that names the holder isn't a holder number.
    BadHolder,
    /// The path's part that names a movement isn't an MRN, for this reason.
    BadMrn(RefFault),
    /// The path's part that names a guarantee isn't a GRN, for this reason.
    BadGrn(RefFault),
    /// The body isn't the JSON text of an object.
    BadBody,
    /// The first field, in the command's own order, that is missing or ill-formed.
    BadField(Field),
    /// There was no memory to read it.
    NoMemory,
}

impl Allowed {
    ghost use Rattle.std.specs.Prelude.{◌≡◌};
    ghost use Rattle.td_fields.specs.Faults.{allowed_text};

    /// The methods as the field `Allow` lists them (RFC 9110, section 10.2.1): in alphabetical order, joined
    /// by `, `.
    pub fn text(self) -> &'static str
        ensures { result.now ≡ allowed_text self }
    {
        match (self.get, self.post, self.put) {
            (false, false, false) => "",
            (true, false, false) => "GET",
            (false, true, false) => "POST",
            (false, false, true) => "PUT",
            (true, true, false) => "GET, POST",
            (true, false, true) => "GET, PUT",
            (false, true, true) => "POST, PUT",
            (true, true, true) => "GET, POST, PUT",
        }
    }
}

impl Field {
    ghost use Rattle.std.specs.Prelude.{◌≡◌};
    ghost use Rattle.td_fields.specs.Faults.{field_name};

    /// The field's key in the body.
    pub fn name(self) -> &'static str
        ensures { result.now ≡ field_name self }
    {
        match self {
            Field::Eori => "eori",
            Field::Reference => "reference",
            Field::Cover => "cover",
            Field::Code => "code",
            Field::Limit => "limit",
            Field::Office => "office",
            Field::Result => "result",
            Field::Ground => "ground",
            Field::Lrn => "lrn",
            Field::Departure => "departure",
            Field::Destination => "destination",
            Field::Lines => "lines",
        }
    }
}

/// What a reply calls the reason for which a text isn't a reference.
pub fn reason_name(reason: &RefFault) -> &'static str
    ensures { result.now ≡ reason_text reason.now }
{
    match reason {
        RefFault::Length => "length",
        RefFault::Form => "form",
        RefFault::CheckDigit => "check-digit",
    }
}

impl WebFault {
    ghost use Rattle.std.specs.Prelude.{◌≡◌};
    ghost use Rattle.std.specs.Option.{option_copied};
    ghost use Rattle.td_fields.specs.Faults.{fault_name, fault_allow};

    /// The name that the reply gives the fault.
    pub fn name(&self) -> &'static str
        ensures { result.now ≡ fault_name self.now }
    {
        match self {
            WebFault::NoRoute => "no-route",
            WebFault::NoMethod { .. } => "no-method",
            WebFault::BadHolder => "bad-holder",
            WebFault::BadMrn(_) => "bad-mrn",
            WebFault::BadGrn(_) => "bad-grn",
            WebFault::BadBody => "bad-body",
            WebFault::BadField(_) => "bad-field",
            WebFault::NoMemory => "no-memory",
        }
    }

    /// What the reply's field `Allow` lists: only where the path has other methods.
    pub fn allow(&self) -> Option<&'static str>
        ensures { option_copied result ≡ fault_allow self.now }
    {
        match self {
            WebFault::NoMethod { allow } => Some(allow.text()),
            _ => None,
        }
    }
}

impl From<AllocError> for WebFault {
    ghost use Rattle.std.specs.Prelude.{◌≡◌};
    ghost use Rattle.td_fields.specs.declared.fault.WebFault.TheVariants.{NoMemory};

    ghost from_gives = { λ _ e. e ≡ NoMemory };

    fn from(_e: AllocError) -> WebFault {
        WebFault::NoMemory
    }
}
