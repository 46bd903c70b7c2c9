//! The table of routes: methods, patterns of paths, and what they ask for.
ghost use Rattle.std.specs.Prelude.{◌≡◌};
ghost use Rattle.td_routes.specs.Routes.{verb_text};

use td_base::{Grn, HolderNo, Mrn};

/// A method that a path of the desk may have (RFC 9110, section 9.3).
#[derive(Clone, Copy, Debug, PartialEq, Eq)]
pub(crate) enum Verb {
    Get,
    Post,
    Put,
}

impl Verb {
    /// The method's name.
    pub(crate) fn name(self) -> &'static str
        ensures { result.now ≡ verb_text self }
    {
        match self {
            Verb::Get => "GET",
            Verb::Post => "POST",
            Verb::Put => "PUT",
        }
    }
}

/// What a method of a path asks for, named like its command.
#[derive(Clone, Copy, Debug, PartialEq, Eq)]
pub(crate) enum Endpoint {
    Register,
    OpenGuarantee,
    Amend,
    Revoke,
    Ie015,
    Ie014,
    AddCode,
    RemoveCode,
    Ie029,
    Ie007,
    Ie018,
    Ie045,
    Ie140,
    SeeHolder,
    SeeMovement,
    SeeMovements,
    SeeGuarantee,
    SeeGuarantees,
}

/// A row of the table: a method, the pattern of its paths, and what they ask for.
#[derive(Clone, Copy, Debug)]
pub(crate) struct Row {
    pub method: Verb,
    pub path: &'static str,
    pub endpoint: Endpoint,
}

// A row in one line.
macro_rules! row {
    ($method:ident, $path:literal, $endpoint:ident) => {
        Row {
            method: Verb::$method,
            path: $path,
            endpoint: Endpoint::$endpoint,
        }
    };
}

/// The rows, in the table's order.
pub(crate) static ROWS: [Row; 18] = [
    row!(Put, "/office/holders/{h}", Register),
    row!(Post, "/office/holders/{h}/guarantees", OpenGuarantee),
    row!(Post, "/office/guarantees/{g}/amend", Amend),
    row!(Post, "/office/guarantees/{g}/revoke", Revoke),
    row!(Post, "/office/movements/{m}/ie029", Ie029),
    row!(Post, "/office/movements/{m}/ie007", Ie007),
    row!(Post, "/office/movements/{m}/ie018", Ie018),
    row!(Post, "/office/movements/{m}/ie045", Ie045),
    row!(Post, "/office/movements/{m}/ie140", Ie140),
    row!(Get, "/holders/{h}", SeeHolder),
    row!(Get, "/holders/{h}/guarantees", SeeGuarantees),
    row!(Get, "/holders/{h}/guarantees/{g}", SeeGuarantee),
    row!(Post, "/holders/{h}/guarantees/{g}/codes/add", AddCode),
    row!(Post, "/holders/{h}/guarantees/{g}/codes/remove", RemoveCode),
    row!(Get, "/holders/{h}/movements", SeeMovements),
    row!(Post, "/holders/{h}/movements", Ie015),
    row!(Get, "/holders/{h}/movements/{m}", SeeMovement),
    row!(Post, "/holders/{h}/movements/{m}/ie014", Ie014),
];

impl path_table::Row for Row {
    ghost pattern = { λ row. row.path.now };

    fn pattern(&self) -> &str {
        self.path
    }
}

/// A row of the table with the parts of its path.
#[derive(Clone, Copy, Debug, PartialEq, Eq)]
pub enum Route {
    /// `PUT /office/holders/H`
    Register { holder: HolderNo },
    /// `POST /office/holders/H/guarantees`
    OpenGuarantee { holder: HolderNo },
    /// `POST /office/guarantees/G/amend`
    Amend { grn: Grn },
    /// `POST /office/guarantees/G/revoke`
    Revoke { grn: Grn },
    /// `POST /holders/H/movements`
    Ie015 { holder: HolderNo },
    /// `POST /holders/H/movements/M/ie014`
    Ie014 { holder: HolderNo, mrn: Mrn },
    /// `POST /holders/H/guarantees/G/codes/add`
    AddCode { holder: HolderNo, grn: Grn },
    /// `POST /holders/H/guarantees/G/codes/remove`
    RemoveCode { holder: HolderNo, grn: Grn },
    /// `POST /office/movements/M/ie029`
    Ie029 { mrn: Mrn },
    /// `POST /office/movements/M/ie007`
    Ie007 { mrn: Mrn },
    /// `POST /office/movements/M/ie018`
    Ie018 { mrn: Mrn },
    /// `POST /office/movements/M/ie045`
    Ie045 { mrn: Mrn },
    /// `POST /office/movements/M/ie140`
    Ie140 { mrn: Mrn },
    /// `GET /holders/H`
    SeeHolder { holder: HolderNo },
    /// `GET /holders/H/movements/M`
    SeeMovement { holder: HolderNo, mrn: Mrn },
    /// `GET /holders/H/movements`
    SeeMovements { holder: HolderNo },
    /// `GET /holders/H/guarantees/G`
    SeeGuarantee { holder: HolderNo, grn: Grn },
    /// `GET /holders/H/guarantees`
    SeeGuarantees { holder: HolderNo },
}
