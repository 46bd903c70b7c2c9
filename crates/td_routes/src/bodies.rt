//! The command of a request.
ghost use Rattle.std.specs.Prelude.{◌≡◌, option_map};
ghost use Rattle.td_fields.specs.Faults.{OrNoMemory};
ghost use Rattle.td_routes.specs.Bodies.{command_at, command_of};
ghost use Rattle.td_routes.specs.Routes.{path_of};

use crate::routes::Routes;
use crate::table::Route;
use http_wire::Request;
use std::alloc::Global;
use td_commands::Command;
use td_fields::{
    WebFault, read_addition, read_amendment, read_arrival, read_control, read_declaration,
    read_opening, read_registration, read_release, read_removal, read_write_off,
};

/// The command of a request, or the first fault, in the order of `WebFault`. Want of memory may take the
/// place of either. A command without fields doesn't look at the body; of one with fields, unknown keys of
/// the body are ignored, and where it has a key twice, the last stands.
pub fn read_command(alloc: Global, request: &Request) -> Result<Command, WebFault>
    ensures { OrNoMemory result
        (command_of request.now.method request.now.target.items request.now.body.items) }
{
    read_command_by(alloc, &mut Routes::new(), request)
}

/// The same, by a router that is kept from one request to the next.
pub fn read_command_by(
    alloc: Global,
    routes: &mut Routes,
    request: &Request,
) -> Result<Command, WebFault>
    ensures { OrNoMemory result
        (command_of request.now.method request.now.target.items request.now.body.items) }
{
    let path = path_text(&request.target).ok_or(WebFault::NoRoute)?;
    let route = routes.route_of_text(alloc, &request.method, path)?;
    read_body(alloc, route, &request.body)
}

// The command of a route and a body.
fn read_body(alloc: Global, route: Route, body: &[u8]) -> Result<Command, WebFault>
    ensures { OrNoMemory result (command_at body.now route) }
{
    match route {
        Route::Register { holder } => read_registration(alloc, holder, body),
        Route::OpenGuarantee { holder } => read_opening(alloc, holder, body),
        Route::Amend { grn } => read_amendment(alloc, grn, body),
        Route::Revoke { grn } => Ok(Command::Revoke { grn }),
        Route::Ie015 { holder } => read_declaration(alloc, holder, body),
        Route::Ie014 { holder, mrn } => Ok(Command::Ie014 { holder, mrn }),
        Route::AddCode { holder, grn } => read_addition(alloc, holder, grn, body),
        Route::RemoveCode { holder, grn } => read_removal(alloc, holder, grn, body),
        Route::Ie029 { mrn } => read_release(alloc, mrn, body),
        Route::Ie007 { mrn } => read_arrival(alloc, mrn, body),
        Route::Ie018 { mrn } => read_control(alloc, mrn, body),
        Route::Ie045 { mrn } => read_write_off(alloc, mrn, body),
        Route::Ie140 { mrn } => Ok(Command::Ie140 { mrn }),
        Route::SeeHolder { holder } => Ok(Command::SeeHolder { holder }),
        Route::SeeMovement { holder, mrn } => Ok(Command::SeeMovement { holder, mrn }),
        Route::SeeMovements { holder } => Ok(Command::SeeMovements { holder }),
        Route::SeeGuarantee { holder, grn } => Ok(Command::SeeGuarantee { holder, grn }),
        Route::SeeGuarantees { holder } => Ok(Command::SeeGuarantees { holder }),
    }
}

// The path of a target that is text (UTF-8), and of that alone.
fn path_text(target: &[u8]) -> Option<&str>
    ensures { option_map (λ path. path.now) result ≡ path_of target.now }
{
    let Ok(text) = str::from_utf8(target) else {
        return None;
    };
    match text.split_once('?') {
        Some((path, _)) => Some(path),
        None => Some(text),
    }
}

/// The path of a target: what stands before its first `?`. A target that isn't text (UTF-8) has none,
/// wherever it isn't.
pub fn path(target: &[u8]) -> Option<&[u8]>
    ensures { option_map (λ path. path.now) result ≡ path_of target.now }
{
    let path = path_text(target)?;
    Some(path.as_bytes())
}
