//! The route of a request, by the desk's paths.
ghost use Rattle.std.specs.Prelude.{◌≡◌, [], Some, find, bytes_eq, unwrap_or, IsSome, IfErr, IfOk, MatchResult, Ok, OnOk, None, map, option_map};
ghost use Rattle.std.specs.Option.{ForSome};
ghost use Rattle.std.specs.Str.{IsUtf8};
ghost use Rattle.td_fields.specs.Faults.{OrNoMemory};
ghost use Rattle.td_routes.specs.Routes.{table, row_shown, pattern_in, row_with, methods_with, holder_in_part, mrn_part, grn_part, part_at, holder_of_parts, grn_in, mrn_in, holder_and_grn, holder_and_mrn, route_with, route_in, route_of, methods_of};
ghost use Rattle.td_fields.specs.declared.fault.WebFault.TheVariants.{NoMemory};

use crate::table::{Endpoint, ROWS, Route, Row, Verb};
use http::Method;
use path_table::{Parts, PathTable};
use std::alloc::Global;
use td_base::{Grn, HolderNo, Mrn};
use td_fields::{Allowed, WebFault};

fn read_holder(part: &[u8]) -> Result<HolderNo, WebFault>
    ensures { result ≡ holder_in_part part.now }
{
    HolderNo::read(part).ok_or(WebFault::BadHolder)
}

fn read_mrn(part: &[u8]) -> Result<Mrn, WebFault>
    ensures { result ≡ mrn_part part.now }
{
    Mrn::read(part).map_err(WebFault::BadMrn)
}

fn read_grn(part: &[u8]) -> Result<Grn, WebFault>
    ensures { result ≡ grn_part part.now }
{
    Grn::read(part).map_err(WebFault::BadGrn)
}

// The part at a place, from the left: empty where there are fewer.
fn part_at<'p>(parts: &Parts<'_, 'p>, place: usize) -> &'p [u8]
    ensures { result.now ≡ part_at place parts.now }
{
    bytes_of(parts.get(place))
}

// A path that names a holder.
fn holder_in(parts: &Parts<'_, '_>) -> Result<HolderNo, WebFault>
    ensures { result ≡ holder_of_parts parts.now }
{
    read_holder(part_at(parts, 0))
}

// A path that names a guarantee alone.
fn grn_in(parts: &Parts<'_, '_>) -> Result<Grn, WebFault>
    ensures { result ≡ grn_in parts.now }
{
    read_grn(part_at(parts, 0))
}

// A path that names a movement alone.
fn mrn_in(parts: &Parts<'_, '_>) -> Result<Mrn, WebFault>
    ensures { result ≡ mrn_in parts.now }
{
    read_mrn(part_at(parts, 0))
}

// The bytes of a part: none where the path has no such part.
fn bytes_of(part: Option<&str>) -> &[u8]
    ensures { result.now ≡ unwrap_or (option_map (λ part. part.now) part.entry) [] }
{
    match part {
        Some(part) => part.as_bytes(),
        None => &[],
    }
}

// A path that names a holder and a guarantee.
fn holder_and_grn(parts: &Parts<'_, '_>) -> Result<(HolderNo, Grn), WebFault>
    ensures { result ≡ holder_and_grn parts.now }
{
    let (holder, grn) = parts.first_two();
    let holder = read_holder(bytes_of(holder))?;
    let grn = read_grn(bytes_of(grn))?;
    Ok((holder, grn))
}

// A path that names a holder and a movement.
fn holder_and_mrn(parts: &Parts<'_, '_>) -> Result<(HolderNo, Mrn), WebFault>
    ensures { result ≡ holder_and_mrn parts.now }
{
    let (holder, mrn) = parts.first_two();
    let holder = read_holder(bytes_of(holder))?;
    let mrn = read_mrn(bytes_of(mrn))?;
    Ok((holder, mrn))
}

// The route that the parts name, once they are read.
macro_rules! named {
    ($read:expr, $route:ident { $($part:ident),+ }) => {{
        match $read {
            Ok(($($part),+)) => Ok(Route::$route { $($part),+ }),
            Err(fault) => Err(fault),
        }
    }};
}

fn read_parts(endpoint: Endpoint, parts: &Parts<'_, '_>) -> Result<Route, WebFault>
    ensures { result ≡ route_with parts.now endpoint }
{
    match endpoint {
        Endpoint::Register => named!(holder_in(parts), Register { holder }),
        Endpoint::OpenGuarantee => named!(holder_in(parts), OpenGuarantee { holder }),
        Endpoint::Amend => named!(grn_in(parts), Amend { grn }),
        Endpoint::Revoke => named!(grn_in(parts), Revoke { grn }),
        Endpoint::Ie015 => named!(holder_in(parts), Ie015 { holder }),
        Endpoint::Ie014 => named!(holder_and_mrn(parts), Ie014 { holder, mrn }),
        Endpoint::AddCode => named!(holder_and_grn(parts), AddCode { holder, grn }),
        Endpoint::RemoveCode => named!(holder_and_grn(parts), RemoveCode { holder, grn }),
        Endpoint::Ie029 => named!(mrn_in(parts), Ie029 { mrn }),
        Endpoint::Ie007 => named!(mrn_in(parts), Ie007 { mrn }),
        Endpoint::Ie018 => named!(mrn_in(parts), Ie018 { mrn }),
        Endpoint::Ie045 => named!(mrn_in(parts), Ie045 { mrn }),
        Endpoint::Ie140 => named!(mrn_in(parts), Ie140 { mrn }),
        Endpoint::SeeHolder => named!(holder_in(parts), SeeHolder { holder }),
        Endpoint::SeeMovement => named!(holder_and_mrn(parts), SeeMovement { holder, mrn }),
        Endpoint::SeeMovements => named!(holder_in(parts), SeeMovements { holder }),
        Endpoint::SeeGuarantee => named!(holder_and_grn(parts), SeeGuarantee { holder, grn }),
        Endpoint::SeeGuarantees => named!(holder_in(parts), SeeGuarantees { holder }),
    }
}

// The row with this pattern and this method.
fn row_with<'t>(rows: &'t [Row], pattern: &str, method: &str) -> Option<&'t Row>
    ensures { option_map (λ row. row_shown row.now) result
        ≡ row_with (map row_shown rows.now) pattern.now method.now }
{
    for row in rows {
        if row.path == pattern && row.method.name() == method {
            return Some(row);
        }
    }
    None
}

// The row with this method and the pattern of a row, before which no row has this pattern: mostly that row itself.
fn row_beside<'t>(rows: &'t [Row], first: &'t Row, method: &str) -> Option<&'t Row>
    requires { find (λ row. bytes_eq row.path.now first.now.path.now) rows.now ≡ Some first.now }
    ensures { option_map (λ row. row_shown row.now) result
        ≡ row_with (map row_shown rows.now) first.now.path.now method.now }
{
    if first.method.name() == method {
        Some(first)
    } else {
        row_with(rows, first.path, method)
    }
}

// The methods of the rows with this pattern.
fn methods_with(rows: &[Row], pattern: &str) -> Allowed
    ensures { result ≡ methods_with (map row_shown rows.now) pattern.now }
{
    Allowed {
        get: row_with(rows, pattern, Verb::Get.name()).is_some(),
        post: row_with(rows, pattern, Verb::Post.name()).is_some(),
        put: row_with(rows, pattern, Verb::Put.name()).is_some(),
    }
}

// The route of a method and a path in a table.
fn find(table: &PathTable<'_, Row>, method: &Method, path: &str) -> Result<Route, WebFault>
    ensures { result ≡ route_in (map row_shown table.now.rows.now) method.now path.now }
{
    let Some(found) = table.find(path) else {
        return Err(WebFault::NoRoute);
    };
    let pattern = found.row.path;
    match row_beside(table.rows, found.row, method.as_str()) {
        Some(row) => read_parts(row.endpoint, &found.parts),
        None => Err(WebFault::NoMethod {
            allow: methods_with(table.rows, pattern),
        }),
    }
}

// The methods of a path in a table.
fn find_methods(table: &PathTable<'_, Row>, path: &str) -> Option<Allowed>
    ensures { result ≡ option_map (methods_with (map row_shown table.now.rows.now))
        (pattern_in (map row_shown table.now.rows.now) path.now) }
{
    let found = table.find(path)?;
    Some(methods_with(table.rows, found.row.path))
}

/// The desk's paths, looked up by one router for all requests. It is made at the first of them.
#[derive(Drop)]
pub struct Routes {
    router: Option<PathTable<'static, Row>>,
    ghost of_table: { ForSome router (λ t. map row_shown t.rows.now ≡ table) },
}

impl Routes {
    /// No router yet: this takes no memory.
    pub fn new() -> Routes {
        Routes { router: None }
    }

    // Makes the router where it isn't there yet.
    fn make_router(&mut self, alloc: Global) -> Result<(), WebFault>
        ensures err { IfErr result (λ e. (e ≡ NoMemory) × (self.old.router ≡ None)) }
        ensures kept { IsSome self.old.router → IsSome self.new.router }
        ensures made { OnOk result (IsSome self.new.router) }
    {
        if self.router.is_none() {
            self.router = Some(PathTable::new(alloc, &ROWS)?);
        }
        Ok(())
    }

    // The router, which was made.
    fn router(&self) -> &PathTable<'static, Row>
        requires { IsSome self.now.router }
        ensures { map row_shown result.now.rows.now ≡ table }
    {
        match &self.router {
            Some(router) => router,
            None => unreachable!(),
        }
    }

    // The route of a method and a path that is text.
    pub(crate) fn route_of_text(
        &mut self,
        alloc: Global,
        method: &Method,
        path: &str,
    ) -> Result<Route, WebFault>
        ensures route { OrNoMemory result (route_of method.now path.now) }
        ensures ready { IsSome self.old.router → result ≡ route_of method.now path.now }
        ensures kept { IsSome self.old.router → IsSome self.new.router }
        ensures made { OnOk result (IsSome self.new.router) }
    {
        self.make_router(alloc)?;
        find(self.router(), method, path)
    }

    /// The route of a request, as `route` tells it. Where the router found no memory it is made at a later call.
    pub fn route(&mut self, alloc: Global, method: &Method, path: &[u8]) -> Result<Route, WebFault>
        ensures route { OrNoMemory result (route_of method.now path.now) }
        // Once the router is made it stays, and no memory is needed.
        ensures ready { IsSome self.old.router → result ≡ route_of method.now path.now }
        ensures kept { IsSome self.old.router → IsSome self.new.router }
        ensures made { OnOk result (IsSome self.new.router) }
    {
        let Ok(path) = str::from_utf8(path) else {
            return Err(WebFault::NoRoute);
        };
        self.route_of_text(alloc, method, path)
    }

    /// The methods of a path: `None` where the desk has no such path. Want of memory is `NoMemory`.
    pub fn methods(&mut self, alloc: Global, path: &[u8]) -> Result<Option<Allowed>, WebFault>
        ensures methods { MatchResult result (λ methods. methods ≡ methods_of path.now) (λ e. e ≡ NoMemory) }
        // Once the router is made it stays, and no memory is needed. It is made for any path that is text.
        ensures ready { IsSome self.old.router → result ≡ Ok (methods_of path.now) }
        ensures kept { IsSome self.old.router → IsSome self.new.router }
        ensures made { OnOk result (IsUtf8 path.now → IsSome self.new.router) }
    {
        let Ok(path) = str::from_utf8(path) else {
            return Ok(None);
        };
        self.make_router(alloc)?;
        Ok(find_methods(self.router(), path))
    }
}

/// The route of a method and a path, which is a target up to its first `?`. The first fault is told:
/// `NoRoute` where the desk has no such path, `NoMethod` where the path has other methods, and then, part by
/// part from left to right, `BadHolder` where the part that names the holder isn't a holder number, `BadMrn`
/// or `BadGrn` where the one that names a movement or a guarantee isn't its reference. `NoMemory` may take
/// the place of any answer.
pub fn route(alloc: Global, method: &Method, path: &[u8]) -> Result<Route, WebFault>
    ensures { OrNoMemory result (route_of method.now path.now) }
{
    Routes::new().route(alloc, method, path)
}
