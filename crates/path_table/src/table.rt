//! The table.
ghost use Rattle.std.specs.Prelude.{ℕ, List, ◌≡◌, map, find, option_map, bytes_eq, IsTrue, IfOk, IfSome};
ghost use Rattle.std.specs.List.{list_any};
ghost use Rattle.path_table.specs.Routers.{router_for};
ghost use Rattle.path_table.specs.Segments.{fits, parts_of};
ghost use Rattle.path_table.specs.Sound.{is_sound};

use crate::parts::Parts;
use matchit::{InsertError, Router};
use std::alloc::{AllocError, Global};

/// A row of a table.
pub trait Row {
    ghost pattern: { Self → List ℕ };

    /// The pattern of the row's paths, for example `/books/{title}`. Rows may have the same.
    fn pattern(&self) -> &str
        ensures { result.now ≡ pattern self.now };
}

/// Rows, and the row whose pattern a path fits.
#[derive(Drop)]
pub struct PathTable<'t, R: Row> {
    /// The rows, in their order.
    pub rows: &'t [R],
    router: Router<usize>,
    ghost sound: { IsTrue (is_sound (map R.pattern rows.now)) },
    ghost of_rows: { router ≡ router_for R.pattern rows.now },
}

/// The row that a path fits.
#[derive(Drop)]
pub struct Found<'t, 'p, R> {
    /// The first row with the pattern.
    pub row: &'t R,
    /// The parts of the path.
    pub parts: Parts<'t, 'p>,
}

// Whether one of these rows has the pattern.
fn is_earlier<R: Row>(rows: &[R], pattern: &str) -> bool
    ensures { result ≡ list_any (λ row. bytes_eq (R.pattern row) pattern.now) rows.now }
{
    rows.iter().any(|row| row.pattern() == pattern)
}

// The router of these rows: each pattern once, with the place of its first row. Where the patterns are plain
// and no path fits two, it only fails for want of memory.
fn router_of<R: Row>(alloc: Global, rows: &[R]) -> Result<Router<usize>, InsertError>
    ensures { IfOk result (λ router. router ≡ router_for R.pattern rows.now) }
{
    let mut router = Router::new(alloc);
    for (place, row) in rows.iter().enumerate() {
        let pattern = row.pattern();
        if !is_earlier(&rows[..place], pattern) {
            router.insert(pattern, place)?;
        }
    }
    Ok(router)
}

impl<'t, R: Row> PathTable<'t, R> {
    /// A table of these rows. Their patterns are plain (at most 1,000 bytes, and each segment of ASCII
    /// characters other than `*`, `{` and `}`, or a name of such characters in braces), and no path fits two
    /// different ones. `AllocError`: want of memory.
    pub fn new(alloc: Global, rows: &'t [R]) -> Result<PathTable<'t, R>, AllocError>
        requires { IsTrue (is_sound (map R.pattern rows.now)) }
        ensures { IfOk result (λ table. table.rows.now ≡ rows.now) }
    {
        match router_of(alloc, rows) {
            Ok(router) => Ok(PathTable { rows, router }),
            Err(_) => Err(AllocError),
        }
    }

    /// The first row whose pattern the path fits, and the parts of the path: `None` where it fits none.
    pub fn find<'a, 'p>(&'a self, path: &'p str) -> Option<Found<'a, 'p, R>>
        ensures row { option_map (λ found. found.row.now) result
            ≡ find (λ row. fits (R.pattern row) path.now) self.now.rows.now }
        ensures parts { IfSome result
            (λ found. found.parts ≡ parts_of (R.pattern found.row.now) path.now) }
    {
        match self.router.at(path) {
            Ok(found) => {
                let parts = Parts::of(found.params);
                let row = self.rows.get(*found.value)?;
                Some(Found { row, parts })
            }
            Err(_) => None,
        }
    }
}
