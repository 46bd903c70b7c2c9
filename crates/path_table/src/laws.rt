//! What holds of the look-up in any table. There is nothing to call: the contract is the law.
ghost use Rattle.std.specs.Prelude.{ℕ, List, IsTrue};
ghost use Rattle.path_table.specs.Sound.{is_sound};
ghost use Rattle.path_table.specs.Routers.{IsBytes, FindsRow};

/// A table finds what `matchit` finds: of patterns that are plain and of which no path fits two different ones, its router
/// with each pattern once, in their order, has a route for a path exactly where the path fits a pattern; that route is the one of
/// the first such row, and it takes the same parts.
pub fn rows_are_found_as_by_matchit()
    ensures { (patterns : List (List ℕ)) (path : List ℕ) → IsTrue (is_sound patterns) → IsBytes path
        → FindsRow (λ pattern. pattern) patterns path }
{}
