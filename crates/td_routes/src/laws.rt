//! What holds of the desk's paths. There is nothing to call: the contract is the law.
ghost use Rattle.std.specs.Prelude.{ℕ, List};
ghost use Rattle.path_table.specs.Routers.{IsBytes, FindsRow};
ghost use Rattle.td_routes.specs.Routes.{table};

/// The desk's paths are those that `matchit` finds: its router with each path of the table once, in the table's order, has
/// a route for a path exactly where the path fits a row, the first such row, and it takes the same parts.
pub fn paths_are_found_as_by_matchit()
    ensures { (path : List ℕ) → IsBytes path → FindsRow (λ row. row.path) table path }
{}
