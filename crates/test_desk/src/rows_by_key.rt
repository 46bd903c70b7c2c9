//! Rows found at a concrete type.
ghost use Rattle.keyed_rows.specs.Rows.{Rises};

use keyed_rows::{Keyed, find_row, rows_below};

/// A row that is its own number.
#[derive(Clone, Copy, Debug, PartialEq, Eq)]
struct Number(u32);

impl Keyed for Number {
    ghost key_of = { λ n. n.0 };

    fn key(&self) -> u32 {
        self.0
    }
}

// So many rows are below the number, and it has a row or none.
fn stands(rows: &[Number], key: u32, below: usize, found: bool) -> bool
    requires { Rises (λ n. n.0) 0 rows.now }
{
    rows_below(rows, key) == below && find_row(rows, key).is_some() == found
}

#[test]
fn rows_are_found_by_their_numbers(rt: HostRuntime) {
    let rows = [Number(2), Number(5), Number(9)];
    assert!(rt; stands(&rows, 0, 0, false));
    assert!(rt; stands(&rows, 2, 0, true));
    assert!(rt; stands(&rows, 3, 1, false));
    assert!(rt; stands(&rows, 9, 2, true));
    assert!(rt; stands(&rows, 10, 3, false));
}
