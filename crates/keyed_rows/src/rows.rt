//! Where a row stands among rows in order, or would stand.
ghost use Rattle.std.specs.Prelude.{◌≡◌, ℕ, ◌≤◌, length, take_while, nat_lt, option_map};
ghost use Rattle.keyed_rows.specs.Rows.{Rises, row_at};

/// A row that stands under a number.
pub trait Keyed {
    /// The number.
    ghost key_of: { Self → ℕ };

    /// The number under which the row stands.
    fn key(&self) -> u32
        ensures { result ≡ key_of self.now };
}

/// How many of the rows stand under smaller keys: the place of this key's row.
pub fn rows_below<R: Keyed>(rows: &[R], key: u32) -> usize
    requires { Rises R.key_of 0 rows.now }
    ensures value { result ≡ length (take_while (λ row. nat_lt (R.key_of row) key) rows.now) }
    ensures bound { result ≤ length rows.now }
{
    rows.partition_point(|row| row.key() < key)
}

/// The row under this key, if there is one.
pub fn find_row<R: Keyed>(rows: &[R], key: u32) -> Option<&R>
    requires { Rises R.key_of 0 rows.now }
    ensures { option_map (λ row. row.now) result ≡ row_at R.key_of key rows.now }
{
    let row = rows.get(rows_below(rows, key))?;
    if row.key() != key {
        return None;
    }
    Some(row)
}
