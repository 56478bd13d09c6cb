//! Which rows are inputs.

ghost use Rattle.std.specs.Prelude.{◌≡◌};
ghost use Rattle.bl_tree.specs.Scalar.{in_range};
ghost use Rattle.bl_tree.specs.Ports.{row_fits};

use bl_tree::{Column, Row, Scalar};

fn fits(kind: Scalar, n: i128) -> bool
    ensures { result ≡ in_range kind n }
{
    let range = kind.range();
    range.low <= n && n <= range.high
}

/// Whether a row has a number for each column, in the range of its type.
pub fn fit_all(columns: &[Column], row: &Row) -> bool
    ensures { result ≡ row_fits columns.now row.now }
{
    if columns.len() != row.len() as usize {
        return false;
    }
    for k in 0..row.len() {
        if !fits(columns[k as usize].ty, row.at(k)) {
            return false;
        }
    }
    true
}
