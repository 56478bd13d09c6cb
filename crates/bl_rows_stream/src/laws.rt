//! Laws of rows, each the contract of a function that does nothing.

ghost use Rattle.std.specs.Prelude.{ℕ, List};
ghost use Rattle.bl_rows.specs.Reading.{empty_reading, rows_in, rows_of};
ghost use Rattle.bl_tree.specs.Ports.{RowsFit};
ghost use Rattle.bl_tree.specs.declared.row.Column.{Column};

/// The rows of bytes have a number for each column, in the range of its type.
pub fn rows_of_bytes_fit()
    ensures { (bytes : List ℕ) (columns : List Column) → RowsFit columns (rows_of bytes columns).rows }
{}

/// And so have those of the lines that are whole.
pub fn rows_of_lines_fit()
    ensures { (bytes : List ℕ) (columns : List Column) → RowsFit columns (rows_in (empty_reading columns) bytes) }
{}
