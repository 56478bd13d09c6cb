//! Cells and temporaries, one at a time.

ghost use Rattle.std.specs.Prelude.{◌≡◌, slice_set};
ghost use Rattle.bl_ctext_semantics_laws.specs.Flat.{cell_at};

/// What a cell has; 0 behind the last.
#[inline(always)]
pub fn get(cells: &[i128], k: usize) -> i128
    ensures { result ≡ cell_at cells.now k }
{
    if k < cells.len() {
        cells[k]
    } else {
        beyond(cells, k)
    }
}

/// What any cell has, for the rare one behind the last: 0.
#[cold]
#[inline(never)]
fn beyond(cells: &[i128], k: usize) -> i128
    ensures { result ≡ cell_at cells.now k }
{
    match cells.get(k) {
        Some(n) => *n,
        None => 0,
    }
}

/// Sets a cell, where there is one.
#[inline(always)]
pub fn set(cells: &mut [i128], k: usize, n: i128)
    ensures { cells.new ≡ slice_set cells.old k n }
{
    if k < cells.len() {
        cells[k] = n;
    }
}
