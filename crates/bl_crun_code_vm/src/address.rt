//! Numbers of cells.

ghost use Rattle.std.specs.Prelude.{◌≡◌, ◌+◌, pos};
ghost use Rattle.bl_ctext_semantics_laws.specs.Flat.{cell_at, cell_number};
ghost use Rattle.bl_ctext_semantics_laws.specs.Layout.{capped};
ghost use Rattle.bl_crun_code.specs.Vm.{element};

use crate::cells;

/// The number, or the greatest that a cell can have.
fn capped(cell: u64) -> u32
    ensures { result ≡ capped cell }
{
    if cell > 0xffff_ffff {
        0xffff_ffff
    } else {
        cell as u32
    }
}

/// The number of the cell so far behind another one.
#[inline(always)]
pub fn behind(cell: u32, k: u32) -> u32
    ensures { result ≡ capped (cell + k) }
{
    cell.saturating_add(k)
}

/// The cell that the first cell of a frame tells.
#[inline(always)]
pub fn first(base: u32, cells: &[i128]) -> u32
    ensures { result ≡ cell_number (cell_at cells.now base) }
{
    cell(cells::get(cells, base as usize))
}

/// The cell that the first cell of a frame tells, for callers that ask it rarely.
#[cold]
#[inline(never)]
pub fn first_again(base: u32, cells: &[i128]) -> u32
    ensures { result ≡ cell_number (cell_at cells.now base) }
{
    first(base, cells)
}

/// The cell whose number stands so far behind a base.
#[inline(always)]
pub fn led_to(base: u32, cells: &[i128], p: u32) -> u32
    ensures { result ≡ cell_number (cell_at cells.now (base + p)) }
{
    cell(cells::get(cells, base as usize + p as usize))
}

/// The cell that a number tells; the first for a number below 0.
#[inline(always)]
pub fn cell(n: i128) -> u32
    ensures { result ≡ cell_number n }
{
    if 0 <= n && n <= 0xffff_ffff {
        n as u32
    } else {
        nearest(n)
    }
}

/// The cell that any number tells: the first below 0, and the last above all cells.
#[cold]
#[inline(never)]
fn nearest(n: i128) -> u32
    ensures { result ≡ cell_number n }
{
    if n < 0 {
        0
    } else if n > 0xffff_ffff {
        0xffff_ffff
    } else {
        n as u32
    }
}

/// The first cell of an element of an array that begins at `at`, and `None` outside of it.
#[inline(always)]
pub fn element(length: u32, size: u32, at: i128, i: i128) -> Option<i128>
    ensures { result ≡ element length size at i }
{
    if i < 0 || i >= i128::from(length) {
        return None;
    }
    let behind = u64::from(cell(i)).saturating_mul(u64::from(size));
    Some(i128::from(capped(u64::from(cell(at)).saturating_add(behind))))
}
