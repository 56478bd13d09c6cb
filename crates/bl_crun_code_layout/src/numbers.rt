//! Numbers of cells and positions.

ghost use Rattle.std.specs.Prelude.{◌≡◌, ◌+◌, IfOk, suc};
ghost use Rattle.bl_ctext_semantics_laws.specs.Layout.{capped};

use bl_tree::NoMemory;

/// The greatest number of a cell.
const CAP: usize = 4_294_967_295;

/// A number as an operand has it. Code that needs a greater one doesn't fit in memory.
pub fn small(n: usize) -> Result<u32, NoMemory>
    ensures { IfOk result (λ k. k ≡ n) }
{
    match u32::try_from(n) {
        Ok(k) => Ok(k),
        Err(_) => Err(NoMemory),
    }
}

/// So much more than a number. Code that needs a greater one than an operand has doesn't fit in memory.
pub fn more(n: u32, by: usize) -> Result<u32, NoMemory>
    ensures { IfOk result (λ k. k ≡ by + n) }
{
    match by.checked_add(n as usize) {
        Some(sum) => small(sum),
        None => Err(NoMemory),
    }
}

/// The next number. Code that needs a greater one than an operand has doesn't fit in memory.
pub fn next(n: u32) -> Result<u32, NoMemory>
    ensures { IfOk result (λ k. k ≡ suc n) }
{
    match n.checked_add(1) {
        Some(sum) => Ok(sum),
        None => Err(NoMemory),
    }
}

/// The number of a cell so many cells behind another.
pub fn behind(at: usize, cells: usize) -> usize
    ensures { result ≡ capped (at + cells) }
{
    at.saturating_add(cells).min(CAP)
}
