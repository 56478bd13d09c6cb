//! Tables of what is known of structs and units, by their positions.

ghost use Rattle.std.specs.Prelude.{◌≡◌, slice_index};
ghost use Rattle.bl_limits_measures.specs.Saturated.{saturated};
ghost use Rattle.bl_limits_measures.specs.Units.{greatest_at, total_at};

/// What is known at the position, and 0 where there is none.
pub fn at(known: &[u64], position: u32) -> u64
    ensures { result ≡ slice_index known.now position }
{
    known.get(position as usize).copied().unwrap_or(0)
}

/// The sum of what is known at the positions.
pub fn total_at(known: &[u64], positions: &[u32]) -> u64
    ensures { result ≡ saturated (total_at known.now positions.now) }
{
    let mut sum = 0u64;
    for position in positions {
        sum = sum.saturating_add(at(known, *position));
    }
    sum
}

/// The greatest of what is known at the positions, and 0 for none.
pub fn greatest_at(known: &[u64], positions: &[u32]) -> u64
    ensures { result ≡ greatest_at known.now positions.now }
{
    let mut most = 0u64;
    for position in positions {
        most = most.max(at(known, *position));
    }
    most
}
