//! Depths of parts that have a spelling. None stands for a part that has none, or is too deep to count.

ghost use Rattle.std.specs.Prelude.{ℕ, Bool, ◌+◌, ◌&&◌, max};
ghost use Rattle.bl_ctext_spelled.specs.Deep.{Spelled};

/// The depth of two parts that have no brackets around both.
pub fn deeper(one: Option<usize>, other: Option<usize>) -> Option<usize>
    ensures { (s t : Bool) (d e : ℕ) → Spelled s d one → Spelled t e other → Spelled (s && t) (max d e) result }
{
    match (one, other) {
        (Some(a), Some(b)) => Some(a.max(b)),
        (None, _) | (_, None) => None,
    }
}

/// The depth of a part with more brackets around it.
pub fn within(depth: Option<usize>, brackets: usize) -> Option<usize>
    ensures { (s : Bool) (d : ℕ) → Spelled s d depth → Spelled s (d + brackets) result }
{
    match depth {
        Some(inside) => inside.checked_add(brackets),
        None => None,
    }
}

/// The depth of something without brackets, by whether it has a spelling.
pub fn flat(spells: bool) -> Option<usize>
    ensures { Spelled spells 0 result }
{
    if spells { Some(0) } else { None }
}

/// A depth, where it is at least this.
pub fn at_least(depth: Option<usize>, least: usize) -> Option<usize>
    ensures { (s : Bool) (d : ℕ) → Spelled s d depth → Spelled s (max least d) result }
{
    match depth {
        Some(inside) => Some(least.max(inside)),
        None => None,
    }
}
