//! Which places surely have nothing in common.

ghost use Rattle.std.specs.Prelude.{◌≡◌};
ghost use Rattle.bl_simplify_laws.specs.Spots.{firsts_differ as differ, is_own as own, spot_of_place, spots_apart};
ghost use Rattle.bl_simplify_calls.specs.Firsts.{first_member};

use bl_tree::c::{CPlace, CStep};

/// Whether a pointer of this name is its function's own.
pub fn is_own(name: &str) -> bool
    ensures { result ≡ own name.now }
{
    name == "f" || name == "s"
}

/// Whether the steps begin with two members that differ.
fn firsts_differ(one: &[CStep], other: &[CStep]) -> bool
    ensures { result ≡ differ (first_member one.now) (first_member other.now) }
{
    match (one, other) {
        ([a, ..], [b, ..]) => a.member.as_str() != b.member.as_str(),
        _ => false,
    }
}

/// Whether two places lie in spots that surely have nothing in common.
pub fn are_apart(one: &CPlace, other: &CPlace) -> bool
    ensures { result ≡ spots_apart (spot_of_place one.now) (spot_of_place other.now) }
{
    if one.name.as_str() == other.name.as_str() {
        one.through == other.through && firsts_differ(&one.steps, &other.steps)
    } else {
        !(one.through && other.through) || is_own(&one.name) || is_own(&other.name)
    }
}
