//! Tests without branches, and the first of places.

ghost use Rattle.std.specs.Prelude.{◌≡◌, ◌&&◌, ◌||◌};
ghost use Rattle.bl_ctext_semantics.specs.Faults.{Clause, earlier_of, first_place, unless as fails_unless};

use bl_tree::Place;

/// The first of two places: the one that starts first, and of two that start together the one that ends first.
pub fn earlier(a: Option<Place>, b: Option<Place>) -> Option<Place>
    ensures { result ≡ earlier_of a b }
{
    match (a, b) {
        (None, b) => b,
        (a, None) => a,
        (Some(a), Some(b)) => {
            if a.start < b.start || (a.start == b.start && a.end <= b.end) {
                Some(a)
            } else {
                Some(b)
            }
        }
    }
}

/// The place, unless the test holds.
pub fn unless(holds: bool, at: Place) -> Option<Place>
    ensures { (clause : Clause) → result ≡ first_place (fails_unless holds clause at) }
{
    if holds { None } else { Some(at) }
}

pub fn both(a: bool, b: bool) -> bool
    ensures { result ≡ (a && b) }
{
    a && b
}

pub fn either(a: bool, b: bool) -> bool
    ensures { result ≡ (a || b) }
{
    a || b
}
