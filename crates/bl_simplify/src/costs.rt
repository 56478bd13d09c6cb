//! Whether costs of functions have grown.

ghost use Rattle.std.specs.Prelude.{◌≡◌, true};
ghost use Rattle.bl_simplify.specs.Simplified.{NoDearer, NoneDearer};

use bl_bound::Cost;

/// Whether a cost is no greater than another one.
fn is_no_dearer(new: Cost, old: Cost) -> bool
    ensures { result ≡ true → NoDearer new old }
{
    match (new, old) {
        (_, Cost::Over) => true,
        (Cost::Over, Cost::Number(_)) => false,
        (Cost::Number(new), Cost::Number(old)) => new <= old,
    }
}

/// Whether no cost is greater than the one that stands there in the other list.
pub fn are_no_dearer(new: &[Cost], old: &[Cost]) -> bool
    ensures { result ≡ true → NoneDearer new.now old.now }
{
    if new.len() != old.len() {
        return false;
    }
    let mut kept = true;
    for k in 0..new.len() {
        kept &= is_no_dearer(new[k], old[k]);
    }
    kept
}
