//! Elements of lists by their positions.

ghost use Rattle.std.specs.Prelude.{◌≡◌, option_map, slice_get};

/// The element at the position, where there is one.
#[tactic(auto, using(std::proofs::lemmas::Option::gets))]
pub fn element<T>(items: &[T], k: usize) -> Option<&T>
    ensures { option_map (λ x. x.now) result ≡ slice_get items.now k }
{
    if k < items.len() {
        Some(&items[k])
    } else {
        None
    }
}
