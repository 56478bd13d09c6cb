//! Types of counters.

ghost use Rattle.std.specs.Prelude.{◌≡◌};
ghost use Rattle.bl_emit_spec.specs.Blocks as blocks;

use bl_tree::slices::element;
use bl_tree::{Scalar, Width};

/// The narrowest unsigned type for a counter of so many values beside 0.
fn type_for(count: u32) -> Scalar
    ensures { result ≡ blocks.type_for count }
{
    if count <= 255 {
        Scalar::Nat(Width::W8)
    } else if count <= 65535 {
        Scalar::Nat(Width::W16)
    } else {
        Scalar::Nat(Width::W32)
    }
}

/// The type of a counter.
pub fn counter_type(sizes: &[u32], k: u32) -> Scalar
    ensures { result ≡ blocks.counter_type sizes.now k }
{
    match element(sizes, k as usize) {
        Some(count) => type_for(*count),
        None => type_for(0),
    }
}
