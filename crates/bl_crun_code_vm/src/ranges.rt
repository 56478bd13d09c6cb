//! The ranges of the types without parts.

ghost use Rattle.std.specs.Prelude.{◌≡◌, ◌-◌, ◌≤◌, ◌^◌, ◌↔◌, IsTrue};
ghost use Rattle.bl_tree.specs.Scalar.{InRange, bits_of, in_range};
ghost use Rattle.bl_ctext_semantics.specs.Builtin.{in_c};
ghost use Rattle.bl_crun_code_vm.specs.inner.Ranges.{limit_of, whole_width};

use bl_tree::{Scalar, Width};

/// Whether the number is in the range of the type.
pub fn holds(t: Scalar, n: i128) -> bool
    ensures { result ≡ in_range t n }
{
    let range = t.range();
    range.low <= n && n <= range.high
}

/// Whether a number is in the range that a type has in C, where a bits type has that of the nat type of its width.
pub fn holds_in_c(t: Scalar, n: i128) -> bool
    ensures value { result ≡ in_range (in_c t) n }
    ensures fact { IsTrue result ↔ InRange t n }
{
    let range = t.range();
    range.low <= n && n <= range.high
}

/// A number below which the type has every natural number; 0 for bool.
#[inline(always)]
pub fn limit(t: Scalar) -> u64
    ensures value { result ≡ limit_of t }
    ensures few { result ≤ 2 ^ 63 }
{
    match t {
        Scalar::Bool => 0,
        Scalar::Int(width) => half(width),
        Scalar::Nat(width) | Scalar::Bits(width) => whole(width),
    }
}

/// Half of the numbers of a width.
#[inline(always)]
fn half(width: Width) -> u64
    ensures value { result ≡ 2 ^ (bits_of width - 1) }
    ensures few { result ≤ 2 ^ 63 }
{
    match width {
        Width::W8 => 0x80,
        Width::W16 => 0x8000,
        Width::W32 => 0x8000_0000,
        Width::W64 => 0x8000_0000_0000_0000,
    }
}

/// How many numbers a width has; half of them for the greatest one.
#[inline(always)]
fn whole(width: Width) -> u64
    ensures value { result ≡ whole_width width }
    ensures few { result ≤ 2 ^ 63 }
{
    match width {
        Width::W8 => 0x100,
        Width::W16 => 0x1_0000,
        Width::W32 => 0x1_0000_0000,
        Width::W64 => 0x8000_0000_0000_0000,
    }
}
