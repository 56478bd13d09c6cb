//! Truth as a number.

ghost use Rattle.std.specs.Prelude.{◌≡◌};
ghost use Rattle.bl_tree.specs.Numbers.{number_of};

pub(super) fn number(truth: bool) -> i128
    ensures { result ≡ number_of truth }
{
    if truth { 1 } else { 0 }
}
