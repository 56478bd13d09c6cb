//! Passes by rules over typed stores. One lemma: in a typed program, the deed at a node keeps stores typed, and so do
//! passes (`specs/Fits.antt`).

ghost use Rattle.bl_machine_pass_laws_typing.specs.Fits.{PassesKeepTypes};

use bl_ctree_laws_confluence::deeds::instances_have_callers;
use bl_ctree_laws_typing::views::views_are_typed;
use bl_machine_pass_laws::numbers::trees_stay_placed;

/// Turns and passes leave typed stores typed.
pub fn turns_fit()
    ensures { PassesKeepTypes }
{
    instances_have_callers();
    views_are_typed();
    trees_stay_placed();
}
