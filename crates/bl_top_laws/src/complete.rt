//! Calls in which nothing fails end as is due, as the contracts of functions that do nothing.

ghost use Rattle.bl_top_laws.specs.Complete.{CallsEndAsDue};
ghost use Rattle.bl_top_laws.specs.Driven.{DrivesEndAsDue, OthersHaveOtherShapes};

use bl_ctext_semantics_laws_places::bytes::bytes_behave_as_their_file;
use bl_link::laws::{files_have_one_end, parts_have_one_tree};
use bl_module_files::laws::{bad_faces_dont_stand, texts_decide_their_faces};
use bl_rules::laws::an_accepted_text_has_one_tree;
use bl_save::laws::one_memory;

/// A call in which no count of faults rises ends with the status that the contents of its files say, want of memory aside.
pub fn calls_end_as_due()
    ensures { CallsEndAsDue }
{
    an_accepted_text_has_one_tree();
    bytes_behave_as_their_file();
    one_memory();
    texts_decide_their_faces();
    bad_faces_dont_stand();
    files_have_one_end();
    parts_have_one_tree();
}

/// A call of `drive` in which no count of faults rises ends as its trace says where the plants agree and give no number outside
/// its range, and with PlantShape where they don't agree; want of memory aside.
pub fn drives_end_as_due()
    ensures due { DrivesEndAsDue }
    ensures others { OthersHaveOtherShapes }
{
    an_accepted_text_has_one_tree();
}
