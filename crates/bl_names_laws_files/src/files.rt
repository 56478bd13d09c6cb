//! The law of one file among several.

ghost use Rattle.bl_names_laws_files.specs.Laws.{FileNamed};

use bl_names_laws_places::items::names_agree;

/// A file is named behind the items of others as behind a start whose scope corresponds to theirs, up to places and positions of constants.
pub fn file_named()
    ensures { FileNamed }
{
    names_agree();
}
