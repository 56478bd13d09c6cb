//! Laws of the call, each the contract of a function that does nothing.

ghost use Rattle.bl_top.specs.Laws.{BuiltTextsAreRejectedForLength, BuiltTextsAreRun, BuiltTextsHaveCourses, BuiltTextsRunAsTheirSource};
ghost use Rattle.bl_top.specs.Laws.{SourcesRunInOneWay};

use bl_ctext_semantics_laws_places::bytes::bytes_behave_as_their_file;
use bl_rows_stream::laws::{rows_of_bytes_fit, rows_of_lines_fit};
use bl_rules::laws::an_accepted_text_has_one_tree;

/// What is run of a text that was built has the one trace of the program that it was built of. The text is rejected for
/// its length alone, or for want of memory; so `exec` of one that isn't too long runs it.
pub fn a_built_text_runs_as_its_source()
    ensures parts { BuiltTextsHaveCourses }
    ensures source { BuiltTextsRunAsTheirSource }
    ensures rejected { BuiltTextsAreRejectedForLength }
    ensures ends { BuiltTextsAreRun }
{
    bytes_behave_as_their_file();
    rows_of_bytes_fit();
    rows_of_lines_fit();
}

/// A source is run in one way: a run ends by each course that runs the source as it ends by one.
pub fn a_source_runs_in_one_way()
    ensures { SourcesRunInOneWay }
{
    an_accepted_text_has_one_tree();
}
