//! The law of saved states and of what goes on from them.

ghost use Rattle.bl_top_commands.specs.Resumed.{
  FurtherSavesLeaveStates,
  ResumesShowTheRest,
  SavedStatesAreTaken,
  SavesLeaveStates,
  StatesGoOnAsMeant,
  StatesGoOnAsTheirSource,
};

use bl_ctext_semantics_laws_places::bytes::bytes_behave_as_their_file;
use bl_rows_stream::laws::{rows_of_bytes_fit, rows_of_lines_fit};
use bl_save_laws::{state_goes_on, states_are_short};

/// A text that was built of a source may be saved after some rows, and resumed over further ones: both together are the
/// one trace of the source's program over all the rows. So they are where the state was saved in several steps. A state
/// that was saved of a text, whatever its source, is never rejected for it.
pub fn saved_states_go_on_as_their_source()
    ensures meaning { StatesGoOnAsMeant }
    ensures source { StatesGoOnAsTheirSource }
    ensures saved { SavesLeaveStates }
    ensures saved_further { FurtherSavesLeaveStates }
    ensures taken { SavedStatesAreTaken }
    ensures resumed { ResumesShowTheRest }
{
    bytes_behave_as_their_file();
    state_goes_on();
    states_are_short();
    rows_of_bytes_fit();
    rows_of_lines_fit();
}
