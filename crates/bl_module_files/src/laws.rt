//! Laws of files whose texts are told, each the contract of a function that does nothing.

ghost use Rattle.bl_module_files.specs.Told.{BadFacesDontStand, FirstToldTextsAreRead, FrontsFailAsWholes, FrontsThatPassAreWhole, SpelledFacesAreTaken};
ghost use Rattle.bl_module_files.specs.Told.{TextsHaveOneFaceEach, ToldFilesAreRead, ToldFilesHaveATextEach, ToldTextsAreRead};

use bl_face::laws::a_text_has_one_face;
use bl_lex::laws::{fronts_are_one, whole_fronts_are_lexed};

/// The texts of files decide whether each interface file is a face, and which items the faces have.
pub fn texts_decide_their_faces()
    ensures texts { ToldTextsAreRead }
    ensures first { FirstToldTextsAreRead }
    ensures count { ToldFilesHaveATextEach }
    ensures read { ToldFilesAreRead }
    ensures taken { SpelledFacesAreTaken }
    ensures one { TextsHaveOneFaceEach }
{
    a_text_has_one_face();
    fronts_are_one();
    whole_fronts_are_lexed();
}

/// Faces of which one can't stand behind those before it don't stand.
pub fn bad_faces_dont_stand()
    ensures { BadFacesDontStand }
{}

/// What is judged of the front that is read of a text holds of the whole text.
pub fn fronts_are_judged_as_wholes()
    ensures fails { FrontsFailAsWholes }
    ensures passes { FrontsThatPassAreWhole }
{}
