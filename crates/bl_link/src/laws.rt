//! Laws of linked parts and files, each the contract of a function that does nothing.

ghost use Rattle.std.specs.Prelude.{◌≡◌, ◌++◌, false, ℕ, List, length};
ghost use Rattle.bl_face.specs.declared.face.Face.{Face};
ghost use Rattle.bl_link.specs.declared.fault.LinkFault.{LinkFault};
ghost use Rattle.bl_link.specs.Files.{AreFilesOf, FailTogether, FailsAtFile};
ghost use Rattle.bl_link.specs.Fits.{PartsFit, faces_of, part_texts};
ghost use Rattle.bl_link.specs.Linked.{AreLinked, HaveTree, LinkStops};
ghost use Rattle.bl_link.specs.inner.Whole.{ArePartsOf};
ghost use Rattle.bl_module.specs.Faces.{items_of};
ghost use Rattle.bl_module.specs.Parts.{SeenPart};
ghost use Rattle.bl_module_laws.specs.Files.{AreGoodFiles};
ghost use Rattle.bl_parse_tree.specs.declared.raw.Raw.{Raw};
ghost use Rattle.bl_rules.specs.Rules.{TreePasses};
ghost use Rattle.bl_tree.specs.declared.place.Place.{Place};
ghost use Rattle.bl_tree.specs.declared.program.Program.{Program};
ghost use Rattle.bl_tree.specs.declared.rule.Rule.{Rule};
ghost use Rattle.bl_tree.specs.Rules.{tells_walk};

use bl_joined_laws::items::{joined_tokens_pass, joined_tokens_spell_joined_items};
use bl_joined_laws::tokens::joined_texts_have_joined_tokens;
use bl_lex::laws::tokens_are_one;
use bl_module::laws::{a_text_has_one_face, first_failing_is_one};
use bl_parse_laws::spelled::a_text_has_one_tree;

/// The joined texts of parts have one tree.
pub fn parts_have_one_tree()
    ensures some { (parts : List SeenPart) → ArePartsOf parts → (raw : Raw) × HaveTree (part_texts parts) raw }
    ensures one { (texts : List (List ℕ)) (raw other : Raw) → HaveTree texts raw → HaveTree texts other → raw ≡ other }
{
    joined_texts_have_joined_tokens();
    joined_tokens_spell_joined_items();
    joined_tokens_pass();
    tokens_are_one();
    a_text_has_one_tree();
}

/// Parts have one answer, want of memory aside: either they are linked, or one fault tells why they aren't. What is linked has one program.
pub fn parts_have_one_answer()
    ensures linked { (parts : List SeenPart) (raw : Raw) (fault : LinkFault) → PartsFit parts → HaveTree (part_texts parts) raw → TreePasses raw
        → LinkStops parts fault → fault ≡ LinkFault.NoMemory }
    ensures fault { (parts : List SeenPart) (fault other : LinkFault) → LinkStops parts fault → LinkStops parts other
        → ¬ (fault ≡ LinkFault.NoMemory) → ¬ (other ≡ LinkFault.NoMemory) → fault ≡ other }
    ensures program { (parts : List SeenPart) (one other : Program) → AreLinked parts one → AreLinked parts other
        → (one.structs ≡ other.structs) × ((one.units ≡ other.units) × (one.entry ≡ other.entry)) }
{
    tokens_are_one();
    a_text_has_one_tree();
}

/// Parts that fit are good files, each behind the faces of those before it.
pub fn parts_that_fit_are_good_files()
    ensures { (parts : List SeenPart) → ArePartsOf parts → PartsFit parts → AreGoodFiles (length parts) (part_texts parts) (faces_of parts) }
{}

/// Files end in one way: all are good and have a program; or a rule is the first that fails for one of them behind the faces of those before it,
/// at one place; or all are good, and a rule is the first that fails for the joined texts, at one place. Files behind the one that fails don't matter.
pub fn files_have_one_end()
    ensures faces { (count : ℕ) (texts : List (List ℕ)) (faces others : List Face) → AreGoodFiles count texts faces
        → AreGoodFiles count texts others → items_of faces ≡ items_of others }
    ensures good { (texts : List (List ℕ)) (faces : List Face) (file : ℕ) (rule : Rule) (place : Place) (also : List Place)
        → AreGoodFiles (length texts) texts faces → ¬ FailsAtFile (length texts) texts file rule place also }
    ensures file { (count : ℕ) (texts : List (List ℕ)) (file elsewhere : ℕ) (rule other : Rule) (place there : Place) (also further : List Place)
        → FailsAtFile count texts file rule place also → FailsAtFile count texts elsewhere other there further
        → (file ≡ elsewhere) × ((rule ≡ other) × (place ≡ there)) }
    ensures further { (count : ℕ) (texts : List (List ℕ)) (file elsewhere : ℕ) (rule other : Rule) (place there : Place) (also further : List Place)
        → FailsAtFile count texts file rule place also → FailsAtFile count texts elsewhere other there further
        → tells_walk rule ≡ false → also ≡ further }
    ensures more { (count : ℕ) (texts more : List (List ℕ)) (file : ℕ) (rule : Rule) (place : Place) (also : List Place)
        → FailsAtFile count texts file rule place also → FailsAtFile count (texts ++ more) file rule place also }
    ensures program { (texts : List (List ℕ)) (program : Program) (file : ℕ) (rule : Rule) (place : Place)
        → AreFilesOf texts program → ¬ FailTogether texts file rule place }
    ensures together { (texts : List (List ℕ)) (file elsewhere : ℕ) (rule other : Rule) (place there : Place)
        → FailTogether texts file rule place → FailTogether texts elsewhere other there
        → (file ≡ elsewhere) × ((rule ≡ other) × (place ≡ there)) }
{
    tokens_are_one();
    a_text_has_one_tree();
    a_text_has_one_face();
    first_failing_is_one();
}
