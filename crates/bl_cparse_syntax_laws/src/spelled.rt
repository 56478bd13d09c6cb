//! Laws of spelled files, each the contract of a function that does nothing.

ghost use Rattle.std.specs.Prelude.{◌≡◌, ℕ, List, ◌++◌, length};
ghost use Rattle.bl_ctext.specs.Prelude.{prelude};
ghost use Rattle.bl_ctext.specs.Token.{Token, SpacedC};
ghost use Rattle.bl_ctext.specs.SpellsC.{SpellsC};
ghost use Rattle.bl_ctext.specs.declared.file.CFile.{CFile};
ghost use Rattle.bl_cparse_syntax.specs.Pieces.{pieces};
ghost use Rattle.bl_cparse_syntax.specs.Rules.{Passes};
ghost use Rattle.bl_cparse_syntax_laws.specs.Placeless.{SameButPlaces};

/// Bytes that are spaced into tokens are cut into just these, so they are spaced in one way.
pub fn tokens_are_pieces()
    ensures cut { (tokens : List Token) (text : List ℕ) → SpacedC tokens text → pieces text ≡ tokens }
    ensures one { (tokens others : List Token) (text : List ℕ) → SpacedC tokens text → SpacedC others text → tokens ≡ others }
{}

/// Bytes spell at most one file, if the places that its parts have are left aside.
pub fn bytes_spell_one_file()
    ensures { (file other : CFile) (bytes : List ℕ) → SpellsC file bytes → SpellsC other bytes → SameButPlaces file other }
{}

/// Bytes that begin with the prelude spell a file exactly where what stands behind it is a text of the grammar.
pub fn what_passes_is_spelled()
    ensures spelled { (bytes rest : List ℕ) → bytes ≡ prelude ++ rest → Passes bytes (length prelude) → (file : CFile) × SpellsC file bytes }
    ensures passes { (file : CFile) (bytes : List ℕ) → SpellsC file bytes → Passes bytes (length prelude) }
{}
