//! Laws of spelled files, each the contract of a function that does nothing.

ghost use Rattle.std.specs.Prelude.{◌≡◌, true, List};
ghost use Rattle.bl_tree.specs.declared.c.CStruct.{CStruct};
ghost use Rattle.bl_tree.specs.declared.c.CFunc.{CFunc};
ghost use Rattle.bl_ctext.specs.Spelling.{tokens_of};
ghost use Rattle.bl_ctext.specs.Spellable.{is_spellable};
ghost use Rattle.bl_cparse_syntax.specs.Grammar.{SpellText};

/// The tokens of a file that has a spelling are a text of the grammar.
pub fn a_spelled_file_derives()
    ensures { (structs : List CStruct) (funcs : List CFunc) → is_spellable structs funcs ≡ true → SpellText (tokens_of structs funcs) }
{}
