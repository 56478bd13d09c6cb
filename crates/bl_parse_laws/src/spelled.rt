//! Laws of spelled trees, each the contract of a function that does nothing.

ghost use Rattle.std.specs.Prelude.{◌≡◌, ℕ, List};
ghost use Rattle.bl_tree.specs.declared.token.Token.{Token};
ghost use Rattle.bl_parse_syntax.specs.Rules.{SpellsProgram};
ghost use Rattle.bl_parse_tree.specs.declared.raw.Raw.{Raw};
ghost use Rattle.bl_parse.specs.Programs.{Spells};

/// Tokens that spell a tree spell a program of the grammar.
pub fn what_is_spelled_is_a_program()
    ensures { (text : List ℕ) (tokens : List Token) (raw : Raw) → Spells text tokens raw → SpellsProgram tokens }
{}

/// A text with its tokens spells at most one tree.
pub fn a_text_has_one_tree()
    ensures { (text : List ℕ) (tokens : List Token) (raw other : Raw) → Spells text tokens raw → Spells text tokens other → raw ≡ other }
{}
