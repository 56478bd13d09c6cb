//! Laws of the items and the depth of joined texts.

ghost use Rattle.std.specs.Prelude.{List, All, length};
ghost use Rattle.bl_parse.specs.Programs.{SpellsItems};
ghost use Rattle.bl_parse_syntax.specs.Rules.{Passes, PassesDepth};
ghost use Rattle.bl_joined.specs.Texts.{joined_text, joined_tokens, texts_of};
ghost use Rattle.bl_joined_laws.specs.Items.{IsRead, ReadText, all_lexed, joined_items};

/// The joined tokens spell the items of each text, moved to where it stands.
pub fn joined_tokens_spell_joined_items()
    ensures { (files : List ReadText) → All IsRead files
        → SpellsItems (joined_text (texts_of (all_lexed files))) (joined_tokens (all_lexed files)) (joined_items files) 0
        (length (joined_tokens (all_lexed files))) }
{}

/// The joined tokens keep the rules Depth and Syntax, if those of each text do.
pub fn joined_tokens_pass()
    ensures { (files : List ReadText) → All IsRead files → All (λ file. PassesDepth file.tokens) files → Passes (joined_tokens (all_lexed files)) }
{}
