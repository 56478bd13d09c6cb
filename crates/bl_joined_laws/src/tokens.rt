//! Laws of the tokens of joined texts.

ghost use Rattle.std.specs.Prelude.{List, All};
ghost use Rattle.bl_lex.specs.Tokens.{Lexes};
ghost use Rattle.bl_joined.specs.Texts.{LexedText, joined_text, joined_tokens, texts_of};

/// The joined text has the tokens of each text, moved to where it stands.
pub fn joined_texts_have_joined_tokens()
    ensures { (files : List LexedText) → All (λ file. Lexes file.text file.tokens) files → Lexes (joined_text (texts_of files)) (joined_tokens files) }
{}
