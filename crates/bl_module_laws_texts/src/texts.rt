//! What fails for a joined text.

ghost use Rattle.bl_module_laws_texts.specs.Laws.{GoodFilesFailLimitsAlone, JoinedTextsParse, JoinedTokensPass, OnlySizeFails};

use bl_joined_laws::items::{joined_tokens_pass, joined_tokens_spell_joined_items};
use bl_joined_laws::tokens::joined_texts_have_joined_tokens;
use bl_lex::laws::tokens_are_one;
use bl_module_laws::files::files_are_the_whole;
use bl_parse_syntax::laws::first_failure_is_one;

/// Texts that keep the rules from Size to Syntax, each by itself, keep all of these but Size together, and have a tree.
pub fn joined_texts_keep_the_rules()
    ensures bytes { OnlySizeFails }
    ensures tokens { JoinedTokensPass }
    ensures tree { JoinedTextsParse }
{
    tokens_are_one();
    first_failure_is_one();
    joined_texts_have_joined_tokens();
    joined_tokens_pass();
    joined_tokens_spell_joined_items();
}

/// For the joined text of good files no rule but Size, Frames and Cells fails.
pub fn good_files_fail_limits_alone()
    ensures { GoodFilesFailLimitsAlone }
{
    joined_texts_keep_the_rules();
    files_are_the_whole();
}
