//! Whether a text is a tree by itself.

ghost use Rattle.std.specs.Prelude.{◌≡◌, false, IfSome, IsTrue};
ghost use Rattle.std.specs.List.{list_any};
ghost use Rattle.bl_link_together.specs.Alone.{IsTreeAlone, StandsAlone};
ghost use Rattle.bl_module.specs.Rules.{is_marked};

use bl_lex::laws::tokens_are_one;
use bl_module::has_mark;
use bl_parse_laws::spelled::a_text_has_one_tree;
use bl_parse_tree::Raw;
use std::alloc::Global;

/// Whether the text keeps the rules from Size to Syntax by itself, and has the mark of an entry point only as the last file. It may be
/// false where memory is refused.
pub fn stands_alone(alloc: Global, text: &[u8], last: bool) -> bool
    ensures { IsTrue result → StandsAlone last text.now }
{
    tokens_are_one();
    a_text_has_one_tree();
    match tree_alone(alloc, text) {
        Some(raw) => may_stand(last, &raw),
        None => false,
    }
}

/// Whether the tree is that of the last file, or has no mark of an entry point.
fn may_stand(last: bool, raw: &Raw) -> bool
    ensures { IsTrue result → last ≡ false → list_any is_marked raw.now.items ≡ false }
{
    if last {
        return true;
    }
    !has_mark(&raw.items)
}

/// The tree of the text, where it keeps these rules.
fn tree_alone(alloc: Global, text: &[u8]) -> Option<Raw>
    ensures { IfSome result (IsTreeAlone text.now) }
{
    let tokens = match bl_lex::lex(alloc, text) {
        Ok(tokens) => tokens,
        Err(_) => return None,
    };
    match bl_parse::parse(alloc, text, &tokens) {
        Ok(raw) => Some(raw),
        Err(_) => None,
    }
}
