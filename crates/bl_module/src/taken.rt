//! Which file of a program a text is judged as.

ghost use Rattle.std.specs.Prelude.{◌≡◌};
ghost use Rattle.std.specs.List.{list_any};
ghost use Rattle.bl_module.specs.Rules.{is_last, is_marked};

use bl_parse_tree::Raw;
use bl_parse_tree::item::RawItem;

/// Whether a text is judged as the last file of its program. That one has the entry point, and no other has one.
#[derive(Clone, Copy, PartialEq, Eq, Debug)]
pub enum Taken {
    /// As the last file, or as an earlier one.
    AsLast(bool),
    /// As the last file exactly where a unit has the mark of an entry point.
    AsMarked,
}

/// Whether the tree is judged as that of the last file.
pub fn is_last(taken: Taken, raw: &Raw) -> bool
    ensures { result ≡ is_last taken raw.now }
{
    match taken {
        Taken::AsLast(last) => last,
        Taken::AsMarked => has_mark(&raw.items),
    }
}

/// Whether one of the items is a unit with the mark of an entry point.
pub fn has_mark(items: &[RawItem]) -> bool
    ensures { result ≡ list_any is_marked items.now }
{
    for item in items {
        if is_marked(item) {
            return true;
        }
    }
    false
}

fn is_marked(item: &RawItem) -> bool
    ensures { result ≡ is_marked item.now }
{
    match item {
        RawItem::Unit(unit) => unit.entry,
        RawItem::Struct(_) | RawItem::Constant(_) => false,
    }
}
