//! Raw trees with what they keep.

ghost use Rattle.bl_parse_tree.specs.WellFormed.{RawIsWellFormed};

use bl_parse_tree::Raw;

/// A source program as it is written, which keeps what each tree does that a text spells.
#[derive(Drop)]
pub struct WellFormedTree {
    pub raw: Raw,
    pub ghost well_formed: { RawIsWellFormed raw.items },
}
