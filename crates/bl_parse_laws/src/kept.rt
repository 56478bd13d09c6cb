//! Laws of spelled trees, each the contract of a function that does nothing.

ghost use Rattle.std.specs.Prelude.{ℕ, List, IsTrue};
ghost use Rattle.std.specs.List.{list_all};
ghost use Rattle.bl_tree.specs.declared.token.Token.{Token};
ghost use Rattle.bl_lex.specs.Tokens.{Lexes};
ghost use Rattle.bl_parse_syntax.specs.Rules.{PassesDepth};
ghost use Rattle.bl_parse_tree.specs.declared.raw.Raw.{Raw};
ghost use Rattle.bl_parse_tree.specs.Depths.{item_shallow};
ghost use Rattle.bl_parse_tree.specs.WellFormed.{RawIsWellFormed};
ghost use Rattle.bl_parse_tree.specs.Names.{item_stands};
ghost use Rattle.bl_parse_tree.specs.Starts.{all_starts, ascends};
ghost use Rattle.bl_parse.specs.Programs.{Spells};

/// What a raw tree keeps that the tokens of a text spell: names and order follow from the tokens being those of the text, depth from rule Depth.
pub fn what_is_spelled_keeps()
    ensures stand { (text : List ℕ) (tokens : List Token) (raw : Raw) → Lexes text tokens → Spells text tokens raw
        → IsTrue (list_all item_stands raw.items) }
    ensures shallow { (text : List ℕ) (tokens : List Token) (raw : Raw) → PassesDepth tokens → Spells text tokens raw
        → IsTrue (list_all item_shallow raw.items) }
    ensures in_order { (text : List ℕ) (tokens : List Token) (raw : Raw) → Lexes text tokens → Spells text tokens raw
        → IsTrue (ascends (all_starts raw.items)) }
    ensures keeps { (text : List ℕ) (tokens : List Token) (raw : Raw) → Lexes text tokens → PassesDepth tokens → Spells text tokens raw
        → RawIsWellFormed raw.items }
{}
