//! Trees of whole texts, with the places of their parts.

use bl_lex::lex;
use bl_parse::parse;
use bl_parse_tree::Raw;
use bl_parse_tree::expr::RawExprKind;
use bl_parse_tree::item::RawItem;
use bl_parse_tree::stmt::RawStmtKind;
use bl_tree::Refusal;
use std::alloc::Global;
use std::test::Fail;

const HEATER: &str =
    "// heater with a guard\nstruct Config var low: int32 var high: int32 end\nconst LIMIT: int32 = 90\nfunction Clamp (v: int32, c: Config) returns int32\nif v < c.low then return c.low end\nif v > c.high then return c.high end\nreturn v end\nactivity Heat (t: int32)(power: int32) var c: Config c.low = 0 c.high = 100 repeat power = Clamp(60 - t, c) await true end end\n@[EntryPoint] activity Main (t: int32, stop: bool)(power: int32, alarm: bool) repeat when stop or t > LIMIT abort run Heat(t)(power) end power = 0 alarm = true await not stop and t <= LIMIT alarm = false end end";

/// The tree of a text, or the refusal.
fn tree(alloc: Global, text: &[u8]) -> Result<Raw, Refusal> {
    if text.len() >= 1_000_000 {
        return Err(Refusal::NoMemory);
    }
    let tokens = lex(alloc, text)?;
    parse(alloc, text, &tokens)
}

#[test]
fn the_heater_is_read(rt: HostRuntime) -> Result<(), Fail> {
    let raw = tree(rt.alloc(), HEATER.as_bytes()).map_err(|_| "refused")?;
    assert_eq!(rt; raw.items.len(), 5);
    assert_eq!(rt; raw.bytes as usize, HEATER.len());
    Ok(())
}

#[test]
fn places_go_from_the_first_token_to_the_last(rt: HostRuntime) -> Result<(), Fail> {
    let raw = tree(rt.alloc(), b"function f () x = (a) + -1 return end").map_err(|_| "refused")?;
    assert_eq!(rt; raw.items.len(), 1);
    let RawItem::Unit(unit) = &raw.items[0] else {
        return Err("no unit".into());
    };
    assert_eq!(rt; unit.body.len(), 2);
    let assign = &unit.body[0];
    assert_eq!(rt; (assign.place.start, assign.place.end), (14, 26));
    let RawStmtKind::Assign(_, value) = &assign.what else {
        return Err("no assignment".into());
    };
    assert_eq!(rt; (value.place.start, value.place.end), (18, 26));
    let RawExprKind::Two(_, left, right) = &value.what else {
        return Err("no operator".into());
    };
    assert_eq!(rt; (left.place.start, left.place.end), (19, 20));
    assert_eq!(rt; (right.place.start, right.place.end), (24, 26));
    let back = &unit.body[1];
    assert_eq!(rt; (back.place.start, back.place.end), (27, 33));
    Ok(())
}
