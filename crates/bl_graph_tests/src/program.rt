//! A program by its text.

use bl_lex::lex;
use bl_parse::parse;
use bl_parse_laws::kept::what_is_spelled_keeps;
use bl_tree::Program;
use bl_types_program::check;
use std::alloc::Global;

/// The program that a short text spells; none where a rule up to Entry refuses it or memory ends.
pub fn program_of(alloc: Global, text: &[u8]) -> Option<Program> {
    what_is_spelled_keeps();
    if text.len() > 1_000 {
        return None;
    }
    let Ok(tokens) = lex(alloc, text) else {
        return None;
    };
    let Ok(raw) = parse(alloc, text, &tokens) else {
        return None;
    };
    let Ok(program) = check(alloc, &raw) else {
        return None;
    };
    Some(program)
}
