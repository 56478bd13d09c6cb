//! From tokens to a file. Each function reads one part of the grammar from the front of what is left, and refuses the
//! text at the first token that can't stand.

mod expr;
mod item;
pub mod literal;
#[tactic(auto, using(crate::proofs::TokenLemmas::name_word, crate::proofs::TokenLemmas::struct_name_word, crate::proofs::TokenLemmas::function_name_word, crate::proofs::TokenLemmas::callee_word, crate::proofs::TokenLemmas::turn_name_word))]
mod name;
mod place;
mod stmt;

ghost use Rattle.std.specs.Prelude.{◌≡◌, ◌≢◌, ℕ, ◌<◌, ◌≤◌, List, ◌++◌, length, drop, slice_index, IsTrue, IfOk, IfErr, IsErrAnd};
ghost use Rattle.bl_ctext.specs.Prelude.{prelude};
ghost use Rattle.bl_ctext.specs.declared.prelude.TheConstants.{PRELUDE};
ghost use Rattle.bl_ctext.specs.Spelling.{tokens_of};
ghost use Rattle.bl_ctext.specs.Spellable.{is_spellable};
ghost use Rattle.bl_ctext.specs.SpellsC.{SpellsC};
ghost use Rattle.bl_cparse_syntax.specs.Rules.{Passes};
ghost use Rattle.bl_cparse.specs.HasPlaces.{HasPlaces};
ghost use Rattle.bl_cparse.specs.Places.{LeavesPrelude, RefusesAt, RefusesNone, SpellsNone};
ghost use Rattle.bl_cparse.specs.Places.{WantsMemory};

use crate::placing;
use crate::placing::Spot;
use crate::reader::Reader;
use crate::refusal::CRefusal;
use bl_cparse_syntax::check;
use bl_ctext::{CFile, PRELUDE};
use bl_tree::List;
use bl_tree::c::{CFunc, CStruct};
use std::alloc::Global;

/// How many brackets may be open at once.
pub const MOST_OPEN: u32 = 2_000;

/// The file that the bytes spell (docs/C_SUBSET.md, "Grammar").
pub fn parse(alloc: Global, text: &[u8]) -> Result<CFile, CRefusal>
    requires { length text.now ≤ 67108864 }
    ensures file { IfOk result (λ file. SpellsC file text.now) }
    ensures placed { IfOk result (λ file. HasPlaces text.now file) }
    ensures prelude { ((rest : List ℕ) → text.now ≢ prelude ++ rest) → IsErrAnd result (LeavesPrelude text.now) }
    ensures place { (rest : List ℕ) → text.now ≡ prelude ++ rest → SpellsNone text.now → IsErrAnd result (RefusesAt text.now) }
    ensures none { IfErr result (RefusesNone text.now) }
{
    if !text.starts_with(PRELUDE) {
        return Err(left_prelude(text));
    }
    match behind_prelude(alloc, text) {
        Ok(file) => Ok(file),
        Err(refusal) => Err(refusal),
    }
}

/// Why a text spells no file that doesn't begin with the prelude.
fn left_prelude(text: &[u8]) -> CRefusal
    requires short { length text.now ≤ 67108864 }
    requires other { (rest : List ℕ) → text.now ≢ prelude ++ rest }
    ensures leaves { LeavesPrelude text.now result }
    ensures none { RefusesNone text.now result }
{
    CRefusal::NotSubset {
        at: shared_length(text, PRELUDE) as u32,
    }
}

/// The file that a text spells which begins with the prelude.
fn behind_prelude(alloc: Global, text: &[u8]) -> Result<CFile, CRefusal>
    requires short { length text.now ≤ 67108864 }
    requires long { length PRELUDE.now ≤ length text.now }
    requires begins { text.now ≡ prelude ++ drop (length PRELUDE.now) text.now }
    ensures file { IfOk result (λ file. SpellsC file text.now) }
    ensures placed { IfOk result (λ file. HasPlaces text.now file) }
    ensures place { SpellsNone text.now → IsErrAnd result (RefusesAt text.now) }
    ensures none { IfErr result (RefusesNone text.now) }
{
    match check(alloc, text, PRELUDE.len()) {
        Ok(Some(at)) => Err(CRefusal::NotSubset { at: at as u32 }),
        Ok(None) => match read(alloc, text) {
            Ok(file) => Ok(file),
            Err(refusal) => Err(refusal),
        },
        Err(_) => Err(CRefusal::NoMemory),
    }
}

/// The file that a text spells whose pieces behind the prelude spell one.
fn read(alloc: Global, text: &[u8]) -> Result<CFile, CRefusal>
    requires short { length text.now ≤ 67108864 }
    requires long { length PRELUDE.now ≤ length text.now }
    requires begins { text.now ≡ prelude ++ drop (length PRELUDE.now) text.now }
    requires passes { Passes text.now (length PRELUDE.now) }
    ensures file { IfOk result (λ file. SpellsC file text.now) }
    ensures placed { IfOk result (λ file. HasPlaces text.now file) }
    ensures memory { IfErr result WantsMemory }
{
    let mut reader = Reader::new(alloc, text, PRELUDE.len());
    let structs = item::structs(&mut reader)?;
    let funcs = item::funcs(&mut reader)?;
    Ok(placed(text, structs, funcs))
}

/// The file of these structs and functions, with the places of all parts.
fn placed(text: &[u8], structs: List<CStruct>, funcs: List<CFunc>) -> CFile
    requires short { length text.now ≤ 67108864 }
    requires long { length PRELUDE.now ≤ length text.now }
    requires spellable { IsTrue (is_spellable structs funcs) }
    ensures placed { HasPlaces text.now result }
    ensures tokens { tokens_of result.structs result.funcs ≡ tokens_of structs funcs }
{
    let mut spot = Spot::new(text, PRELUDE.len());
    let mut structs = structs;
    let mut funcs = funcs;
    placing::structs(&mut spot, &mut structs);
    placing::funcs(&mut spot, &mut funcs);
    CFile { structs, funcs }
}

/// How many bytes the two begin with in common.
fn shared_length(text: &[u8], other: &[u8]) -> usize
    ensures text { result ≤ length text.now }
    ensures other { result ≤ length other.now }
    ensures same { (k : ℕ) → k < result → slice_index text.now k ≡ slice_index other.now k }
    ensures differ { result < length text.now → result < length other.now → slice_index text.now result ≢ slice_index other.now result }
{
    let mut shared = 0;
    while shared < text.len() && shared < other.len() && text[shared] == other[shared] {
        shared += 1;
    }
    shared
}
