//! Names, each under the test of the grammar that it passes.

ghost use Rattle.std.specs.Prelude.{◌≡◌, ℕ, List, [], ◌∷◌, ◌++◌, IsTrue, IfOk, MatchResult};
ghost use Rattle.bl_ctext.specs.Names.{is_name, is_struct_name, is_function_name, is_callee, is_turn_name};
ghost use Rattle.bl_cparse_syntax.specs.declared.grammar.Part.{Part};
ghost use Rattle.bl_cparse_syntax.specs.Grammar.{Wanted};
ghost use Rattle.bl_cparse_syntax.specs.Expects.{Expects};
ghost use Rattle.bl_cparse.specs.inner.Reading.{name_of, prelude_function, behind_turn, part, Follows};
ghost use Rattle.bl_cparse.specs.Places.{WantsMemory};

use crate::reader::Reader;
use crate::refusal::CRefusal;
use bl_cparse_syntax::words;
use bl_tree::Text;

pub fn name(r: &mut Reader<'_>) -> Result<Text, CRefusal>
    ensures read { IfOk result (λ found. (r.old ≡ found ∷ r.new) × IsTrue (is_name found)) }
    ensures follows { Follows result (name_of ∷ []) [] r.old r.new }
{
    if words::is_name(r.piece()) {
        r.copy()
    } else {
        Err(r.refusal())
    }
}

pub fn struct_name(r: &mut Reader<'_>) -> Result<Text, CRefusal>
    ensures read { IfOk result (λ found. (r.old ≡ found ∷ r.new) × IsTrue (is_struct_name found)) }
    ensures follows { (room : ℕ) → Follows result (part Part.StructName room ∷ []) [] r.old r.new }
{
    if words::is_struct_name(r.piece()) {
        r.copy()
    } else {
        Err(r.refusal())
    }
}

pub fn function_name(r: &mut Reader<'_>) -> Result<Text, CRefusal>
    ensures read { IfOk result (λ found. (r.old ≡ found ∷ r.new) × IsTrue (is_function_name found)) }
    ensures follows { (room : ℕ) → Follows result (part Part.FuncName room ∷ []) [] r.old r.new }
{
    if words::is_function_name(r.piece()) {
        r.copy()
    } else {
        Err(r.refusal())
    }
}

pub fn callee(r: &mut Reader<'_>) -> Result<Text, CRefusal>
    ensures read { IfOk result (λ found. (r.old ≡ found ∷ r.new) × IsTrue (is_callee found)) }
    ensures follows { Follows result (prelude_function ∷ []) [] r.old r.new }
{
    if words::is_callee(r.piece()) {
        r.copy()
    } else {
        Err(r.refusal())
    }
}

pub fn turn_name(r: &mut Reader<'_>) -> Result<Text, CRefusal>
    ensures read { IfOk result (λ found. (r.old ≡ found ∷ r.new) × IsTrue (is_turn_name found)) }
    ensures follows { (room : ℕ) (rest : List Wanted) → Expects (part Part.Turns room ∷ rest) r.old
        → MatchResult result (λ turn. Expects (behind_turn turn room ++ rest) r.new) WantsMemory }
{
    if words::is_turn_name(r.piece()) {
        r.copy()
    } else {
        Err(r.refusal())
    }
}
