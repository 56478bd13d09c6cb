//! Words of types, signs of operators, numbers and literals.

ghost use Rattle.std.specs.Prelude.{◌≡◌, ◌≤◌, ◌<◌, ℕ, ◌+◌, ◌*◌, false, List, [], ◌∷◌, ◌++◌, codes, length};
ghost use Rattle.std.specs.Prelude.{IsTrue, IsNone, IfOk, IfSome, OnOk};
ghost use Rattle.std.specs.Prelude.{MatchOption, MatchResult};
ghost use Rattle.bl_grammar.specs.declared.symbol.Symbol.{Symbol};
ghost use Rattle.std.specs.Fmt.{decimal};
ghost use Rattle.bl_tree.specs.declared.scalar.Scalar.{Scalar};
ghost use Rattle.bl_ctext.specs.Spelling.{scalar_word, operator_sign, constant_word, width_digits, negatives, kind_tokens};
ghost use Rattle.bl_ctext.specs.Spellable.{is_c_scalar, is_c_operator, has_any, spells_kind};
ghost use Rattle.bl_cparse_syntax.specs.Pieces.{first_piece};
ghost use Rattle.bl_cparse_syntax.specs.declared.grammar.Digits.{Digits};
ghost use Rattle.bl_cparse_syntax.specs.declared.grammar.Group.{Group};
ghost use Rattle.bl_cparse_syntax.specs.declared.grammar.Part.{Part};
ghost use Rattle.bl_cparse_syntax.specs.Classes.{Class, least, digits_bound, matches};
ghost use Rattle.bl_cparse_syntax.specs.Grammar.{Wanted};
ghost use Rattle.bl_cparse_syntax.specs.Tables.{has};
ghost use Rattle.bl_cparse_syntax.specs.Expects.{Expects};
ghost use Rattle.bl_cparse_syntax.specs.Follow.{constant_starts};
ghost use Rattle.bl_cparse.specs.inner.Parts.{MaybeKind};
ghost use Rattle.bl_cparse.specs.inner.Reading.{sign, part, scalar_type, operator, signed_starts, unsigned_starts, least_starts, literal_starts};
ghost use Rattle.bl_cparse.specs.inner.Reading.{by_width};
ghost use Rattle.bl_cparse.specs.inner.Reading.{exactly_one, Follows};
ghost use Rattle.bl_cparse.specs.Places.{WantsMemory};

use crate::make;
use crate::reader::Reader;
use crate::refusal::CRefusal;
use bl_tree::c::CExprKind;
use bl_tree::{Op, Scalar, Width};
use itoa::Buffer;

fn is(piece: &[u8], what: &str) -> bool
    ensures same { result ≡ matches (Class.exactly what.now) piece.now }
    ensures yes { IsTrue result → piece.now ≡ what.now }
{
    what.as_bytes() == piece
}

/// The width whose word this is, of the words of the four.
fn width_of(word: &[u8], w8: &str, w16: &str, w32: &str, w64: &str) -> Option<Width>
    ensures some { IfSome result (λ w. word.now ≡ by_width w8.now w16.now w32.now w64.now w) }
    ensures none { IsNone result → has (exactly_one w8.now w16.now w32.now w64.now) word.now ≡ false }
{
    if is(word, w8) {
        return Some(Width::W8);
    }
    if is(word, w16) {
        return Some(Width::W16);
    }
    if is(word, w32) {
        return Some(Width::W32);
    }
    if is(word, w64) {
        return Some(Width::W64);
    }
    None
}

/// The type of this word.
pub fn scalar_of(word: &[u8]) -> Option<Scalar>
    ensures some { IfSome result (λ s. (word.now ≡ scalar_word s) × (IsTrue (is_c_scalar s) × IsTrue (has_any word.now))) }
    ensures none { IsNone result → matches (Class.one_of Group.ScalarTypes) word.now ≡ false }
{
    if is(word, "bool") {
        return Some(Scalar::Bool);
    }
    if let Some(width) = int_of(word) {
        return Some(Scalar::Int(width));
    }
    match nat_of(word) {
        Some(width) => Some(Scalar::Nat(width)),
        None => None,
    }
}

/// The width of the int type of this word.
pub fn int_of(word: &[u8]) -> Option<Width>
    ensures some { IfSome result (λ w. (word.now ≡ scalar_word (Scalar.Int w)) × IsTrue (has_any word.now)) }
    ensures none { IsNone result → has (exactly_one (codes "int8_t") (codes "int16_t") (codes "int32_t") (codes "int64_t")) word.now ≡ false }
{
    width_of(word, "int8_t", "int16_t", "int32_t", "int64_t")
}

/// The width of the unsigned type of this word.
pub fn nat_of(word: &[u8]) -> Option<Width>
    ensures some { IfSome result (λ w. (word.now ≡ scalar_word (Scalar.Nat w)) × IsTrue (has_any word.now)) }
    ensures none { IsNone result → has (exactly_one (codes "uint8_t") (codes "uint16_t") (codes "uint32_t") (codes "uint64_t")) word.now ≡ false }
{
    width_of(word, "uint8_t", "uint16_t", "uint32_t", "uint64_t")
}

/// The operator of this sign.
pub fn operator_of(sign: &[u8]) -> Option<Op>
    ensures some { IfSome result (λ o. (sign.now ≡ operator_sign o) × (IsTrue (is_c_operator o) × IsTrue (has_any sign.now))) }
    ensures none { IsNone result → matches (Class.one_of Group.Operators) sign.now ≡ false }
{
    if is(sign, "==") {
        return Some(Op::Eq);
    }
    if is(sign, "!=") {
        return Some(Op::Ne);
    }
    if is(sign, "&&") {
        return Some(Op::And);
    }
    if is(sign, "||") {
        return Some(Op::Or);
    }
    order_of(sign)
}

/// The operator of this sign that compares by order.
fn order_of(sign: &[u8]) -> Option<Op>
    ensures some { IfSome result (λ o. (sign.now ≡ operator_sign o) × (IsTrue (is_c_operator o) × IsTrue (has_any sign.now))) }
    ensures none { IsNone result → has (exactly_one (codes "<") (codes "<=") (codes ">") (codes ">=")) sign.now ≡ false }
{
    if is(sign, "<") {
        return Some(Op::Lt);
    }
    if is(sign, "<=") {
        return Some(Op::Le);
    }
    if is(sign, ">") {
        return Some(Op::Gt);
    }
    if is(sign, ">=") {
        return Some(Op::Ge);
    }
    None
}

/// The type whose int constants this word begins.
pub fn signed_of(word: &[u8]) -> Option<Width>
    ensures some { IfSome result (λ w. (word.now ≡ constant_word (codes "INT") w) × IsTrue (has_any word.now)) }
    ensures none { IsNone result → has signed_starts word.now ≡ false }
{
    width_of(word, "INT8_C", "INT16_C", "INT32_C", "INT64_C")
}

/// The type whose unsigned constants this word begins.
pub fn unsigned_of(word: &[u8]) -> Option<Width>
    ensures some { IfSome result (λ w. (word.now ≡ constant_word (codes "UINT") w) × IsTrue (has_any word.now)) }
    ensures none { IsNone result → has unsigned_starts word.now ≡ false }
{
    width_of(word, "UINT8_C", "UINT16_C", "UINT32_C", "UINT64_C")
}

/// The int type whose least number this word is.
pub fn least_of(word: &[u8]) -> Option<Width>
    ensures some { IfSome result (λ w. (word.now ≡ codes "INT" ++ (width_digits w ++ codes "_MIN")) × IsTrue (has_any word.now)) }
    ensures none { IsNone result → has least_starts word.now ≡ false }
{
    width_of(word, "INT8_MIN", "INT16_MIN", "INT32_MIN", "INT64_MIN")
}

/// How many negative numbers the int type of this width has.
pub fn negatives_of(width: Width) -> u64
    ensures { result ≡ negatives width }
{
    match width {
        Width::W8 => 1 << 7,
        Width::W16 => 1 << 15,
        Width::W32 => 1 << 31,
        Width::W64 => 1 << 63,
    }
}

/// The greatest number of the unsigned type of this width.
fn greatest_of(width: Width) -> u64
    ensures { result + 1 ≡ 2 * negatives width }
{
    match width {
        Width::W8 => 0xFF,
        Width::W16 => 0xFFFF,
        Width::W32 => 0xFFFF_FFFF,
        Width::W64 => 0xFFFF_FFFF_FFFF_FFFF,
    }
}

/// The number that these digits spell, with no zero before its first digit.
fn number_of(digits: &[u8]) -> Option<u64>
    ensures some { IfSome result (λ n. (digits.now ≡ decimal n) × IsTrue (has_any digits.now)) }
    ensures none { IsNone result → (of : Digits) → matches (Class.number of) digits.now ≡ false }
{
    match str::from_utf8(digits) {
        Ok(text) => numeral(text),
        Err(_) => None,
    }
}

/// The same of a text.
#[tactic(auto, using(crate::proofs::TokenLemmas::decimal_any))]
fn numeral(text: &str) -> Option<u64>
    ensures some { IfSome result (λ n. (text.now ≡ decimal n) × IsTrue (has_any text.now)) }
    ensures none { IsNone result → (of : Digits) → matches (Class.number of) text.now ≡ false }
{
    match text.parse::<u64>() {
        Ok(n) => {
            let mut buffer = Buffer::new();
            if buffer.format(n) == text {
                Some(n)
            } else {
                None
            }
        }
        Err(_) => None,
    }
}

/// A number from `low` to `high`.
pub fn number(r: &mut Reader<'_>, low: u64, high: u64) -> Result<u64, CRefusal>
    ensures read { IfOk result (λ n. (r.old ≡ decimal n ∷ r.new) × ((low ≤ n) × (n ≤ high))) }
    ensures follows { (of : Digits) → least of ≡ low → digits_bound of ≡ high + 1
        → Follows result (Symbol.Terminal (Class.number of) ∷ []) [] r.old r.new }
{
    let Some(n) = number_of(r.piece()) else {
        return Err(r.refusal());
    };
    if n < low {
        return Err(r.refusal());
    }
    if high < n {
        return Err(r.refusal());
    }
    r.skip();
    Ok(n)
}

/// The digits of a constant in their parentheses.
fn constant(r: &mut Reader<'_>, low: u64, high: u64) -> Result<u64, CRefusal>
    ensures read { IfOk result (λ n. (r.old ≡ codes "(" ∷ decimal n ∷ codes ")" ∷ r.new) × ((low ≤ n) × (n ≤ high))) }
    ensures follows { (of : Digits) → least of ≡ low → digits_bound of ≡ high + 1
        → Follows result (sign (codes "(") ∷ Symbol.Terminal (Class.number of) ∷ sign (codes ")") ∷ []) [] r.old r.new }
{
    r.take("(")?;
    let n = number(r, low, high)?;
    r.take(")")?;
    Ok(n)
}

/// A literal that doesn't begin with a parenthesis. None where the next token begins no such literal.
pub fn literal(r: &mut Reader<'_>) -> Result<Option<CExprKind>, CRefusal>
    ensures read { IfOk result (λ found. MaybeKind r.old r.new found) }
    ensures shorter { IfOk result (λ found. IfSome found (λ what. length r.new < length r.old)) }
    ensures follows { (room : ℕ) (rest : List Wanted) → Expects (part Part.Simple room ∷ rest) r.old
        → MatchResult result (λ found. MatchOption found (has literal_starts (first_piece r.old) ≡ false) (λ _. Expects rest r.new)) WantsMemory }
{
    if r.eat("true") {
        return Ok(Some(make::literal(Scalar::Bool, 1)));
    }
    if r.eat("false") {
        return Ok(Some(make::literal(Scalar::Bool, 0)));
    }
    if let Some(width) = least_of(r.piece()) {
        r.skip();
        let least = -(negatives_of(width) as i128);
        return Ok(Some(make::literal(Scalar::Int(width), least)));
    }
    bracketed_constant(r)
}

/// A constant with its digits in parentheses. None where the next token begins none.
fn bracketed_constant(r: &mut Reader<'_>) -> Result<Option<CExprKind>, CRefusal>
    ensures read { IfOk result (λ found. MaybeKind r.old r.new found) }
    ensures shorter { IfOk result (λ found. IfSome found (λ what. length r.new < length r.old)) }
    ensures follows { (room : ℕ) (rest : List Wanted) → Expects (part Part.Simple room ∷ rest) r.old
        → MatchResult result (λ found. MatchOption found (has constant_starts (first_piece r.old) ≡ false) (λ _. Expects rest r.new)) WantsMemory }
{
    if let Some(width) = signed_of(r.piece()) {
        r.skip();
        let n = constant(r, 0, negatives_of(width) - 1)?;
        return Ok(Some(make::literal(Scalar::Int(width), n as i128)));
    }
    if let Some(width) = unsigned_of(r.piece()) {
        r.skip();
        let n = constant(r, 0, greatest_of(width))?;
        return Ok(Some(make::literal(Scalar::Nat(width), n as i128)));
    }
    Ok(None)
}

/// A negative literal behind its `(-`.
pub fn negative(r: &mut Reader<'_>) -> Result<CExprKind, CRefusal>
    ensures read { IfOk result (λ k. (codes "(" ∷ codes "-" ∷ r.old ≡ kind_tokens k ++ r.new) × IsTrue (spells_kind k)) }
    ensures shorter { OnOk result (length r.new < length r.old) }
    ensures follows { (room : ℕ) → Follows result (part Part.Negative room ∷ sign (codes ")") ∷ []) [] r.old r.new }
{
    let Some(width) = signed_of(r.piece()) else {
        return Err(r.refusal());
    };
    r.skip();
    let n = constant(r, 1, negatives_of(width) - 1)?;
    r.take(")")?;
    Ok(make::literal(Scalar::Int(width), -(n as i128)))
}

pub fn scalar(r: &mut Reader<'_>) -> Result<Scalar, CRefusal>
    ensures read { IfOk result (λ s. (r.old ≡ scalar_word s ∷ r.new) × IsTrue (is_c_scalar s)) }
    ensures follows { Follows result (scalar_type ∷ []) [] r.old r.new }
{
    match scalar_of(r.piece()) {
        Some(scalar) => {
            r.skip();
            Ok(scalar)
        }
        None => Err(r.refusal()),
    }
}

pub fn operator(r: &mut Reader<'_>) -> Result<Op, CRefusal>
    ensures read { IfOk result (λ o. (r.old ≡ operator_sign o ∷ r.new) × IsTrue (is_c_operator o)) }
    ensures follows { Follows result (operator ∷ []) [] r.old r.new }
{
    match operator_of(r.piece()) {
        Some(op) => {
            r.skip();
            Ok(op)
        }
        None => Err(r.refusal()),
    }
}
