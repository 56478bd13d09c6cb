//! Words, signs, numbers and literals.

ghost use Rattle.std.specs.Prelude.{◌≡◌, ℕ, List, [], ◌∷◌, ◌++◌, codes, IsTrue, OnOk};
ghost use Rattle.std.specs.Fmt.{decimal};
ghost use Rattle.bl_ctext.specs.Token.{is_token};
ghost use Rattle.bl_ctext.specs.inner.Cut.{tokens_in, are_tokens, is_piece};
ghost use Rattle.bl_ctext.specs.Spelling.{scalar_word, constant_word, width_digits, negatives, negative_tokens, literal_tokens, operator_sign};
ghost use Rattle.bl_ctext.specs.Spellable.{is_c_scalar, is_literal, is_c_operator};

use crate::writer::Writer;
use bl_tree::{NoMemory, Op, Scalar, Width};
use itoa::Buffer;

/// The word of a type that isn't a bits type, and a space.
pub fn scalar_name(scalar: Scalar) -> &'static str
    requires { IsTrue (is_c_scalar scalar) }
    ensures spelled { tokens_in result.now ≡ scalar_word scalar ∷ [] }
    ensures tokens { IsTrue (are_tokens (tokens_in result.now)) }
{
    match scalar {
        Scalar::Bool => "bool ",
        Scalar::Int(Width::W8) => "int8_t ",
        Scalar::Int(Width::W16) => "int16_t ",
        Scalar::Int(Width::W32) => "int32_t ",
        Scalar::Int(Width::W64) => "int64_t ",
        Scalar::Nat(Width::W8) => "uint8_t ",
        Scalar::Nat(Width::W16) => "uint16_t ",
        Scalar::Nat(Width::W32) => "uint32_t ",
        Scalar::Nat(Width::W64) => "uint64_t ",
        Scalar::Bits(_) => unreachable!(),
    }
}

/// The sign of a comparison, of `Both` or of `Either`, with a space on either side.
pub fn operator_name(op: Op) -> &'static str
    requires { IsTrue (is_c_operator op) }
    ensures spelled { tokens_in result.now ≡ operator_sign op ∷ [] }
    ensures apart { IsTrue (is_piece result.now) }
{
    match op {
        Op::Eq => " == ",
        Op::Ne => " != ",
        Op::Lt => " < ",
        Op::Le => " <= ",
        Op::Gt => " > ",
        Op::Ge => " >= ",
        Op::And => " && ",
        Op::Or => " || ",
        _ => unreachable!(),
    }
}

/// What stands before the digits of a constant.
fn signed_constant(width: Width) -> &'static str
    ensures spelled { tokens_in result.now ≡ constant_word (codes "INT") width ∷ codes "(" ∷ [] }
    ensures tokens { IsTrue (are_tokens (tokens_in result.now)) }
{
    match width {
        Width::W8 => "INT8_C(",
        Width::W16 => "INT16_C(",
        Width::W32 => "INT32_C(",
        Width::W64 => "INT64_C(",
    }
}

/// What stands before the digits of a constant without a sign.
fn unsigned_constant(width: Width) -> &'static str
    ensures spelled { tokens_in result.now ≡ constant_word (codes "UINT") width ∷ codes "(" ∷ [] }
    ensures tokens { IsTrue (are_tokens (tokens_in result.now)) }
{
    match width {
        Width::W8 => "UINT8_C(",
        Width::W16 => "UINT16_C(",
        Width::W32 => "UINT32_C(",
        Width::W64 => "UINT64_C(",
    }
}

fn least_name(width: Width) -> &'static str
    ensures spelled { result.now ≡ codes "INT" ++ (width_digits width ++ codes "_MIN") }
    ensures one { IsTrue (is_token result.now) }
{
    match width {
        Width::W8 => "INT8_MIN",
        Width::W16 => "INT16_MIN",
        Width::W32 => "INT32_MIN",
        Width::W64 => "INT64_MIN",
    }
}

/// How many negative numbers the int type of this width has.
fn negatives_of(width: Width) -> u64
    ensures { result ≡ negatives width }
{
    match width {
        Width::W8 => 1 << 7,
        Width::W16 => 1 << 15,
        Width::W32 => 1 << 31,
        Width::W64 => 1 << 63,
    }
}

pub fn number(out: &mut Writer, n: u64) -> Result<(), NoMemory>
    ensures { OnOk result (out.new ≡ out.old ++ decimal n ∷ []) }
{
    let mut buffer = Buffer::new();
    out.token(buffer.format(n))
}

/// A constant behind what stands before its digits.
fn constant(out: &mut Writer, front: &str, n: u64) -> Result<(), NoMemory>
    requires { IsTrue (are_tokens (tokens_in front.now)) }
    ensures { OnOk result (out.new ≡ out.old ++ (tokens_in front.now ++ decimal n ∷ codes ")" ∷ [])) }
{
    out.write(front)?;
    number(out, n)?;
    out.byte(b')')
}

/// The number below zero with this magnitude.
fn negative(out: &mut Writer, width: Width, magnitude: u64) -> Result<(), NoMemory>
    ensures { OnOk result (out.new ≡ out.old ++ negative_tokens width magnitude) }
{
    if magnitude == negatives_of(width) {
        return out.token(least_name(width));
    }
    out.piece("(-")?;
    constant(out, signed_constant(width), magnitude)?;
    out.byte(b')')
}

pub fn literal(out: &mut Writer, scalar: Scalar, n: i128) -> Result<(), NoMemory>
    requires { IsTrue (is_literal scalar n) }
    ensures { OnOk result (out.new ≡ out.old ++ literal_tokens scalar n) }
{
    let magnitude = n.unsigned_abs() as u64;
    match scalar {
        Scalar::Bool => out.write(if magnitude == 0 { "false" } else { "true" }),
        Scalar::Int(width) if n < 0 => negative(out, width, magnitude),
        Scalar::Int(width) => constant(out, signed_constant(width), magnitude),
        Scalar::Nat(width) => constant(out, unsigned_constant(width), magnitude),
        Scalar::Bits(_) => unreachable!(),
    }
}
