//! The functions of the prelude: their names, and what each of them does.

use bl_tree::scalar::{Op, Scalar, Width};

/// What a function of the prelude does (docs/C_SUBSET.md, "Meaning").
#[derive(Clone, Copy, PartialEq, Eq, Debug)]
pub enum Builtin {
    /// The operator on two numbers of the type.
    Two(Op, Scalar),
    /// The operator on one number of the type.
    One(Op, Scalar),
    /// The cast to the type, from any signed (true) or any unsigned (false) type.
    Cast(bool, Scalar),
    /// An index, signed (true) or unsigned (false), into an array of a length.
    Index(bool),
    /// The next count of a loop's turns.
    Turn,
    /// The end of the program, which no text may call.
    Stop,
}

/// The functions of the prelude by name, as the definitions list them.
pub static BUILTINS: [(&str, Builtin); 120] = [
    ("bl_turn", Builtin::Turn),
    ("bl_ix_s", Builtin::Index(true)),
    ("bl_ix_u", Builtin::Index(false)),
    ("bl_trap", Builtin::Stop),
    ("bl_add_i8", Builtin::Two(Op::Add, Scalar::Int(Width::W8))),
    ("bl_add_i16", Builtin::Two(Op::Add, Scalar::Int(Width::W16))),
    ("bl_add_i32", Builtin::Two(Op::Add, Scalar::Int(Width::W32))),
    ("bl_add_i64", Builtin::Two(Op::Add, Scalar::Int(Width::W64))),
    ("bl_add_n8", Builtin::Two(Op::Add, Scalar::Nat(Width::W8))),
    ("bl_add_n16", Builtin::Two(Op::Add, Scalar::Nat(Width::W16))),
    ("bl_add_n32", Builtin::Two(Op::Add, Scalar::Nat(Width::W32))),
    ("bl_add_n64", Builtin::Two(Op::Add, Scalar::Nat(Width::W64))),
    ("bl_add_b8", Builtin::Two(Op::Add, Scalar::Bits(Width::W8))),
    (
        "bl_add_b16",
        Builtin::Two(Op::Add, Scalar::Bits(Width::W16)),
    ),
    (
        "bl_add_b32",
        Builtin::Two(Op::Add, Scalar::Bits(Width::W32)),
    ),
    (
        "bl_add_b64",
        Builtin::Two(Op::Add, Scalar::Bits(Width::W64)),
    ),
    ("bl_sub_i8", Builtin::Two(Op::Sub, Scalar::Int(Width::W8))),
    ("bl_sub_i16", Builtin::Two(Op::Sub, Scalar::Int(Width::W16))),
    ("bl_sub_i32", Builtin::Two(Op::Sub, Scalar::Int(Width::W32))),
    ("bl_sub_i64", Builtin::Two(Op::Sub, Scalar::Int(Width::W64))),
    ("bl_sub_n8", Builtin::Two(Op::Sub, Scalar::Nat(Width::W8))),
    ("bl_sub_n16", Builtin::Two(Op::Sub, Scalar::Nat(Width::W16))),
    ("bl_sub_n32", Builtin::Two(Op::Sub, Scalar::Nat(Width::W32))),
    ("bl_sub_n64", Builtin::Two(Op::Sub, Scalar::Nat(Width::W64))),
    ("bl_sub_b8", Builtin::Two(Op::Sub, Scalar::Bits(Width::W8))),
    (
        "bl_sub_b16",
        Builtin::Two(Op::Sub, Scalar::Bits(Width::W16)),
    ),
    (
        "bl_sub_b32",
        Builtin::Two(Op::Sub, Scalar::Bits(Width::W32)),
    ),
    (
        "bl_sub_b64",
        Builtin::Two(Op::Sub, Scalar::Bits(Width::W64)),
    ),
    ("bl_mul_i8", Builtin::Two(Op::Mul, Scalar::Int(Width::W8))),
    ("bl_mul_i16", Builtin::Two(Op::Mul, Scalar::Int(Width::W16))),
    ("bl_mul_i32", Builtin::Two(Op::Mul, Scalar::Int(Width::W32))),
    ("bl_mul_i64", Builtin::Two(Op::Mul, Scalar::Int(Width::W64))),
    ("bl_mul_n8", Builtin::Two(Op::Mul, Scalar::Nat(Width::W8))),
    ("bl_mul_n16", Builtin::Two(Op::Mul, Scalar::Nat(Width::W16))),
    ("bl_mul_n32", Builtin::Two(Op::Mul, Scalar::Nat(Width::W32))),
    ("bl_mul_n64", Builtin::Two(Op::Mul, Scalar::Nat(Width::W64))),
    ("bl_mul_b8", Builtin::Two(Op::Mul, Scalar::Bits(Width::W8))),
    (
        "bl_mul_b16",
        Builtin::Two(Op::Mul, Scalar::Bits(Width::W16)),
    ),
    (
        "bl_mul_b32",
        Builtin::Two(Op::Mul, Scalar::Bits(Width::W32)),
    ),
    (
        "bl_mul_b64",
        Builtin::Two(Op::Mul, Scalar::Bits(Width::W64)),
    ),
    ("bl_div_i8", Builtin::Two(Op::Div, Scalar::Int(Width::W8))),
    ("bl_div_i16", Builtin::Two(Op::Div, Scalar::Int(Width::W16))),
    ("bl_div_i32", Builtin::Two(Op::Div, Scalar::Int(Width::W32))),
    ("bl_div_i64", Builtin::Two(Op::Div, Scalar::Int(Width::W64))),
    ("bl_div_n8", Builtin::Two(Op::Div, Scalar::Nat(Width::W8))),
    ("bl_div_n16", Builtin::Two(Op::Div, Scalar::Nat(Width::W16))),
    ("bl_div_n32", Builtin::Two(Op::Div, Scalar::Nat(Width::W32))),
    ("bl_div_n64", Builtin::Two(Op::Div, Scalar::Nat(Width::W64))),
    ("bl_div_b8", Builtin::Two(Op::Div, Scalar::Bits(Width::W8))),
    (
        "bl_div_b16",
        Builtin::Two(Op::Div, Scalar::Bits(Width::W16)),
    ),
    (
        "bl_div_b32",
        Builtin::Two(Op::Div, Scalar::Bits(Width::W32)),
    ),
    (
        "bl_div_b64",
        Builtin::Two(Op::Div, Scalar::Bits(Width::W64)),
    ),
    ("bl_rem_i8", Builtin::Two(Op::Rem, Scalar::Int(Width::W8))),
    ("bl_rem_i16", Builtin::Two(Op::Rem, Scalar::Int(Width::W16))),
    ("bl_rem_i32", Builtin::Two(Op::Rem, Scalar::Int(Width::W32))),
    ("bl_rem_i64", Builtin::Two(Op::Rem, Scalar::Int(Width::W64))),
    ("bl_rem_n8", Builtin::Two(Op::Rem, Scalar::Nat(Width::W8))),
    ("bl_rem_n16", Builtin::Two(Op::Rem, Scalar::Nat(Width::W16))),
    ("bl_rem_n32", Builtin::Two(Op::Rem, Scalar::Nat(Width::W32))),
    ("bl_rem_n64", Builtin::Two(Op::Rem, Scalar::Nat(Width::W64))),
    ("bl_rem_b8", Builtin::Two(Op::Rem, Scalar::Bits(Width::W8))),
    (
        "bl_rem_b16",
        Builtin::Two(Op::Rem, Scalar::Bits(Width::W16)),
    ),
    (
        "bl_rem_b32",
        Builtin::Two(Op::Rem, Scalar::Bits(Width::W32)),
    ),
    (
        "bl_rem_b64",
        Builtin::Two(Op::Rem, Scalar::Bits(Width::W64)),
    ),
    ("bl_of_s_i8", Builtin::Cast(true, Scalar::Int(Width::W8))),
    ("bl_of_s_i16", Builtin::Cast(true, Scalar::Int(Width::W16))),
    ("bl_of_s_i32", Builtin::Cast(true, Scalar::Int(Width::W32))),
    ("bl_of_s_i64", Builtin::Cast(true, Scalar::Int(Width::W64))),
    ("bl_of_s_n8", Builtin::Cast(true, Scalar::Nat(Width::W8))),
    ("bl_of_s_n16", Builtin::Cast(true, Scalar::Nat(Width::W16))),
    ("bl_of_s_n32", Builtin::Cast(true, Scalar::Nat(Width::W32))),
    ("bl_of_s_n64", Builtin::Cast(true, Scalar::Nat(Width::W64))),
    ("bl_of_s_b8", Builtin::Cast(true, Scalar::Bits(Width::W8))),
    ("bl_of_s_b16", Builtin::Cast(true, Scalar::Bits(Width::W16))),
    ("bl_of_s_b32", Builtin::Cast(true, Scalar::Bits(Width::W32))),
    ("bl_of_s_b64", Builtin::Cast(true, Scalar::Bits(Width::W64))),
    ("bl_of_u_i8", Builtin::Cast(false, Scalar::Int(Width::W8))),
    ("bl_of_u_i16", Builtin::Cast(false, Scalar::Int(Width::W16))),
    ("bl_of_u_i32", Builtin::Cast(false, Scalar::Int(Width::W32))),
    ("bl_of_u_i64", Builtin::Cast(false, Scalar::Int(Width::W64))),
    ("bl_of_u_n8", Builtin::Cast(false, Scalar::Nat(Width::W8))),
    ("bl_of_u_n16", Builtin::Cast(false, Scalar::Nat(Width::W16))),
    ("bl_of_u_n32", Builtin::Cast(false, Scalar::Nat(Width::W32))),
    ("bl_of_u_n64", Builtin::Cast(false, Scalar::Nat(Width::W64))),
    ("bl_of_u_b8", Builtin::Cast(false, Scalar::Bits(Width::W8))),
    (
        "bl_of_u_b16",
        Builtin::Cast(false, Scalar::Bits(Width::W16)),
    ),
    (
        "bl_of_u_b32",
        Builtin::Cast(false, Scalar::Bits(Width::W32)),
    ),
    (
        "bl_of_u_b64",
        Builtin::Cast(false, Scalar::Bits(Width::W64)),
    ),
    ("bl_neg_i8", Builtin::One(Op::Minus, Scalar::Int(Width::W8))),
    (
        "bl_neg_i16",
        Builtin::One(Op::Minus, Scalar::Int(Width::W16)),
    ),
    (
        "bl_neg_i32",
        Builtin::One(Op::Minus, Scalar::Int(Width::W32)),
    ),
    (
        "bl_neg_i64",
        Builtin::One(Op::Minus, Scalar::Int(Width::W64)),
    ),
    (
        "bl_neg_b8",
        Builtin::One(Op::Minus, Scalar::Bits(Width::W8)),
    ),
    (
        "bl_neg_b16",
        Builtin::One(Op::Minus, Scalar::Bits(Width::W16)),
    ),
    (
        "bl_neg_b32",
        Builtin::One(Op::Minus, Scalar::Bits(Width::W32)),
    ),
    (
        "bl_neg_b64",
        Builtin::One(Op::Minus, Scalar::Bits(Width::W64)),
    ),
    (
        "bl_not_b8",
        Builtin::One(Op::BitNot, Scalar::Bits(Width::W8)),
    ),
    (
        "bl_not_b16",
        Builtin::One(Op::BitNot, Scalar::Bits(Width::W16)),
    ),
    (
        "bl_not_b32",
        Builtin::One(Op::BitNot, Scalar::Bits(Width::W32)),
    ),
    (
        "bl_not_b64",
        Builtin::One(Op::BitNot, Scalar::Bits(Width::W64)),
    ),
    (
        "bl_and_b8",
        Builtin::Two(Op::BitAnd, Scalar::Bits(Width::W8)),
    ),
    (
        "bl_and_b16",
        Builtin::Two(Op::BitAnd, Scalar::Bits(Width::W16)),
    ),
    (
        "bl_and_b32",
        Builtin::Two(Op::BitAnd, Scalar::Bits(Width::W32)),
    ),
    (
        "bl_and_b64",
        Builtin::Two(Op::BitAnd, Scalar::Bits(Width::W64)),
    ),
    ("bl_or_b8", Builtin::Two(Op::BitOr, Scalar::Bits(Width::W8))),
    (
        "bl_or_b16",
        Builtin::Two(Op::BitOr, Scalar::Bits(Width::W16)),
    ),
    (
        "bl_or_b32",
        Builtin::Two(Op::BitOr, Scalar::Bits(Width::W32)),
    ),
    (
        "bl_or_b64",
        Builtin::Two(Op::BitOr, Scalar::Bits(Width::W64)),
    ),
    (
        "bl_xor_b8",
        Builtin::Two(Op::BitXor, Scalar::Bits(Width::W8)),
    ),
    (
        "bl_xor_b16",
        Builtin::Two(Op::BitXor, Scalar::Bits(Width::W16)),
    ),
    (
        "bl_xor_b32",
        Builtin::Two(Op::BitXor, Scalar::Bits(Width::W32)),
    ),
    (
        "bl_xor_b64",
        Builtin::Two(Op::BitXor, Scalar::Bits(Width::W64)),
    ),
    ("bl_shl_b8", Builtin::Two(Op::Shl, Scalar::Bits(Width::W8))),
    (
        "bl_shl_b16",
        Builtin::Two(Op::Shl, Scalar::Bits(Width::W16)),
    ),
    (
        "bl_shl_b32",
        Builtin::Two(Op::Shl, Scalar::Bits(Width::W32)),
    ),
    (
        "bl_shl_b64",
        Builtin::Two(Op::Shl, Scalar::Bits(Width::W64)),
    ),
    ("bl_shr_b8", Builtin::Two(Op::Shr, Scalar::Bits(Width::W8))),
    (
        "bl_shr_b16",
        Builtin::Two(Op::Shr, Scalar::Bits(Width::W16)),
    ),
    (
        "bl_shr_b32",
        Builtin::Two(Op::Shr, Scalar::Bits(Width::W32)),
    ),
    (
        "bl_shr_b64",
        Builtin::Two(Op::Shr, Scalar::Bits(Width::W64)),
    ),
];
