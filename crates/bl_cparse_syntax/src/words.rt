//! Which words name something (docs/C_SUBSET.md, "Grammar").

ghost use Rattle.std.specs.Prelude.{◌≡◌, map};
ghost use Rattle.std.specs.Char.{is_ascii_digit};
ghost use Rattle.bl_tree.specs.Reduce.{all_of};
ghost use Rattle.bl_ctext.specs.Token.{is_word as is_c_word, is_word_byte as word_byte};
ghost use Rattle.bl_ctext.specs.Names.{is_among as among, is_name as name, is_struct_name as struct_name, is_function_name as function_name};
ghost use Rattle.bl_ctext.specs.Names.{is_callee as callee, is_turn_name as turn_name, begins_with_digit};
ghost use Rattle.bl_cparse_syntax.specs.inner.Words.{is_numbered, is_unreserved};

use bl_ctext::token_bytes::is_word_byte;

/// The words of the grammar that don't begin with `bl_`.
static GRAMMAR_WORDS: [&str; 31] = [
    "bool",
    "true",
    "false",
    "static",
    "struct",
    "void",
    "if",
    "else",
    "while",
    "break",
    "return",
    "int8_t",
    "int16_t",
    "int32_t",
    "int64_t",
    "uint8_t",
    "uint16_t",
    "uint32_t",
    "uint64_t",
    "INT8_C",
    "INT16_C",
    "INT32_C",
    "INT64_C",
    "INT8_MIN",
    "INT16_MIN",
    "INT32_MIN",
    "INT64_MIN",
    "UINT8_C",
    "UINT16_C",
    "UINT32_C",
    "UINT64_C",
];

/// The keywords of C99.
static C_KEYWORDS: [&str; 37] = [
    "auto",
    "break",
    "case",
    "char",
    "const",
    "continue",
    "default",
    "do",
    "double",
    "else",
    "enum",
    "extern",
    "float",
    "for",
    "goto",
    "if",
    "inline",
    "int",
    "long",
    "register",
    "restrict",
    "return",
    "short",
    "signed",
    "sizeof",
    "static",
    "struct",
    "switch",
    "typedef",
    "union",
    "unsigned",
    "void",
    "volatile",
    "while",
    "_Bool",
    "_Complex",
    "_Imaginary",
];

/// What else names nothing.
static OTHER_WORDS: [&str; 1] = ["abort"];

/// The functions of the prelude.
pub static PRELUDE_FUNCTIONS: [&str; 120] = [
    "bl_turn",
    "bl_ix_s",
    "bl_ix_u",
    "bl_trap",
    "bl_add_i8",
    "bl_add_i16",
    "bl_add_i32",
    "bl_add_i64",
    "bl_add_n8",
    "bl_add_n16",
    "bl_add_n32",
    "bl_add_n64",
    "bl_add_b8",
    "bl_add_b16",
    "bl_add_b32",
    "bl_add_b64",
    "bl_sub_i8",
    "bl_sub_i16",
    "bl_sub_i32",
    "bl_sub_i64",
    "bl_sub_n8",
    "bl_sub_n16",
    "bl_sub_n32",
    "bl_sub_n64",
    "bl_sub_b8",
    "bl_sub_b16",
    "bl_sub_b32",
    "bl_sub_b64",
    "bl_mul_i8",
    "bl_mul_i16",
    "bl_mul_i32",
    "bl_mul_i64",
    "bl_mul_n8",
    "bl_mul_n16",
    "bl_mul_n32",
    "bl_mul_n64",
    "bl_mul_b8",
    "bl_mul_b16",
    "bl_mul_b32",
    "bl_mul_b64",
    "bl_div_i8",
    "bl_div_i16",
    "bl_div_i32",
    "bl_div_i64",
    "bl_div_n8",
    "bl_div_n16",
    "bl_div_n32",
    "bl_div_n64",
    "bl_div_b8",
    "bl_div_b16",
    "bl_div_b32",
    "bl_div_b64",
    "bl_rem_i8",
    "bl_rem_i16",
    "bl_rem_i32",
    "bl_rem_i64",
    "bl_rem_n8",
    "bl_rem_n16",
    "bl_rem_n32",
    "bl_rem_n64",
    "bl_rem_b8",
    "bl_rem_b16",
    "bl_rem_b32",
    "bl_rem_b64",
    "bl_of_s_i8",
    "bl_of_s_i16",
    "bl_of_s_i32",
    "bl_of_s_i64",
    "bl_of_s_n8",
    "bl_of_s_n16",
    "bl_of_s_n32",
    "bl_of_s_n64",
    "bl_of_s_b8",
    "bl_of_s_b16",
    "bl_of_s_b32",
    "bl_of_s_b64",
    "bl_of_u_i8",
    "bl_of_u_i16",
    "bl_of_u_i32",
    "bl_of_u_i64",
    "bl_of_u_n8",
    "bl_of_u_n16",
    "bl_of_u_n32",
    "bl_of_u_n64",
    "bl_of_u_b8",
    "bl_of_u_b16",
    "bl_of_u_b32",
    "bl_of_u_b64",
    "bl_neg_i8",
    "bl_neg_i16",
    "bl_neg_i32",
    "bl_neg_i64",
    "bl_neg_b8",
    "bl_neg_b16",
    "bl_neg_b32",
    "bl_neg_b64",
    "bl_not_b8",
    "bl_not_b16",
    "bl_not_b32",
    "bl_not_b64",
    "bl_and_b8",
    "bl_and_b16",
    "bl_and_b32",
    "bl_and_b64",
    "bl_or_b8",
    "bl_or_b16",
    "bl_or_b32",
    "bl_or_b64",
    "bl_xor_b8",
    "bl_xor_b16",
    "bl_xor_b32",
    "bl_xor_b64",
    "bl_shl_b8",
    "bl_shl_b16",
    "bl_shl_b32",
    "bl_shl_b64",
    "bl_shr_b8",
    "bl_shr_b16",
    "bl_shr_b32",
    "bl_shr_b64",
];

pub static SCALAR_TYPES: [&str; 9] = [
    "bool", "int8_t", "int16_t", "int32_t", "int64_t", "uint8_t", "uint16_t", "uint32_t",
    "uint64_t",
];

/// The literals that are one word.
pub static PLAIN_LITERALS: [&str; 6] = [
    "true",
    "false",
    "INT8_MIN",
    "INT16_MIN",
    "INT32_MIN",
    "INT64_MIN",
];

pub static OPERATORS: [&str; 8] = ["==", "!=", "<", "<=", ">", ">=", "&&", "||"];

pub static INDEX_FUNCTIONS: [&str; 2] = ["bl_ix_s", "bl_ix_u"];

/// What may stand behind `struct` beside names.
pub static STRUCT_WORDS: [&str; 3] = ["bl_state", "bl_in", "bl_out"];

/// What may name a function beside names.
pub static FUNCTION_WORDS: [&str; 2] = ["bl_init", "bl_tick"];

/// Whether the word is one of these.
pub fn is_among(word: &[u8], words: &[&str]) -> bool
    ensures { result ≡ among word.now (map (λ known. known.now) words.now) }
{
    for known in words {
        if known.as_bytes() == word {
            return true;
        }
    }
    false
}

/// Whether all of the bytes may stand in words.
fn are_word_bytes(bytes: &[u8]) -> bool
    ensures { result ≡ all_of (map word_byte bytes.now) }
{
    for byte in bytes {
        if !is_word_byte(*byte) {
            return false;
        }
    }
    true
}

/// Whether all of the bytes are digits.
pub fn are_digits(bytes: &[u8]) -> bool
    ensures { result ≡ all_of (map is_ascii_digit bytes.now) }
{
    for byte in bytes {
        if !byte.is_ascii_digit() {
            return false;
        }
    }
    true
}

pub fn is_word(bytes: &[u8]) -> bool
    ensures { result ≡ is_c_word bytes.now }
{
    match bytes {
        [first, rest @ ..] => is_word_byte(*first) && are_word_bytes(rest),
        [] => false,
    }
}

fn is_digit_first(word: &[u8]) -> bool
    ensures { result ≡ begins_with_digit word.now }
{
    match word {
        [first, ..] => first.is_ascii_digit(),
        [] => false,
    }
}

/// Whether the second byte is a digit, as in most names of an emitted text. No reserved word has one there.
fn is_numbered(word: &[u8]) -> bool
    ensures { result ≡ is_numbered word.now }
{
    match word {
        [_, second, ..] => second.is_ascii_digit(),
        _ => false,
    }
}

/// Whether it is in no list of reserved words.
fn is_unlisted(word: &[u8]) -> bool
    ensures { result ≡ is_unreserved word.now }
{
    !is_among(word, &GRAMMAR_WORDS) && !is_among(word, &C_KEYWORDS) && !is_among(word, &OTHER_WORDS)
}

/// Whether it isn't reserved. The lists are looked through for few words alone.
#[tactic(auto, using(crate::proofs::ClassLemmas::numbered_is_unreserved))]
fn is_unreserved(word: &[u8]) -> bool
    ensures { result ≡ is_unreserved word.now }
{
    is_numbered(word) || is_unlisted(word)
}

pub fn is_name(word: &[u8]) -> bool
    ensures { result ≡ name word.now }
{
    is_word(word) && !is_digit_first(word) && !word.starts_with(b"bl_") && is_unreserved(word)
}

pub fn is_struct_name(word: &[u8]) -> bool
    ensures { result ≡ struct_name word.now }
{
    is_name(word) || is_among(word, &STRUCT_WORDS)
}

pub fn is_function_name(word: &[u8]) -> bool
    ensures { result ≡ function_name word.now }
{
    is_name(word) || is_among(word, &FUNCTION_WORDS)
}

pub fn is_callee(word: &[u8]) -> bool
    ensures { result ≡ callee word.now }
{
    is_name(word) || is_among(word, &PRELUDE_FUNCTIONS)
}

/// Whether it is `t` and one or more digits.
pub fn is_turn_name(word: &[u8]) -> bool
    ensures { result ≡ turn_name word.now }
{
    match word {
        [first, rest @ ..] => *first == b't' && is_word(rest) && are_digits(rest),
        [] => false,
    }
}
