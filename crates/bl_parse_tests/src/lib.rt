//! Tests of `bl_lex` and `bl_parse` for what no command shows: tokens and trees of texts (docs/LANGUAGE.md, "Tokens"
//! and "Raw trees").
#![tactic(auto)]

#[cfg(test)]
mod tokens;
#[cfg(test)]
mod trees;
