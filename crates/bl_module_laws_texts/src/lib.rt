//! Laws of joined texts that can each be read by itself. Lemmas only. For the joined text no rule from Lex to Syntax fails (`OnlySizeFails`,
//! `JoinedTokensPass` in `specs/Laws.antt`), and its tokens spell a tree (`JoinedTextsParse`). If the texts are files that are good one behind
//! another, no rule but Size, Frames and Cells fails for it (`GoodFilesFailLimitsAlone`).
#![tactic(auto)]

pub mod texts;
