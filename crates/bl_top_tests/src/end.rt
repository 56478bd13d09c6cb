//! What a call is to come to.

use crate::call::{Answer, Case, answer_of};
use std::alloc::Global;
use std::test::Fail;

/// The status, the line on `notes` and all that stands on `out`.
#[derive(Clone, Copy)]
pub struct End {
    pub status: u8,
    pub line: &'static str,
    pub out: &'static str,
}

impl End {
    pub fn is_end_of(&self, answer: &Answer) -> bool {
        answer.status == self.status
            && answer.notes.held() == self.line.as_bytes()
            && answer.out.held() == self.out.as_bytes()
    }
}

/// Whether a call comes to this end.
pub fn ends(alloc: Global, case: &Case, end: &End) -> Result<bool, Fail> {
    let answer = answer_of(alloc, case)?;
    Ok(end.is_end_of(&answer))
}
