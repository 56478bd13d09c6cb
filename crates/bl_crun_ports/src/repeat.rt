//! Parts of a list that are put behind it once more.

ghost use Rattle.std.specs.Prelude.{◌≡◌, [], ◌∷◌, ◌++◌, ◌+◌, ◌≤◌, OnOk, length};
ghost use Rattle.bl_crun_ports.specs.inner.Spans.{at_span, repeated};

use bl_tree::{NoMemory, Scalar};

/// Where a part of a list begins, and how long it is.
#[derive(Clone, Copy)]
pub struct Span {
    pub start: usize,
    pub len: usize,
}

pub fn push(kinds: &mut Vec<Scalar>, kind: Scalar) -> Result<(), NoMemory>
    ensures { OnOk result (kinds.new.items ≡ kinds.old.items ++ kind ∷ []) }
{
    match kinds.push(kind) {
        Ok(()) => Ok(()),
        Err(_) => Err(NoMemory),
    }
}

/// Puts a part behind the list.
pub fn push_part(kinds: &mut Vec<Scalar>, part: Span) -> Result<(), NoMemory>
    requires { part.start + part.len ≤ length kinds.old.items }
    ensures { OnOk result (kinds.new.items ≡ kinds.old.items ++ at_span part kinds.old.items) }
{
    for k in 0..part.len {
        let kind = kinds[part.start + k];
        push(kinds, kind)?;
    }
    Ok(())
}

/// Puts a part behind the list so many times.
pub fn push_times(kinds: &mut Vec<Scalar>, part: Span, times: u32) -> Result<(), NoMemory>
    requires { part.start + part.len ≤ length kinds.old.items }
    ensures { OnOk result (kinds.new.items ≡ kinds.old.items ++ repeated times (at_span part kinds.old.items)) }
{
    for _turn in 0..times {
        push_part(kinds, part)?;
    }
    Ok(())
}
