//! Messages of the client, each with what is sent for it.

ghost use Rattle.std.specs.Prelude.{◌≡◌, IfOk};
ghost use Rattle.serde_json.specs.View.{view};
ghost use Rattle.bl_lsp.specs.Deeds.{deed_of, phase_after, todo_of};
ghost use Rattle.bl_lsp_session.specs.Answers.{Does};
ghost use Rattle.bl_lsp_session.specs.inner.Heard.{IsHeard, leaves};

use crate::judging::judged;
use bl_lsp::{Deed, Phase, deed_of, framed, garbled, phase_after};
use bl_lsp_answers::cleared;
use serde_json::Value;
use std::alloc::{AllocError, Global};

/// What came of a message.
#[derive(Drop)]
pub struct Heard {
    /// The bytes that are sent.
    pub sent: Vec<u8>,
    /// How far the session has come.
    pub phase: Phase,
    /// Whether the client leaves.
    pub left: bool,
}

/// Hears the content of a message. Fails only for want of memory.
pub fn hear(alloc: Global, phase: Phase, content: &[u8]) -> Result<Heard, AllocError>
    ensures { IfOk result (λ heard. IsHeard phase content.now heard) }
{
    match Value::from_slice(alloc, content) {
        Ok(message) => hear_message(alloc, phase, &message),
        Err(error) => {
            if error.is_memory() {
                return Err(AllocError);
            }
            let refusal = garbled(alloc)?;
            let sent = framed(alloc, &refusal)?;
            Ok(Heard {
                sent,
                phase,
                left: false,
            })
        }
    }
}

fn hear_message(alloc: Global, phase: Phase, message: &Value) -> Result<Heard, AllocError>
    ensures sent { IfOk result (λ heard. Does (deed_of phase (view message.now)) heard.sent.items) }
    ensures phase { IfOk result (λ heard. heard.phase ≡ phase_after phase (view message.now)) }
    ensures left { IfOk result (λ heard. heard.left ≡ leaves (deed_of phase (view message.now))) }
{
    let deed = deed_of(alloc, phase, message)?;
    let sent = done(alloc, &deed)?;
    Ok(Heard {
        sent,
        phase: phase_after(phase, message),
        left: leaves(&deed),
    })
}

/// Whether the session ends.
fn leaves(deed: &Deed) -> bool
    ensures { result ≡ leaves (todo_of deed.now) }
{
    matches!(deed, Deed::Leave)
}

/// The bytes that are sent for a deed.
fn done(alloc: Global, deed: &Deed) -> Result<Vec<u8>, AllocError>
    ensures { IfOk result (λ bytes. Does (todo_of deed.now) bytes.items) }
{
    match deed {
        Deed::Nothing | Deed::Leave => Ok(Vec::new(alloc)),
        Deed::Reply(value) => framed(alloc, value),
        Deed::Judge(document) => {
            let value = judged(alloc, document)?;
            framed(alloc, &value)
        }
        Deed::Clear(uri) => {
            let value = cleared(alloc, uri.as_str())?;
            framed(alloc, &value)
        }
    }
}
