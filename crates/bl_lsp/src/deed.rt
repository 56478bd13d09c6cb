//! What a message asks of the server.

ghost use Rattle.std.specs.Prelude.{◌≡◌, IfOk, codes, option_map, string_bytes};
ghost use Rattle.serde_json.specs.Find.{pointer};
ghost use Rattle.serde_json.specs.View.{view};
ghost use Rattle.bl_lsp.specs.Deeds.{answered, clearing, deed_of, judging, noticed, replied_with, todo_of, synchronized};
ghost use Rattle.bl_lsp.specs.Documents.{doc_of, uri_in};

use crate::documents::{Document, URI, changed_doc, opened_doc};
use crate::kind::{Kind, Notice, kind_of, notice_of, request_of, text_at};
use crate::phase::{Answer, Phase, answer_to};
use crate::replies::{Fault, capabilities, refusal, response};
use serde_json::Value;
use std::alloc::{AllocError, Global};

/// What the server does for a message.
#[derive(Drop)]
pub enum Deed {
    Nothing,
    /// Sends this.
    Reply(Value),
    /// Judges a text, and publishes what it found.
    Judge(Document),
    /// Publishes that nothing is found in the document of this name, which was closed.
    Clear(String),
    /// Ends the session.
    Leave,
}

/// What a message asks in a phase.
pub fn deed_of(alloc: Global, phase: Phase, message: &Value) -> Result<Deed, AllocError>
    ensures { IfOk result (λ deed. todo_of deed ≡ deed_of phase (view message.now)) }
{
    match kind_of(message) {
        Kind::Request => replied(alloc, answer_to(phase, request_of(message)), message),
        Kind::Notice => noticed(alloc, phase, notice_of(message), message),
        Kind::Answer => Ok(Deed::Nothing),
        Kind::Invalid => refused(alloc, message, Fault::InvalidRequest),
    }
}

fn refused(alloc: Global, message: &Value, fault: Fault) -> Result<Deed, AllocError>
    ensures { IfOk result (λ deed. todo_of deed ≡ answered (Answer.Refused fault) (pointer (codes "/id") (view message.now))) }
{
    Ok(Deed::Reply(refusal(alloc, message, fault)?))
}

fn replied(alloc: Global, answer: Answer, message: &Value) -> Result<Deed, AllocError>
    ensures { IfOk result (λ deed. todo_of deed ≡ answered answer (pointer (codes "/id") (view message.now))) }
{
    match answer {
        Answer::Capabilities => {
            let able = capabilities(alloc)?;
            answered_with(alloc, message, able)
        }
        Answer::Null => answered_with(alloc, message, Value::Null),
        Answer::Refused(fault) => refused(alloc, message, fault),
    }
}

fn answered_with(alloc: Global, message: &Value, outcome: Value) -> Result<Deed, AllocError>
    ensures { IfOk result (λ deed. todo_of deed ≡ replied_with (pointer (codes "/id") (view message.now)) (view outcome)) }
{
    match message.pointer("/id") {
        Some(id) => Ok(Deed::Reply(response(alloc, id, outcome)?)),
        None => Ok(Deed::Nothing),
    }
}

/// What a notification asks. Only `exit` counts in each phase.
fn noticed(alloc: Global, phase: Phase, notice: Notice, message: &Value) -> Result<Deed, AllocError>
    ensures { IfOk result (λ deed. todo_of deed ≡ noticed phase notice (view message.now)) }
{
    match notice {
        Notice::Exit => Ok(Deed::Leave),
        Notice::Other => Ok(Deed::Nothing),
        Notice::Open | Notice::Change | Notice::Close => match phase {
            Phase::Running => synchronized(alloc, notice, message),
            Phase::Fresh | Phase::Shut => Ok(Deed::Nothing),
        },
    }
}

fn synchronized(alloc: Global, notice: Notice, message: &Value) -> Result<Deed, AllocError>
    ensures { IfOk result (λ deed. todo_of deed ≡ synchronized notice (view message.now)) }
{
    match notice {
        Notice::Open => Ok(judging(opened_doc(alloc, message)?)),
        Notice::Change => Ok(judging(changed_doc(alloc, message)?)),
        Notice::Close => clearing(alloc, message),
        Notice::Exit | Notice::Other => Ok(Deed::Nothing),
    }
}

fn judging(document: Option<Document>) -> Deed
    ensures { todo_of result ≡ judging (option_map doc_of document) }
{
    match document {
        Some(document) => Deed::Judge(document),
        None => Deed::Nothing,
    }
}

fn clearing(alloc: Global, message: &Value) -> Result<Deed, AllocError>
    ensures { IfOk result (λ deed. todo_of deed ≡ clearing (uri_in (view message.now))) }
{
    match text_at(message, URI) {
        Some(uri) => Ok(Deed::Clear(String::from_str(alloc, uri)?)),
        None => Ok(Deed::Nothing),
    }
}
