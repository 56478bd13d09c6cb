//! Documents, as a client opens, changes and closes them (Language Server Protocol 3.17, "Text Document Synchronization").

ghost use Rattle.std.specs.Prelude.{◌≡◌, IfOk, codes, option_map};
ghost use Rattle.serde_json.specs.Find.{pointer};
ghost use Rattle.serde_json.specs.View.{view};
ghost use Rattle.bl_lsp.specs.Documents.{changed_doc, changed_text, items_in, doc_from, doc_of, last_change, last_item, opened_doc, whole_text};

use crate::kind::{is_there, number_at, text_at};
use serde_json::Value;
use std::alloc::{AllocError, Global};

pub const URI: &str = "/params/textDocument/uri";

const VERSION: &str = "/params/textDocument/version";

const TEXT: &str = "/params/textDocument/text";

const CHANGES: &str = "/params/contentChanges";

/// A text of a client, by its name, with the client's number of its changes.
#[derive(Drop)]
pub struct Document {
    pub uri: String,
    pub version: i64,
    pub text: String,
}

/// The document that a message opens.
pub fn opened_doc(alloc: Global, message: &Value) -> Result<Option<Document>, AllocError>
    ensures { IfOk result (λ document. option_map doc_of document ≡ opened_doc (view message.now)) }
{
    document_from(
        alloc,
        text_at(message, URI),
        number_at(message, VERSION),
        text_at(message, TEXT),
    )
}

/// The document that a message changes, with its new text.
pub fn changed_doc(alloc: Global, message: &Value) -> Result<Option<Document>, AllocError>
    ensures { IfOk result (λ document. option_map doc_of document ≡ changed_doc (view message.now)) }
{
    document_from(
        alloc,
        text_at(message, URI),
        number_at(message, VERSION),
        changed_text(message),
    )
}

fn document_from(
    alloc: Global,
    uri: Option<&str>,
    version: Option<i64>,
    text: Option<&str>,
) -> Result<Option<Document>, AllocError>
    ensures { IfOk result (λ document. option_map doc_of document
        ≡ doc_from (option_map (λ s. s.now) uri.entry) version (option_map (λ s. s.now) text.entry)) }
{
    let Some(uri) = uri else {
        return Ok(None);
    };
    let Some(version) = version else {
        return Ok(None);
    };
    let Some(text) = text else {
        return Ok(None);
    };
    let uri = String::from_str(alloc, uri)?;
    let text = String::from_str(alloc, text)?;
    Ok(Some(Document { uri, version, text }))
}

/// The text that the last change of a message sets.
fn changed_text(message: &Value) -> Option<&str>
    ensures { option_map (λ s. s.now) result ≡ changed_text (view message.now) }
{
    match last_change(message) {
        Some(change) => whole_text(change),
        None => None,
    }
}

/// The text of a change of the whole.
fn whole_text(change: &Value) -> Option<&str>
    ensures { option_map (λ s. s.now) result ≡ whole_text (view change.now) }
{
    if is_there(change, "/range") {
        None
    } else {
        text_at(change, "/text")
    }
}

fn last_change(message: &Value) -> Option<&Value>
    ensures { option_map (λ v. view v.now) result ≡ last_change (view message.now) }
{
    match message.pointer(CHANGES) {
        Some(changes) => last_item(changes),
        None => None,
    }
}

fn last_item(changes: &Value) -> Option<&Value>
    ensures { option_map (λ v. view v.now) result ≡ last_item (view changes.now) }
{
    let count = items_in(changes);
    if count == 0 {
        return None;
    }
    changes.get(count - 1)
}

/// How many items an array has; none where it is something else.
#[tactic(auto, using(crate::proofs::Items::count_view))]
fn items_in(changes: &Value) -> usize
    ensures { result ≡ items_in (view changes.now) }
{
    match changes.as_array() {
        Some(items) => items.len(),
        None => 0,
    }
}
