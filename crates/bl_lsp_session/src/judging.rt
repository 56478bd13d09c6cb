//! Texts judged by the compiler.

ghost use Rattle.std.specs.Prelude.{◌≡◌, IfOk, string_bytes};
ghost use Rattle.serde_json.specs.View.{items_view, view};
ghost use Rattle.bl_lsp_answers.specs.Diagnostics.{published_data};
ghost use Rattle.bl_lsp_session.specs.Answers.{IsPublished};
ghost use Rattle.bl_lsp_session.specs.Found.{Found};
ghost use Rattle.bl_lsp.specs.Documents.{doc_of};
ghost use Rattle.bl_rules.specs.Rules.{Fails};
ghost use Rattle.bl_tree.specs.Rules.{IsCause};
ghost use Rattle.serde_json.specs.Data.{item, no_items};

use bl_lsp::Document;
use bl_lsp_answers::{diagnostic, published};
use bl_rules::accept;
use bl_tree::Refusal;
use serde_json::Value;
use std::alloc::{AllocError, Global};

/// What is found in a text. Fails only for want of memory.
fn found(alloc: Global, uri: &str, text: &[u8]) -> Result<Vec<Value>, AllocError>
    ensures { IfOk result (λ list. Found uri.now text.now (items_view list.items)) }
{
    match accept(alloc, text) {
        Ok(_) => Ok(Vec::new(alloc)),
        Err(refusal) => told(alloc, uri, text, &refusal),
    }
}

fn told(alloc: Global, uri: &str, text: &[u8], refusal: &Refusal) -> Result<Vec<Value>, AllocError>
    requires { IsCause (Fails text.now) refusal.now }
    ensures { IfOk result (λ list. Found uri.now text.now (items_view list.items)) }
{
    match refusal {
        Refusal::Rule { rule, place, also } => {
            let failing = diagnostic(alloc, uri, text, *rule, *place, also)?;
            alone(alloc, failing)
        }
        Refusal::NoMemory => Err(AllocError),
    }
}

fn alone(alloc: Global, value: Value) -> Result<Vec<Value>, AllocError>
    ensures { IfOk result (λ list. items_view list.items ≡ item (view value) no_items) }
{
    let mut list = Vec::new(alloc);
    list.push(value)?;
    Ok(list)
}

/// What is published of a document.
pub fn judged(alloc: Global, document: &Document) -> Result<Value, AllocError>
    ensures { IfOk result (λ v. IsPublished (doc_of document.now) (view v)) }
{
    let found = found(alloc, document.uri.as_str(), document.text.as_bytes())?;
    notified(alloc, document, found)
}

/// The notification of what was found in a document.
fn notified(alloc: Global, document: &Document, found: Vec<Value>) -> Result<Value, AllocError>
    ensures { IfOk result (λ v. view v ≡ published_data (string_bytes document.now.uri) document.now.version (items_view found.items)) }
{
    let version = document.version;
    published(alloc, document.uri.as_str(), version, found)
}
