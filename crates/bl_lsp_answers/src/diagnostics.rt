//! Failures as the protocol has them (Language Server Protocol 3.17, "PublishDiagnostics Notification").

ghost use Rattle.std.specs.Prelude.{◌≡◌, IfOk, map};
ghost use Rattle.serde_json.specs.View.{items_view, view};
ghost use Rattle.bl_lsp_answers.specs.Diagnostics.{assembled_data, cleared_data, diagnostic_data, position_data, published_data, range_data, related_data};
ghost use Rattle.bl_lsp_text.specs.Tables.{IsTable};

use crate::sentences::{further, sentence};
use bl_lsp::notice;
use bl_lsp_text::{Lines, Position};
use bl_tree::{Place, Rule};
use serde_json::{Value, json};
use std::alloc::{AllocError, Global};

const METHOD: &str = "textDocument/publishDiagnostics";

fn position_json(alloc: Global, position: Position) -> Result<Value, AllocError>
    ensures { IfOk result (λ v. view v ≡ position_data position) }
{
    json!(in alloc; {"character": position.character, "line": position.line})
}

fn range_json(alloc: Global, text: &[u8], lines: &Lines, place: Place) -> Result<Value, AllocError>
    requires { IsTable text.now lines.now.stands.items }
    ensures { IfOk result (λ v. view v ≡ range_data text.now place) }
{
    let end = position_json(alloc, lines.position(text, place.end as usize))?;
    let start = position_json(alloc, lines.position(text, place.start as usize))?;
    json!(in alloc; {"end": end, "start": start})
}

fn related_json(
    alloc: Global,
    uri: &str,
    text: &[u8],
    lines: &Lines,
    rule: Rule,
    place: Place,
) -> Result<Value, AllocError>
    requires { IsTable text.now lines.now.stands.items }
    ensures { IfOk result (λ v. view v ≡ related_data uri.now text.now rule place) }
{
    let range = range_json(alloc, text, lines, place)?;
    let location = json!(in alloc; {"range": range, "uri": uri})?;
    let told = further(rule);
    json!(in alloc; {"location": location, "message": told})
}

fn all_related(
    alloc: Global,
    uri: &str,
    text: &[u8],
    lines: &Lines,
    rule: Rule,
    places: &[Place],
) -> Result<Vec<Value>, AllocError>
    requires { IsTable text.now lines.now.stands.items }
    ensures { IfOk result (λ list. map view list.items ≡ map (related_data uri.now text.now rule) places.now) }
{
    let mut list = Vec::new(alloc);
    for place in places {
        let related = related_json(alloc, uri, text, lines, rule, *place)?;
        list.push(related)?;
    }
    Ok(list)
}

/// A rule that fails at a place of a text.
pub fn diagnostic(
    alloc: Global,
    uri: &str,
    text: &[u8],
    rule: Rule,
    place: Place,
    also: &[Place],
) -> Result<Value, AllocError>
    ensures { IfOk result (λ v. view v ≡ diagnostic_data uri.now text.now rule place also.now) }
{
    let lines = Lines::of(alloc, text)?;
    let range = range_json(alloc, text, &lines, place)?;
    let related = all_related(alloc, uri, text, &lines, rule, also)?;
    assembled(alloc, rule, range, related)
}

fn assembled(
    alloc: Global,
    rule: Rule,
    range: Value,
    related: Vec<Value>,
) -> Result<Value, AllocError>
    ensures { IfOk result (λ v. view v ≡ assembled_data rule (view range) (items_view related.items)) }
{
    let told = sentence(rule);
    let number = rule.number();
    json!(in alloc; {
        "code": number,
        "message": told,
        "range": range,
        "relatedInformation": related,
        "severity": 1u64,
        "source": "blechc"
    })
}

/// The notification of what was found in a text.
pub fn published(
    alloc: Global,
    uri: &str,
    version: i64,
    found: Vec<Value>,
) -> Result<Value, AllocError>
    ensures { IfOk result (λ v. view v ≡ published_data uri.now version (items_view found.items)) }
{
    let params = json!(in alloc; {"diagnostics": found, "uri": uri, "version": version})?;
    notice(alloc, METHOD, params)
}

/// The notification that nothing is found in a document that was closed.
pub fn cleared(alloc: Global, uri: &str) -> Result<Value, AllocError>
    ensures { IfOk result (λ v. view v ≡ cleared_data uri.now) }
{
    let none: Vec<Value> = Vec::new(alloc);
    let params = json!(in alloc; {"diagnostics": none, "uri": uri})?;
    notice(alloc, METHOD, params)
}
