//! Messages that the server sends (JSON-RPC 2.0).

ghost use Rattle.std.specs.Prelude.{◌≡◌, IfOk, codes};
ghost use Rattle.serde_json.specs.Data.{array, null};
ghost use Rattle.serde_json.specs.Find.{pointer};
ghost use Rattle.serde_json.specs.View.{view};
ghost use Rattle.bl_lsp.specs.Replies.{capabilities, code_of, error_data, id_or_null, notice_data, refusal_data, response_data, text_of};

use crate::kind::has_id;
use serde_json::{Value, json};
use std::alloc::{AllocError, Global};

/// Why a message is refused.
#[derive(Clone, Copy, PartialEq, Eq, Debug)]
pub enum Fault {
    /// It is no JSON.
    ParseError,
    /// It is none of the protocol, or comes out of turn.
    InvalidRequest,
    MethodNotFound,
    NotInitialized,
}

impl Fault {
    /// The protocol's number of it.
    pub fn code(self) -> i64
        ensures { result ≡ code_of self }
    {
        match self {
            Fault::ParseError => -32700,
            Fault::InvalidRequest => -32600,
            Fault::MethodNotFound => -32601,
            Fault::NotInitialized => -32002,
        }
    }

    pub fn text(self) -> &'static str
        ensures { result.now ≡ text_of self }
    {
        match self {
            Fault::ParseError => "parse error",
            Fault::InvalidRequest => "invalid request",
            Fault::MethodNotFound => "method not found",
            Fault::NotInitialized => "server not initialized",
        }
    }
}

/// What the server can do.
pub fn capabilities(alloc: Global) -> Result<Value, AllocError>
    ensures { IfOk result (λ v. view v ≡ capabilities) }
{
    json!(in alloc; {
        "capabilities": {
            "positionEncoding": "utf-16",
            "textDocumentSync": {"change": 1u64, "openClose": true}
        },
        "serverInfo": {"name": "blech_ls"}
    })
}

/// The answer with a result.
pub fn response(alloc: Global, id: &Value, outcome: Value) -> Result<Value, AllocError>
    ensures { IfOk result (λ v. view v ≡ response_data (view id.now) (view outcome)) }
{
    json!(in alloc; {"id": id, "jsonrpc": "2.0", "result": outcome})
}

/// The answer with an error.
fn refusal_by(alloc: Global, id: &Value, fault: Fault) -> Result<Value, AllocError>
    ensures { IfOk result (λ v. view v ≡ refusal_data (view id.now) fault) }
{
    let code = fault.code();
    let text = fault.text();
    let error = json!(in alloc; {"code": code, "message": text})?;
    json!(in alloc; {"error": error, "id": id, "jsonrpc": "2.0"})
}

/// The answer to a message that is refused, with its id if it has one.
pub fn refusal(alloc: Global, message: &Value, fault: Fault) -> Result<Value, AllocError>
    ensures { IfOk result (λ v. view v ≡ refusal_data (id_or_null (pointer (codes "/id") (view message.now))) fault) }
{
    if !has_id(message) {
        return refusal_by(alloc, &Value::Null, fault);
    }
    match message.pointer("/id") {
        Some(id) => refusal_by(alloc, id, fault),
        None => refusal_by(alloc, &Value::Null, fault),
    }
}

/// The answer to what is no JSON.
pub fn garbled(alloc: Global) -> Result<Value, AllocError>
    ensures { IfOk result (λ v. view v ≡ refusal_data null Fault.ParseError) }
{
    refusal_by(alloc, &Value::Null, Fault::ParseError)
}

/// A notification of the server.
pub fn notice(alloc: Global, method: &str, params: Value) -> Result<Value, AllocError>
    ensures { IfOk result (λ v. view v ≡ notice_data method.now (view params)) }
{
    json!(in alloc; {"jsonrpc": "2.0", "method": method, "params": params})
}
