//! What a message is (JSON-RPC 2.0, and Language Server Protocol 3.17, "Base Protocol").

ghost use Rattle.std.specs.Prelude.{◌≡◌, codes, is_some, option_and_then, option_map};
ghost use Rattle.serde_json.specs.Find.{as_i64, as_number, pointer};
ghost use Rattle.serde_json.specs.View.{view};
ghost use Rattle.bl_lsp.specs.Kinds.{is_id, kind_named, kind_of, kind_unnamed, notice_named, notice_of, request_named, request_of, says_at, text_at};

use serde_json::Value;

#[derive(Clone, Copy, PartialEq, Eq, Debug)]
pub enum Kind {
    /// It has a method and an id.
    Request,
    /// It has a method and no id.
    Notice,
    /// It answers a request of the server.
    Answer,
    /// It is none of these.
    Invalid,
}

/// Requests that the server knows.
#[derive(Clone, Copy, PartialEq, Eq, Debug)]
pub enum Request {
    Initialize,
    Shutdown,
    Other,
}

/// Notifications that the server knows.
#[derive(Clone, Copy, PartialEq, Eq, Debug)]
pub enum Notice {
    Exit,
    Open,
    Change,
    Close,
    Other,
}

/// What stands at a path, if it is a text.
pub fn text_at<'a>(message: &'a Value, path: &str) -> Option<&'a str>
    ensures { option_map (λ s. s.now) result ≡ text_at path.now (view message.now) }
{
    match message.pointer(path) {
        Some(value) => value.as_str(),
        None => None,
    }
}

/// What stands at a path, if it is a whole number of 64 bits.
pub fn number_at(message: &Value, path: &str) -> Option<i64>
    ensures { result ≡ option_and_then as_i64 (option_and_then as_number (pointer path.now (view message.now))) }
{
    match message.pointer(path) {
        Some(value) => value.as_i64(),
        None => None,
    }
}

/// Whether anything stands at a path.
pub fn is_there(message: &Value, path: &str) -> bool
    ensures { result ≡ is_some (pointer path.now (view message.now)) }
{
    match message.pointer(path) {
        Some(_) => true,
        None => false,
    }
}

fn says_at(message: &Value, path: &str, word: &str) -> bool
    ensures { result ≡ says_at path.now word.now (view message.now) }
{
    match text_at(message, path) {
        Some(text) => text == word,
        None => false,
    }
}

pub fn kind_of(message: &Value) -> Kind
    ensures { result ≡ kind_of (view message.now) }
{
    if !says_at(message, "/jsonrpc", "2.0") {
        Kind::Invalid
    } else if is_there(message, "/method") {
        kind_named(message)
    } else {
        kind_unnamed(message)
    }
}

/// What a message with a method is.
fn kind_named(message: &Value) -> Kind
    ensures { result ≡ kind_named (view message.now) }
{
    if text_at(message, "/method").is_none() {
        Kind::Invalid
    } else if !is_there(message, "/id") {
        Kind::Notice
    } else if has_id(message) {
        Kind::Request
    } else {
        Kind::Invalid
    }
}

/// What a message without a method is.
fn kind_unnamed(message: &Value) -> Kind
    ensures { result ≡ kind_unnamed (view message.now) }
{
    if is_there(message, "/result") || is_there(message, "/error") {
        Kind::Answer
    } else {
        Kind::Invalid
    }
}

/// Whether a message has an id by which it can be answered.
pub fn has_id(message: &Value) -> bool
    ensures { result ≡ is_id (pointer (codes "/id") (view message.now)) }
{
    match message.pointer("/id") {
        Some(id) => id.is_string() || id.is_i64() || id.is_u64(),
        None => false,
    }
}

/// The request that a message makes.
pub fn request_of(message: &Value) -> Request
    ensures { result ≡ request_of (view message.now) }
{
    match text_at(message, "/method") {
        Some(name) => request_named(name),
        None => Request::Other,
    }
}

fn request_named(name: &str) -> Request
    ensures { result ≡ request_named name.now }
{
    if name == "initialize" {
        Request::Initialize
    } else if name == "shutdown" {
        Request::Shutdown
    } else {
        Request::Other
    }
}

/// What a message notifies of.
pub fn notice_of(message: &Value) -> Notice
    ensures { result ≡ notice_of (view message.now) }
{
    match text_at(message, "/method") {
        Some(name) => notice_named(name),
        None => Notice::Other,
    }
}

fn notice_named(name: &str) -> Notice
    ensures { result ≡ notice_named name.now }
{
    if name == "exit" {
        Notice::Exit
    } else if name == "textDocument/didOpen" {
        Notice::Open
    } else if name == "textDocument/didChange" {
        Notice::Change
    } else if name == "textDocument/didClose" {
        Notice::Close
    } else {
        Notice::Other
    }
}
