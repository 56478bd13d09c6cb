//! Messages written behind their headers.

ghost use Rattle.std.specs.Prelude.{◌≡◌, IfOk};
ghost use Rattle.serde_json.specs.View.{view};
ghost use Rattle.bl_lsp.specs.Written.{IsMessage, with_header};

use itoa::Buffer;
use serde_json::Value;
use std::alloc::{AllocError, Global};

/// The bytes of a message: a header with its content's length, and the content.
pub fn framed(alloc: Global, value: &Value) -> Result<Vec<u8>, AllocError>
    ensures { IfOk result (λ bytes. IsMessage (view value.now) bytes.items) }
{
    let content = value.to_vec(alloc)?;
    with_header(alloc, &content)
}

fn with_header(alloc: Global, content: &[u8]) -> Result<Vec<u8>, AllocError>
    ensures { IfOk result (λ bytes. bytes.items ≡ with_header content.now) }
{
    let mut bytes = Vec::from_slice(alloc, b"Content-Length: ")?;
    let mut buffer = Buffer::new();
    bytes.extend_from_slice(buffer.format(content.len()).as_bytes())?;
    bytes.extend_from_slice(b"\r\n\r\n")?;
    bytes.extend_from_slice(content)?;
    Ok(bytes)
}
