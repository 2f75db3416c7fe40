//! The bytes of a reply.

ghost use Rattle.std.specs.Prelude.{◌≡◌, ◌≤◌, ◌++◌, length, IfOk};
ghost use Rattle.http_face.specs.Replies.{IsReply, reply_text, reply_head, reason_of, allow_line, close_line, memory_reply};

use crate::fixed_text::FixedText;
use crate::request::Allow;
use std::alloc::Global;
use std::marker::Model;
use tgap_model::{Memory, Text};

/// A reply: its status, the version that the connection reads after the request, the method that the path takes (where
/// another was used), whether the connection ends after it, and its body.
#[derive(Drop)]
pub struct Reply {
    pub status: u16,
    pub pin: u64,
    pub allow: Option<Allow>,
    pub close: bool,
    pub body: Text,
}

/// The bytes of a reply: its status line, its headers, an empty line and its body. Its status is one of the server's, and
/// it names a method exactly where that is 405. Memory is taken once, for the bytes and no more.
pub fn reply_bytes(alloc: Global, reply: &Reply) -> Result<Text, Memory>
    requires { IsReply reply.now }
    ensures { IfOk result (λ text. text ≡ reply_text reply.now) }
{
    let head = reply_head(
        reply.status,
        reply.pin,
        reply.allow,
        reply.close,
        reply.body.len(),
    );
    joined(alloc, head.as_slice(), reply.body.as_slice())
}

/// Two rows of bytes, one behind the other, in a text that has room for them and for no more.
fn joined(alloc: Global, first: &[u8], rest: &[u8]) -> Result<Text, Memory>
    ensures { IfOk result (λ text. text ≡ first.now ++ rest.now) }
{
    let mut bytes = Vec::with_capacity(alloc, first.len() + rest.len())?;
    bytes.extend_from_slice(first)?;
    bytes.extend_from_slice(rest)?;
    Ok(Text::from(bytes))
}

/// The head of a reply to a body of `size` bytes, with the empty line after it, for a body that is sent by itself.
pub fn head_bytes(
    alloc: Global,
    status: u16,
    pin: u64,
    allow: Option<Allow>,
    close: bool,
    size: usize,
) -> Result<Text, Memory>
    ensures { IfOk result (λ text. text ≡ reply_head status pin allow close size) }
{
    let head = reply_head(status, pin, allow, close, size);
    Text::from_slice(alloc, head.as_slice())
}

/// A reply of status 503, kept in an array so that it takes no memory.
#[derive(Drop)]
pub struct ShortReply {
    text: FixedText,
}

impl Model for ShortReply {
    ghost use Rattle.std.specs.Prelude.{List, ℕ};

    ghost Value = { List ℕ };

    ghost view = { λ reply. reply.text };
}

impl ShortReply {
    /// The bytes of the reply.
    pub fn bytes(&self) -> &[u8]
        ensures { result.now ≡ self.now }
    {
        self.text.as_slice()
    }
}

/// The reply where there was no memory to answer a request, by the version that the connection reads and whether it ends.
/// It takes no memory.
pub fn short_reply(pin: u64, close: bool) -> ShortReply
    ensures { result ≡ reply_text (memory_reply pin close) }
{
    let body = b"memory\n";
    let mut text = reply_head(503, pin, None, close, body.len());
    text.push(body);
    ShortReply { text }
}

/// The head of a reply to a body of this length, and the empty line after it.
fn reply_head(status: u16, pin: u64, allow: Option<Allow>, close: bool, size: usize) -> FixedText
    ensures text { result ≡ reply_head status pin allow close size }
    ensures short { length result ≤ 193 }
{
    let mut head = FixedText::new();
    head.push(b"HTTP/1.1 ");
    head.push_number(u64::from(status));
    head.push(b" ");
    head.push(reason_of(status).as_bytes());
    head.push(b"\r\nContent-Type: text/plain\r\nTgap-Version: ");
    head.push_number(pin);
    head.push(b"\r\n");
    head.push(allow_line(allow).as_bytes());
    head.push(close_line(close).as_bytes());
    head.push(b"Content-Length: ");
    head.push_number(size as u64);
    head.push(b"\r\n\r\n");
    head
}

/// What a status is called.
fn reason_of(status: u16) -> &'static str
    ensures text { result.now ≡ reason_of status }
    ensures short { length result.now ≤ 21 }
{
    match status {
        200 => "OK",
        400 => "Bad Request",
        404 => "Not Found",
        405 => "Method Not Allowed",
        409 => "Conflict",
        413 => "Content Too Large",
        422 => "Unprocessable Content",
        500 => "Internal Server Error",
        503 => "Service Unavailable",
        507 => "Insufficient Storage",
        _ => "",
    }
}

/// The header that names the method that the path takes.
fn allow_line(allow: Option<Allow>) -> &'static str
    ensures text { result.now ≡ allow_line allow }
    ensures short { length result.now ≤ 13 }
{
    match allow {
        Some(Allow::Get) => "Allow: GET\r\n",
        Some(Allow::Post) => "Allow: POST\r\n",
        None => "",
    }
}

/// The header that says that the connection ends.
fn close_line(close: bool) -> &'static str
    ensures text { result.now ≡ close_line close }
    ensures short { length result.now ≤ 19 }
{
    if close { "Connection: close\r\n" } else { "" }
}
