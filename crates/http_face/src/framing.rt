//! What the headers of a request say of its body and of the connection.

ghost use Rattle.std.specs.Prelude.{◌≡◌, ◌≤◌, ◌==◌, IsTrue, length, reverse, codes};
ghost use Rattle.std.specs.List.{list_any, list_all, slice_split};
ghost use Rattle.std.specs.Char.{is_ascii_digit};
ghost use Rattle.std.specs.Str.Parse.{digits_value};
ghost use Rattle.httparse.specs.Grammar.{is_ows, skip_ows};
ghost use Rattle.httparse.specs.Spans.{span_bytes, header_bytes};
ghost use Rattle.http_face.specs.Heads.{is_named, is_length, body_of, body_of_value, body_of_values, values_of, closes, asks_to_close, is_close};
ghost use Rattle.http_face.specs.Found.{headers_at};

use crate::head::{BAD_REQUEST, CONTENT_TOO_LARGE, MAX_BODY_BYTES, MAX_HEADERS};
use httparse::spans::{HeaderSpan, Span};
use plain_io::Pieces;

/// How many bytes the body has, by the headers, or the status of what is wrong with them.
pub(crate) fn body_of(bytes: &[u8], headers: &[HeaderSpan]) -> Result<u32, u16>
    requires { length headers.now ≤ MAX_HEADERS }
    ensures { result ≡ body_of (headers_at bytes.now headers.now) }
{
    if has_encoding(bytes, headers) {
        return Err(BAD_REQUEST);
    }
    body_of_lengths(bytes, headers)
}

/// Whether a header names a transfer encoding.
fn has_encoding(bytes: &[u8], headers: &[HeaderSpan]) -> bool
    ensures { result ≡ list_any (λ header. is_named (codes "transfer-encoding") (header_bytes bytes.now header)) headers.now }
{
    headers
        .iter()
        .any(|header| is_named(bytes, header, b"transfer-encoding"))
}

/// How many bytes the body has, by the headers that give a length: none is a length of 0, and two are a fault.
fn body_of_lengths(bytes: &[u8], headers: &[HeaderSpan]) -> Result<u32, u16>
    ensures { result ≡ body_of_values (values_of (codes "content-length") (headers_at bytes.now headers.now)) }
{
    let mut found = None;
    for header in headers {
        if is_named(bytes, header, b"content-length") {
            if found.is_some() {
                return Err(BAD_REQUEST);
            }
            found = Some(bytes_of(bytes, header.value));
        }
    }
    match found {
        Some(value) => body_of_value(value),
        None => Ok(0),
    }
}

/// How many bytes the body has, by the one length that is given, or the status of what is wrong with it.
fn body_of_value(value: &[u8]) -> Result<u32, u16>
    ensures { result ≡ body_of_value value.now }
{
    if !is_length(value) {
        return Err(BAD_REQUEST);
    }
    let length = number_of(value);
    if length > u64::from(MAX_BODY_BYTES) {
        Err(CONTENT_TOO_LARGE)
    } else {
        Ok(length as u32)
    }
}

/// Whether the value is one to ten decimal digits.
fn is_length(value: &[u8]) -> bool
    ensures { result ≡ is_length value.now }
{
    let count = value.len();
    1 <= count && count <= 10 && are_digits(value)
}

/// Whether each byte is a decimal digit.
fn are_digits(value: &[u8]) -> bool
    ensures { result ≡ list_all is_ascii_digit value.now }
{
    value.iter().all(|byte| byte.is_ascii_digit())
}

/// The number that at most ten digits spell.
fn number_of(digits: &[u8]) -> u64
    requires { IsTrue (is_length digits.now) }
    ensures { result ≡ digits_value 10 digits.now }
{
    let mut number = 0;
    for digit in digits {
        number = number * 10 + u64::from(*digit - b'0');
    }
    number
}

/// Whether the connection ends after the reply.
pub(crate) fn closes(bytes: &[u8], minor: u8, headers: &[HeaderSpan]) -> bool
    ensures { result ≡ closes minor (headers_at bytes.now headers.now) }
{
    minor == 0 || any_asks_to_close(bytes, headers)
}

/// Whether a header asks that the connection ends.
fn any_asks_to_close(bytes: &[u8], headers: &[HeaderSpan]) -> bool
    ensures { result ≡ list_any (λ header. asks_to_close (header_bytes bytes.now header)) headers.now }
{
    headers.iter().any(|header| asks_to_close(bytes, header))
}

/// Whether this header asks it.
fn asks_to_close(bytes: &[u8], header: &HeaderSpan) -> bool
    ensures { result ≡ asks_to_close (header_bytes bytes.now header.now) }
{
    is_named(bytes, header, b"connection") && has_close(bytes_of(bytes, header.value))
}

/// Whether a member of the list is the word close.
fn has_close(value: &[u8]) -> bool
    ensures { result ≡ list_any is_close (slice_split (λ b. b == 44) value.now) }
{
    let mut members = Pieces::split(value, b',');
    while let Some(member) = members.next_piece() {
        if is_close(member) {
            return true;
        }
    }
    false
}

/// Whether the member is the word close.
#[tactic(auto, unfolding(httparse::specs::Grammar::trim_ows))]
fn is_close(member: &[u8]) -> bool
    ensures { result ≡ is_close member.now }
{
    trim_end(trim_start(member)).eq_ignore_ascii_case(b"close")
}

/// The bytes from the first that is no space or tab.
fn trim_start(bytes: &[u8]) -> &[u8]
    ensures { result.now ≡ skip_ows bytes.now }
{
    for at in 0..bytes.len() {
        if !is_blank(bytes[at]) {
            return &bytes[at..];
        }
    }
    &[]
}

/// The bytes up to the last that is no space or tab.
fn trim_end(bytes: &[u8]) -> &[u8]
    ensures { result.now ≡ reverse (skip_ows (reverse bytes.now)) }
{
    let mut end = bytes.len();
    while end > 0 && is_blank(bytes[end - 1]) {
        end -= 1;
    }
    &bytes[..end]
}

/// Whether the byte is a space or a tab.
fn is_blank(byte: u8) -> bool
    ensures { result ≡ is_ows byte }
{
    byte == b' ' || byte == b'\t'
}

/// Whether the header has this name, whatever the case of its ASCII letters.
fn is_named(bytes: &[u8], header: &HeaderSpan, name: &[u8]) -> bool
    ensures { result ≡ is_named name.now (header_bytes bytes.now header.now) }
{
    bytes_of(bytes, header.name).eq_ignore_ascii_case(name)
}

/// The bytes of a span; those that it has past the end are left out.
pub(crate) fn bytes_of(bytes: &[u8], span: Span) -> &[u8]
    ensures { result.now ≡ span_bytes bytes.now span }
{
    let end = span.end.min(bytes.len());
    &bytes[span.start.min(end)..end]
}
