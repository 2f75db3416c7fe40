//! What is answered from a version of a map.

ghost use Rattle.std.specs.Prelude.{◌≡◌, ◌∷◌, [], IfOk};
ghost use Rattle.line_forms.specs.Texts.{line};
ghost use Rattle.http_face.specs.declared.head.TheConstants.{CONTENT_TOO_LARGE};
ghost use Rattle.http_face.specs.Replies.{IsReply, reply_text};
ghost use Rattle.session.specs.Answers.{IsAnswer, plain, numbered, bad_number, fault_answer};
ghost use Rattle.session.specs.Outcomes.{sent};

use crate::sending::Sending;
use http_face::{Allow, CONTENT_TOO_LARGE, Reply};
use plain_io::put_field;
use std::alloc::Global;
use tgap_model::{Memory, Text};

/// A reply, but for what the connection adds to it: the version that is pinned, and whether the connection ends.
#[derive(Drop)]
pub(crate) struct Answer {
    pub status: u16,
    pub allow: Option<Allow>,
    pub body: Text,
}

/// An answer that names no method.
pub(crate) fn plain(status: u16, body: Text) -> Answer
    ensures { result ≡ plain status body }
{
    Answer {
        status,
        allow: None,
        body,
    }
}

/// A line.
pub(crate) fn line(alloc: Global, words: &[u8]) -> Result<Text, Memory>
    ensures { IfOk result (λ text. text ≡ line (words.now ∷ [])) }
{
    let mut text = Text::from_slice(alloc, words)?;
    text.push_slice(b"\n")?;
    Ok(text)
}

/// A line that ends in a number.
pub(crate) fn numbered_line(alloc: Global, phrase: &[u8], number: u64) -> Result<Text, Memory>
    ensures { IfOk result (λ text. text ≡ line (numbered phrase.now number)) }
{
    let mut text = Text::from_slice(alloc, phrase)?;
    put_field(alloc, &mut text, i128::from(number))?;
    text.push_slice(b"\n")?;
    Ok(text)
}

/// The answer to a number out of form, and to a window whose ends are out of order.
pub(crate) fn bad_number(alloc: Global) -> Result<Answer, Memory>
    ensures exact { IfOk result (λ a. a ≡ bad_number) }
    ensures sendable { IfOk result IsAnswer }
{
    Ok(plain(400, line(alloc, b"bad number")?))
}

/// The answer to a head at fault, by the status.
pub(crate) fn fault_answer(alloc: Global, status: u16) -> Result<Answer, Memory>
    ensures exact { IfOk result (λ a. a ≡ fault_answer status) }
    ensures sendable { IfOk result IsAnswer }
{
    if status == CONTENT_TOO_LARGE {
        Ok(plain(status, line(alloc, b"too long")?))
    } else {
        Ok(plain(400, line(alloc, b"bad request")?))
    }
}

/// The reply of an answer, with what the connection adds to it.
pub(crate) fn reply_of(answer: Answer, pin: u64, close: bool) -> Reply
    requires { IsAnswer answer }
    ensures text { reply_text result ≡ sent pin close answer }
    ensures sendable { IsReply result }
{
    Reply {
        status: answer.status,
        pin,
        allow: answer.allow,
        close,
        body: answer.body,
    }
}

/// The bytes of a reply that is not kept. A long body is not copied.
pub(crate) fn sent(alloc: Global, answer: Answer, pin: u64, close: bool) -> Result<Sending, Memory>
    requires { IsAnswer answer }
    ensures { IfOk result (λ sending. sending ≡ sent pin close answer) }
{
    Sending::of(alloc, reply_of(answer, pin, close))
}
