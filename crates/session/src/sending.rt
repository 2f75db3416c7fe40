//! The bytes of a reply, on their way to a link.

ghost use Rattle.std.specs.Prelude.{◌≡◌, ◌++◌, IfOk};
ghost use Rattle.plain_io.specs.Puts.{Puts, CountsPut};
ghost use Rattle.http_face.specs.Replies.{IsReply, reply_text};

use crate::shared_text::SharedText;
use http_face::{Reply, head_bytes, reply_bytes};
use plain_io::{Failed, Link};
use std::alloc::Global;
use std::marker::Model;
use tgap_model::{Memory, Text};

/// A body of at most so many bytes is put together with its head, since a copy of it costs less than a further call.
const COPIED_AT_MOST: usize = 8_192;

/// What holds the bytes of a reply.
#[derive(Drop)]
pub(crate) enum Holder {
    /// A text that is kept, and that others may be sending too.
    Kept(SharedText),
    /// A text of this reply alone.
    Whole(Text),
    /// A head, and the body that is put behind it.
    Parts { head: Text, body: Text },
}

/// The bytes of a reply.
#[derive(Drop)]
pub(crate) struct Sending {
    holder: Holder,
}

impl Model for Sending {
    ghost use Rattle.std.specs.Prelude.{List, ℕ};
    ghost use Rattle.session.specs.Sendings.{bytes_of};

    ghost Value = { List ℕ };

    ghost view = { λ sending. bytes_of sending.holder };
}

impl Sending {
    /// A reply that is kept.
    pub(crate) fn kept(text: SharedText) -> Sending
        ensures { result ≡ text }
    {
        Sending {
            holder: Holder::Kept(text),
        }
    }

    /// A whole reply.
    pub(crate) fn whole(text: Text) -> Sending
        ensures { result ≡ text }
    {
        Sending {
            holder: Holder::Whole(text),
        }
    }

    /// A reply that is not kept. A long body is not copied.
    pub(crate) fn of(alloc: Global, reply: Reply) -> Result<Sending, Memory>
        requires { IsReply reply }
        ensures { IfOk result (λ sending. sending ≡ reply_text reply) }
    {
        if reply.body.len() > COPIED_AT_MOST {
            Sending::in_parts(alloc, reply)
        } else {
            Ok(Sending::whole(reply_bytes(alloc, &reply)?))
        }
    }

    /// A reply of which the body is put by itself.
    fn in_parts(alloc: Global, reply: Reply) -> Result<Sending, Memory>
        ensures { IfOk result (λ sending. sending ≡ reply_text reply) }
    {
        let Reply {
            status,
            pin,
            allow,
            close,
            body,
        } = reply;
        let head = head_bytes(alloc, status, pin, allow, close, body.len())?;
        Ok(Sending {
            holder: Holder::Parts { head, body },
        })
    }

    /// Puts the bytes, in order.
    pub(crate) fn put<L: Link>(&self, link: &mut L) -> Result<(), Failed>
        ensures bytes { Puts (L.told link.old) (L.told link.new) self.now result }
        ensures faults { CountsPut result (L.put_faults link.old) (L.put_faults link.new) }
        ensures taken { L.taken link.new ≡ L.taken link.old }
        ensures take_faults { L.take_faults link.new ≡ L.take_faults link.old }
        ensures end { L.ended link.new ≡ L.ended link.old }
    {
        match &self.holder {
            Holder::Kept(text) => link.put(text.as_slice()),
            Holder::Whole(text) => link.put(text.as_slice()),
            Holder::Parts { head, body } => put_both(link, head.as_slice(), body.as_slice()),
        }
    }
}

/// Puts two rows of bytes, one after the other.
fn put_both<L: Link>(link: &mut L, first: &[u8], rest: &[u8]) -> Result<(), Failed>
    ensures bytes { Puts (L.told link.old) (L.told link.new) (first.now ++ rest.now) result }
    ensures faults { CountsPut result (L.put_faults link.old) (L.put_faults link.new) }
    ensures taken { L.taken link.new ≡ L.taken link.old }
    ensures take_faults { L.take_faults link.new ≡ L.take_faults link.old }
    ensures end { L.ended link.new ≡ L.ended link.old }
{
    match link.put(first) {
        Ok(()) => link.put(rest),
        Err(failed) => Err(failed),
    }
}
