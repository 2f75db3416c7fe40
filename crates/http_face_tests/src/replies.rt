//! The bytes of replies.

use http_face::{Reply, reply_bytes, short_reply};
use std::alloc::Global;
use std::test::Fail;
use tgap_model::{Memory, Text};

/// The bytes of a reply of status 200 with this body.
fn reply_with(alloc: Global, body: &[u8]) -> Result<Text, Memory> {
    let body = Text::from_slice(alloc, body)?;
    let reply = Reply {
        status: 200,
        pin: 0,
        allow: None,
        close: false,
        body,
    };
    reply_bytes(alloc, &reply)
}

#[test]
fn a_reply(rt: HostRuntime) -> Result<(), Fail> {
    let bytes = reply_with(rt.alloc(), b"version 0 steps 1 faces 2 arcs 3 points 10\n")?;
    let expected =
        b"HTTP/1.1 200 OK\r\nContent-Type: text/plain\r\nTgap-Version: 0\r\nContent-Length: 43\r\n\r\nversion 0 steps 1 faces 2 arcs 3 points 10\n";
    assert_eq!(rt; bytes.as_slice(), expected.as_slice());
    Ok(())
}

/// It is made without memory.
#[test]
fn a_reply_where_memory_is_wanting(rt: HostRuntime) -> Result<(), Fail> {
    let expected =
        b"HTTP/1.1 503 Service Unavailable\r\nContent-Type: text/plain\r\nTgap-Version: 12\r\nConnection: close\r\nContent-Length: 7\r\n\r\nmemory\n";
    assert_eq!(rt; short_reply(12, true).bytes(), expected.as_slice());
    Ok(())
}
