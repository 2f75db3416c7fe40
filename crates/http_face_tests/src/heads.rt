//! How the head of a request is read.

use http_face::{HeadAsks, HeadEnds, HeadState, Route, head_asks, head_ends, read_head, routes};
use std::alloc::Global;
use std::test::Fail;
use tgap_model::Memory;

/// Where these heads end.
#[test]
fn heads(rt: HostRuntime) -> Result<(), Fail> {
    let rows: &[(&str, HeadEnds)] = &[
        (
            "POST /edit HTTP/1.1\r\nHost: t\r\nContent-Length: 17\r\n\r\nmove 20 10 24 10\n",
            HeadEnds::Whole {
                length: 52,
                body: 17,
                close: false,
            },
        ),
        (
            "GET /info HTTP/1.0\n\n",
            HeadEnds::Whole {
                length: 20,
                body: 0,
                close: true,
            },
        ),
        ("GET /info HTT", HeadEnds::More),
        ("GET\n/ HTTP/1.1", HeadEnds::Bad { status: 400 }),
        (
            "POST /edit HTTP/1.1\r\nContent-Length: 1048577\r\n\r\n",
            HeadEnds::Bad { status: 413 },
        ),
    ];
    for (head, ends) in rows {
        assert_eq!(rt; head_ends(head.as_bytes()), *ends);
    }
    Ok(())
}

fn asked(alloc: Global, bytes: &[u8]) -> Result<HeadAsks, Memory> {
    let routes = routes(alloc)?;
    Ok(head_asks(&routes, bytes))
}

/// What these heads ask for.
#[test]
fn asks(rt: HostRuntime) -> Result<(), Fail> {
    let rows: &[(&str, HeadAsks)] = &[
        (
            "GET /slice/7 HTTP/1.1\r\nA: b\r\n\r\nGET",
            HeadAsks::Whole {
                length: 31,
                body: 0,
                close: false,
                asked: Route::Slice(7),
            },
        ),
        ("GET /slice/7 HTT", HeadAsks::More),
        ("GET\n/ HTTP/1.1", HeadAsks::Bad { status: 400 }),
    ];
    for (head, asks) in rows {
        assert_eq!(rt; asked(rt.alloc(), head.as_bytes())?, *asks);
    }
    Ok(())
}

/// Whether a head is whole and has this method and target, and its numbers.
fn is_read(
    alloc: Global,
    bytes: &[u8],
    method: &[u8],
    target: &[u8],
    numbers: (u32, u32, bool),
) -> Result<bool, Memory> {
    Ok(match read_head(alloc, bytes)? {
        HeadState::Whole(head) => head.method.as_slice() == method
            && head.target.as_slice() == target
            && (head.length, head.body, head.close) == numbers,
        _ => false,
    })
}

/// A head is read with its method and target.
#[test]
fn read(rt: HostRuntime) -> Result<(), Fail> {
    let head = b"POST /pin?x HTTP/1.1\r\nConnection: x, Close\r\n\r\n";
    assert!(rt; is_read(rt.alloc(), head, b"POST", b"/pin?x", (46, 0, true))?);
    Ok(())
}
