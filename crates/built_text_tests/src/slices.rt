//! Texts of slices.

use crate::maps::{FOUR_SQUARES, built_map};
use built_text::slice_text_at;
use slice_read::ReadFail;
use std::alloc::Global;
use std::test::Fail;
use std::thread::Threads;
use tgap_model::Text;

/// The text of a slice of four squares.
fn text_of<R: Threads + Sync>(rt: &R, alloc: Global, k: u32) -> Result<Text, ReadFail> {
    match built_map(rt, alloc, 0, &[0, 0, 0, 0], &FOUR_SQUARES) {
        Ok(Some(built)) => slice_text_at(alloc, &built, k),
        _ => Err(ReadFail::Memory),
    }
}

#[test]
fn the_last_slice(rt: HostRuntime) -> Result<(), Fail> {
    let last = text_of(&rt, rt.alloc(), 3).ok().ok_or("no text")?;
    let rows = "slice 3\nfaces 1\nface 7 0\nedges 1\n\
                edge 0 7 0 9 20 10 20 20 10 20 0 20 0 10 0 0 10 0 20 0 20 10\nend\n";
    assert_eq!(rt; last.as_slice(), rows.as_bytes());
    Ok(())
}
