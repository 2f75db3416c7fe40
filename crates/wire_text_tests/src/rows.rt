//! Rows that are put out one by one.

use std::alloc::Global;
use std::test::Fail;
use tgap_model::{FaceRow, List, Memory, Point, Text};
use wire_text::{RowRoom, put_count_line, put_edge, put_face};

#[test]
fn the_greatest_numbers(rt: HostRuntime) -> Result<(), Fail> {
    let mut text = Text::new(rt.alloc());
    put_count_line(&mut text, b"many", usize::MAX)?;
    put_face(
        &mut text,
        &FaceRow {
            face: u32::MAX,
            class: 0,
        },
    )?;
    let points = [Point {
        x: i64::MIN,
        y: i64::MAX,
    }];
    put_edge(&mut text, &mut RowRoom::new(), 1, 0, u32::MAX, &points)?;
    let rows = "many 18446744073709551615\n\
                face 4294967295 0\n\
                edge 1 0 4294967295 1 -9223372036854775808 9223372036854775807\n";
    assert_eq!(rt; text.as_slice(), rows.as_bytes());
    Ok(())
}

/// As many points as this, all at one place.
fn points_of(alloc: Global, count: usize) -> Result<List<Point>, Memory> {
    let mut points = List::new(alloc);
    for _ in 0..count {
        points.push(Point { x: 7, y: -10 })?;
    }
    Ok(points)
}

/// A row of these points, after how it begins.
fn row_of(alloc: Global, begin: &[u8], count: usize) -> Result<Text, Memory> {
    let mut row = Text::from_slice(alloc, begin)?;
    for _ in 0..count {
        row.push_slice(b" 7 -10")?;
    }
    row.push_slice(b"\n")?;
    Ok(row)
}

/// Rows that are written at once, and longer ones, all in one room.
#[test]
fn long_rows(rt: HostRuntime) -> Result<(), Fail> {
    let alloc = rt.alloc();
    let mut room = RowRoom::new();
    let rows: [(usize, &[u8]); 6] = [
        (100, b"edge 5 6 70 100"),
        (0, b"edge 5 6 70 0"),
        (32, b"edge 5 6 70 32"),
        (33, b"edge 5 6 70 33"),
        (64, b"edge 5 6 70 64"),
        (65, b"edge 5 6 70 65"),
    ];
    for (count, begin) in rows {
        let points = points_of(alloc, count)?;
        let mut text = Text::new(alloc);
        put_edge(&mut text, &mut room, 5, 6, 70, points.as_slice())?;
        let row = row_of(alloc, begin, count)?;
        assert_eq!(rt; text.as_slice(), row.as_slice());
    }
    Ok(())
}
