//! A window on one of two squares, and one on the last slice of a map, where far more edges have ended than are there.

use crate::maps::built_map;
use crate::squares::{RIGHT, built_squares, is_edge};
use generator::grid_map;
use slice_read::{ReadFail, window_at};
use std::alloc::Global;
use std::process::Abort;
use std::test::Fail;
use std::thread::Threads;
use tgap_build::Built;
use tgap_model::{Memory, Slice, Window};

/// The window of the slice after so many steps.
fn window(alloc: Global, built: &Built, step: u32, area: Window) -> Result<Slice, ReadFail> {
    window_at(alloc, built, step, area)
}

/// Whether the window has the right square alone.
fn is_right_square(window: &Slice) -> bool {
    let [face] = window.faces.as_slice() else {
        return false;
    };
    let [edge] = window.edges.as_slice() else {
        return false;
    };
    window.step == 0 && face.face == 2 && is_edge(edge, 1, 2, 0, &RIGHT)
}

/// Reads the window of the slice at step 0 from 12 to 30 in x and from 2 to 4 in y.
fn assert_right_square(rt: &impl Abort, alloc: Global, built: &Built) -> Result<(), ReadFail> {
    let area = Window {
        x0: 12,
        y0: 2,
        x1: 30,
        y1: 4,
    };
    let window = window(alloc, built, 0, area)?;
    assert!(rt; is_right_square(&window));
    Ok(())
}

#[test]
fn a_window_on_the_right_square(rt: HostRuntime) -> Result<(), Fail> {
    match built_squares(&rt, rt.alloc()) {
        Ok(Some(built)) => Ok(assert_right_square(&rt, rt.alloc(), &built)?),
        _ => Err(Fail::new("no map")),
    }
}

/// A window that holds all points of the map.
const WHOLE: Window = Window {
    x0: 0,
    y0: 0,
    x1: 1_000_000,
    y1: 1_000_000,
};

/// What is built of a generated map of ten rows.
fn built_ten_rows<R: Threads + Sync>(rt: &R, alloc: Global) -> Result<Option<Box<Built>>, Memory> {
    let base = grid_map(alloc, 10)?;
    built_map(rt, alloc, base)
}

/// Reads the window of the last slice of a map with 99 steps: one face and the edge round it.
fn assert_last_slice(rt: &impl Abort, alloc: Global, built: &Built) -> Result<(), ReadFail> {
    let window = window(alloc, built, 99, WHOLE)?;
    assert_eq!(rt; (window.faces.len(), window.edges.len()), (1, 1));
    Ok(())
}

#[test]
fn a_window_on_the_last_slice_of_ten_rows(rt: HostRuntime) -> Result<(), Fail> {
    match built_ten_rows(&rt, rt.alloc()) {
        Ok(Some(built)) => Ok(assert_last_slice(&rt, rt.alloc(), &built)?),
        _ => Err(Fail::new("no map")),
    }
}
