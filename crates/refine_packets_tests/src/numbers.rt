//! The numbers of a packet, in a row, of whole slices or of a window.

use std::alloc::{AllocError, Global};
use tgap_model::{Edge, Mend, Packet, StepRecord, WindowPacket, WindowStep};

/// Puts the numbers of a mend at the end: its key, the numbers of its puts and its pieces, the puts and the pieces.
fn push_mend(numbers: &mut Vec<i128>, mend: &Mend) -> Result<(), AllocError> {
    let counts = [mend.puts.len() as i128, mend.pieces.len() as i128];
    numbers.extend_from_slice(&[i128::from(mend.key), counts[0], counts[1]])?;
    for put in mend.puts.as_slice() {
        numbers.extend_from_slice(&[
            i128::from(put.at),
            i128::from(put.point.x),
            i128::from(put.point.y),
        ])?;
    }
    for piece in mend.pieces.as_slice() {
        let turned = i128::from(piece.turned);
        numbers.extend_from_slice(&[
            i128::from(piece.key),
            i128::from(piece.last),
            i128::from(piece.side),
            turned,
        ])?;
    }
    Ok(())
}

/// Puts the numbers of an edge at the end: its key, its faces, the number of its points, and the points.
fn push_edge(numbers: &mut Vec<i128>, edge: &Edge) -> Result<(), AllocError> {
    numbers.extend_from_slice(&[
        i128::from(edge.key),
        i128::from(edge.left),
        i128::from(edge.right),
        edge.points.len() as i128,
    ])?;
    for point in edge.points.as_slice() {
        numbers.extend_from_slice(&[i128::from(point.x), i128::from(point.y)])?;
    }
    Ok(())
}

/// Puts the numbers of a record at the end: those of its head, its mends and the edges that ended.
fn push_record(numbers: &mut Vec<i128>, step: &StepRecord) -> Result<(), AllocError> {
    numbers.extend_from_slice(&[
        i128::from(step.step),
        i128::from(step.loser),
        i128::from(step.loser_class),
        i128::from(step.winner),
        i128::from(step.winner_class),
        i128::from(step.made),
        step.mends.len() as i128,
        step.ended.len() as i128,
    ])?;
    for mend in step.mends.as_slice() {
        push_mend(numbers, mend)?;
    }
    for edge in step.ended.as_slice() {
        push_edge(numbers, edge)?;
    }
    Ok(())
}

/// All numbers of a packet, in the order of its text.
pub fn numbers_of(alloc: Global, packet: &Packet) -> Result<Vec<i128>, AllocError> {
    let mut numbers = Vec::new(alloc);
    numbers.extend_from_slice(&[i128::from(packet.from), i128::from(packet.to)])?;
    for step in packet.steps.as_slice() {
        push_record(&mut numbers, step)?;
    }
    Ok(numbers)
}

/// Puts the numbers of a record of a window at the end: those of its head, its faces, its mends and the edges that come.
fn push_window_step(numbers: &mut Vec<i128>, step: &WindowStep) -> Result<(), AllocError> {
    numbers.extend_from_slice(&[
        i128::from(step.step),
        i128::from(step.loser),
        i128::from(step.winner),
        i128::from(step.made),
        step.faces.len() as i128,
        step.mends.len() as i128,
        step.comes.len() as i128,
    ])?;
    for row in step.faces.as_slice() {
        numbers.extend_from_slice(&[i128::from(row.face), i128::from(row.class)])?;
    }
    for mend in step.mends.as_slice() {
        push_mend(numbers, mend)?;
    }
    for edge in step.comes.as_slice() {
        push_edge(numbers, edge)?;
    }
    Ok(())
}

/// All numbers of a packet of a window, in the order of its text.
pub fn window_numbers_of(alloc: Global, packet: &WindowPacket) -> Result<Vec<i128>, AllocError> {
    let area = &packet.area;
    let mut numbers = Vec::new(alloc);
    numbers.extend_from_slice(&[i128::from(packet.from), i128::from(packet.to)])?;
    numbers.extend_from_slice(&[i128::from(area.x0), i128::from(area.y0)])?;
    numbers.extend_from_slice(&[i128::from(area.x1), i128::from(area.y1)])?;
    for step in packet.steps.as_slice() {
        push_window_step(&mut numbers, step)?;
    }
    Ok(numbers)
}
