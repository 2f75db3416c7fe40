//! Packets of a window.

ghost use Rattle.std.specs.Prelude.{◌≡◌, ◌<◌, ◌≤◌, ◌-◌, ◌+◌, ◌↔◌, ℕ, true, false, length, replicate, IfOk, Err};
ghost use Rattle.tgap_model.specs.Base.{is_base};
ghost use Rattle.tgap_model.specs.History.{history_of};
ghost use Rattle.tgap_model.specs.Merged.{merged};
ghost use Rattle.tgap_model.specs.WindowRecords.{replayed_in, window_at, window_packet_of, window_steps_down};
ghost use Rattle.window_laws.specs.WindowPacketLaws.{each_fits_in};
ghost use Rattle.refine_packets.specs.Counts.{AreCounts};
ghost use Rattle.refine_packets.specs.declared.fail.PacketFail.TheVariants.{NotCoarser, StepTooHigh};

use crate::counts::add_sides;
use crate::fail::PacketFail;
use crate::near::near_edges;
use crate::window_step::window_step;
use slice_read::window_at;
use std::alloc::Global;
use tgap_build::Built;
use tgap_model::{List, Memory, Slice, Window, WindowPacket, WindowStep};

/// The window of a slice that the history has.
fn window_there(alloc: Global, built: &Built, k: u32, area: Window) -> Result<Slice, Memory>
    requires { k ≤ length (history_of built.now) }
    ensures { IfOk result (λ window. window ≡ window_at (merged built.now) area k) }
{
    match window_at(alloc, built, k, area) {
        Ok(window) => Ok(window),
        Err(_) => Err(Memory),
    }
}

/// The number of all faces, those that the steps make and the outside among them.
fn all_faces(built: &Built) -> usize
    ensures { result ≡ length built.now.classes + length (history_of built.now) + 1 }
{
    built.base().classes().len() + built.steps() as usize + 1
}

/// A count for each of so many faces, of no side yet.
fn no_counts(alloc: Global, faces: usize) -> Result<Vec<u32>, Memory>
    ensures { IfOk result (λ counts. counts.items ≡ replicate faces 0) }
{
    Ok(vec![in alloc; 0u32; faces]?)
}

/// For each face how many sides of the edges in the window of a slice it is.
fn first_counts(alloc: Global, built: &Built, k: u32, area: Window) -> Result<Vec<u32>, Memory>
    requires { k ≤ length (history_of built.now) }
    ensures long { IfOk result (λ counts. length counts.items ≡ length built.now.classes + length (history_of built.now) + 1) }
    ensures counts { IfOk result (λ counts. AreCounts counts.items (window_at (merged built.now) area k).edges) }
{
    // The look at the base, which costs nothing, tells that it is a planar partition.
    let _ = built.base();
    let window = window_there(alloc, built, k, area)?;
    let mut counts = no_counts(alloc, all_faces(built))?;
    add_sides(&mut counts, window.edges.as_slice());
    Ok(counts)
}

/// A note for each of so many edges, none of which is known to be in a window yet.
fn none_known(alloc: Global, edges: usize) -> Result<Vec<bool>, Memory>
    ensures { IfOk result (λ known. known.items ≡ replicate edges false) }
{
    Ok(vec![in alloc; false; edges]?)
}

/// The records of a window for the steps `from` down to `to + 1`, in this order.
fn window_steps_down(
    alloc: Global,
    built: &Built,
    from: u32,
    to: u32,
    area: Window,
) -> Result<List<WindowStep>, Memory>
    requires down { to ≤ from }
    requires within { from ≤ length (history_of built.now) }
    ensures { IfOk result (λ steps. steps ≡ window_steps_down (merged built.now) area from (from - to)) }
{
    let mut counts = first_counts(alloc, built, from, area)?;
    let boxed = built.boxed();
    let tree = built.tree();
    let forest = boxed.forest();
    // What is known of the forest is read off its map.
    let _ = forest.base();
    let near = near_edges(alloc, boxed, area)?;
    let mut known = none_known(alloc, forest.base().arcs().len())?;
    let mut steps = List::with_capacity(alloc, (from - to) as usize)?;
    for i in 0..from - to {
        let record = built.record_of(from - i);
        steps.push(window_step(alloc, tree, forest, &near, record, &mut counts, &mut known)?)?;
    }
    Ok(steps)
}

/// The packet of a window of a built map from the slice at step `from` to the slice at step `to`: for each of the steps `from`
/// down to `to + 1` what leads the window of the slice after it back to the window of the slice before it. There is none to a
/// coarser slice, which is tested first, and none from a step that the history does not have. The time is that of the
/// records of the steps, of one look-up, and of the points of edges whose box of all points meets the window: those of the
/// window of the first slice, those of each piece that a mend makes, and at a mend those of its edge, unless that is
/// known to be in the window and stays one piece. Beside them it takes a count for each face and a note for each arc.
/// Where the ends of the window are out of order it is what the same tests leave.
pub fn window_packet(
    alloc: Global,
    built: &Built,
    from: u32,
    to: u32,
    area: Window,
) -> Result<WindowPacket, PacketFail>
    // It is the packet by the definition.
    ensures exact { IfOk result (λ p. p ≡ window_packet_of (merged built.now) area from to) }
    // Each of its records fits the window that the records before it leave, from that of the slice at `from` on.
    ensures fits { IfOk result (λ p. each_fits_in area (window_at (merged built.now) area from) p.steps ≡ true) }
    // Undone one after the other they lead to the window of the slice at `to`.
    ensures leads { IfOk result (λ p. replayed_in (window_at (merged built.now) area from) p ≡ window_at (merged built.now) area to) }
    // It is refused exactly where `from` is below `to`.
    ensures coarser { (result ≡ Err NotCoarser) ↔ (from < to) }
    // Otherwise it is refused exactly where `from` is above the number of the last step, which the refusal tells.
    ensures high { (steps : ℕ) → (result ≡ Err (StepTooHigh steps))
        ↔ ((to ≤ from) × (length (history_of built.now) < from) × (steps ≡ length (history_of built.now))) }
{
    if from < to {
        return Err(PacketFail::NotCoarser);
    }
    let steps = built.steps();
    if from > steps {
        return Err(PacketFail::StepTooHigh { steps });
    }
    // The look at the base, which costs nothing, tells that it is a planar partition.
    let _ = built.base();
    Ok(WindowPacket {
        from,
        to,
        area,
        steps: window_steps_down(alloc, built, from, to, area)?,
    })
}
