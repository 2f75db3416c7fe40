//! The lines in parts of neighbouring ones, each swept by itself.

ghost use Rattle.std.specs.Prelude.{◌≡◌, ◌+◌, ◌-◌, ◌^◌, ◌<◌, ◌≤◌, List, length, get_or, pos, AllPairs, IfOk, Ok, None};
ghost use Rattle.std.specs.List.{All};
ghost use Rattle.std.specs.Option.{option_map};
ghost use Rattle.tgap_model.specs.declared.segment.LabelledSegment.{LabelledSegment as Labelled};
ghost use Rattle.tgap_model.specs.declared.limits.TheConstants.{MAX_POINTS};
ghost use Rattle.tgap_model.specs.Bounds.{HasNearEnds};
ghost use Rattle.tgap_model.specs.Partition.{AreApart};
ghost use Rattle.planar_stack.specs.Sweep.{disagrees, first_stack_fault};
ghost use Rattle.planar_stack.specs.Parts.{IsSweep, IsSomeSweep, IsGapIn, first_found, part_start};

use crate::events::{End, abscissas_of, ends_of, starts_of};
use crate::gap::StackGap;
use crate::sweep::{Sweep, touched_gap};
use rayon::current_num_threads;
use rayon::prelude::*;
use std::alloc::Global;
use std::thread::Threads;
use tgap_model::{LabelledSegment, Memory};

/// Below so many segments one part is swept: a thread would cost more than it saves.
const FEW: usize = 8192;

/// The abscissa at a place.
fn line_at(lines: &[i64], place: usize) -> i64
    requires { place < length lines.now }
    ensures { result ≡ get_or lines.now place (pos 0) }
{
    lines[place]
}

/// The first gap of the stacks of the lines from place `from` on up to place `to`.
fn gap_between(
    alloc: Global,
    starts: &[LabelledSegment],
    ends: &[End],
    lines: &[i64],
    from: usize,
    to: usize,
) -> Result<Option<StackGap>, Memory>
    requires sweep { IsSomeSweep starts.now ends.now lines.now }
    requires within { from < to → to < length lines.now }
    ensures { (segments : List Labelled) → IsSweep segments starts.now ends.now lines.now → IfOk result (IsGapIn segments lines.now from to) }
{
    if from >= to {
        return Ok(None);
    }
    let first = line_at(lines, from);
    let mut sweep = Sweep::at(alloc, starts, ends, first)?;
    for i in from..to {
        let line = line_at(lines, i);
        let gap = touched_gap(starts, &sweep.stack, &sweep.touched, line);
        if gap.is_some() {
            return Ok(gap);
        }
        let after = line_at(lines, i + 1);
        sweep.advance(starts, ends, line, after)?;
    }
    Ok(None)
}

/// The place of the line at which a part begins, of parts of this size.
fn part_start(lines: &[i64], size: usize, part: usize) -> usize
    ensures { result ≡ part_start lines.now size part }
{
    size.saturating_mul(part).min(lines.len().saturating_sub(1))
}

/// The first gap of the stacks of a part of the lines.
fn gap_in_part(
    alloc: Global,
    starts: &[LabelledSegment],
    ends: &[End],
    lines: &[i64],
    size: usize,
    part: usize,
) -> Result<Option<StackGap>, Memory>
    requires part { part < 2 ^ 64 - 1 }
    requires sweep { IsSomeSweep starts.now ends.now lines.now }
    ensures { (segments : List Labelled) → IsSweep segments starts.now ends.now lines.now
        → IfOk result (IsGapIn segments lines.now (part_start lines.now size part) (part_start lines.now size (part + 1))) }
{
    let from = part_start(lines, size, part);
    let to = part_start(lines, size, part + 1);
    gap_between(alloc, starts, ends, lines, from, to)
}

/// The first of two findings: the second one only where the first found nothing.
fn first_found(
    a: Result<Option<StackGap>, Memory>,
    b: Result<Option<StackGap>, Memory>,
) -> Result<Option<StackGap>, Memory>
    ensures { result ≡ first_found a b }
{
    match a {
        Ok(None) => b,
        found => found,
    }
}

/// Into how many parts the lines are cut: one for each processor, where there are many segments.
fn part_count<R: Threads>(rt: &R, segments: usize) -> usize
    ensures { 1 ≤ result }
{
    if segments < FEW {
        1
    } else {
        current_num_threads(rt)
    }
}

/// The first gap of the stacks of so many parts of the lines. The parts are swept side by side.
fn first_of_parts<R: Threads + Sync>(
    rt: &R,
    alloc: Global,
    starts: &[LabelledSegment],
    ends: &[End],
    lines: &[i64],
    size: usize,
    parts: usize,
) -> Result<Option<StackGap>, Memory>
    requires { IsSomeSweep starts.now ends.now lines.now }
    ensures { (segments : List Labelled) → IsSweep segments starts.now ends.now lines.now
        → IfOk result (IsGapIn segments lines.now 0 (part_start lines.now size parts)) }
{
    (0..parts)
        .into_par_iter()
        .with_min_len(1)
        .map(
            |part: usize| -> Result<Option<StackGap>, Memory>
                requires { (part < 2 ^ 64 - 1) × IsSomeSweep starts.now ends.now lines.now }
                ensures { (segments : List Labelled) → IsSweep segments starts.entry.now ends.entry.now lines.entry.now
                    → IfOk result (IsGapIn segments lines.entry.now (part_start lines.entry.now size part) (part_start lines.entry.now size (part + 1))) }
            { gap_in_part(alloc, starts, ends, lines, size, part) },
        )
        .reduce(
            rt,
            || -> Result<Option<StackGap>, Memory>
                ensures { result ≡ Ok None }
            { Ok(None) },
            |a: Result<Option<StackGap>, Memory>, b: Result<Option<StackGap>, Memory>| -> Result<
                Option<StackGap>,
                Memory,
            >
                ensures { result ≡ first_found a b }
            { first_found(a, b) },
        )
}

/// The first gap of all stacks, from left to right.
pub fn first_gap<R: Threads + Sync>(
    rt: &R,
    alloc: Global,
    segments: Vec<LabelledSegment>,
) -> Result<Option<StackGap>, Memory>
    requires apart { AllPairs AreApart segments.items }
    requires near { All (λ s. HasNearEnds s.segment) segments.items }
    requires few { length segments.items ≤ MAX_POINTS }
    ensures { IfOk result (λ found. option_map disagrees found ≡ first_stack_fault segments.items) }
{
    let lines = abscissas_of(alloc, &segments)?;
    let starts = starts_of(segments);
    let ends = ends_of(alloc, &starts)?;
    let parts = part_count(rt, starts.len());
    let size = lines.len().div_ceil(parts);
    first_of_parts(rt, alloc, &starts, &ends, &lines, size, parts)
}
