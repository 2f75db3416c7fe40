//! The events of the sweep: each segment comes into the row, and leaves it.

ghost use Rattle.std.specs.Prelude.{◌≡◌, ◌/◌, ◌<◌, ◌++◌, neg_ℤ, ◌≤ℤ◌, ◌<ℤ◌, length, flat_map, map, IfOk};
ghost use Rattle.std.specs.List.{All, range_with_len};
ghost use Rattle.tgap_model.specs.Bounds.{HasNearEnds};
ghost use Rattle.planar_sweep.specs.Times.{time_in, time_out};
ghost use Rattle.planar_sweep.specs.Rows.{event_of, moment_of, AreEvents};
ghost use Rattle.planar_sweep.specs.EventKeys.{key_of, leads, is_followed, is_onward, is_back, link_at, link_before, coming_keys, leaving_keys, onward_keys, back_keys, keys_at, listed_keys};

use crate::marks::follows;
use std::alloc::Global;
use tgap_model::{LabelledSegment, Memory, Seg};

/// The numbers of segments have room below this one.
const NUMBERS: u64 = 134_217_728;

/// Times have room from its opposite on.
const FIRST: i64 = 17_179_869_184;

/// The kind of a key, in the order of the events at one time: the segment of its number leaves.
const LEAVES: u64 = 0;

/// It comes.
const COMES: u64 = 1;

/// The line passes from it to the one behind it in the list.
const ONWARD: u64 = 2;

/// The line passes to it from the one behind it in the list.
const BACK: u64 = 3;

/// What an event does to the row: a segment leaves it, one comes, or one comes in the place of another one that ends
/// where it begins.
#[derive(Clone, Copy)]
pub enum Event {
    Leaves { number: u32 },
    Comes { number: u32 },
    Passes { from: u32, to: u32 },
}

/// The event of a key.
pub fn event_of(key: u64) -> Event
    ensures { result ≡ event_of key }
{
    let number = (key % NUMBERS) as u32;
    match key / NUMBERS % 4 {
        LEAVES => Event::Leaves { number },
        COMES => Event::Comes { number },
        ONWARD => Event::Passes {
            from: number,
            to: number + 1,
        },
        _ => Event::Passes {
            from: number + 1,
            to: number,
        },
    }
}

/// The abscissa of a key, by the number of a column.
pub fn column_of(key: u64) -> u64
    ensures { result ≡ key / NUMBERS / 4 / 4 }
{
    key / NUMBERS / 4 / 4
}

/// The key of an event: by its time, and at one time what leaves is before what comes.
fn key_of(time: i64, kind: u64, number: usize) -> u64
    requires from { neg_ℤ FIRST ≤ℤ time }
    requires to { time <ℤ FIRST }
    requires kind { kind < 4 }
    requires number { number < NUMBERS }
    ensures { result ≡ key_of time kind number }
{
    ((time + FIRST) as u64 * 4 + kind) * NUMBERS + number as u64
}

/// The time at which a forward segment comes.
fn time_in(s: Seg) -> i64
    requires { HasNearEnds s }
    ensures { result ≡ time_in s }
{
    if s.a.x < s.b.x {
        4 * s.a.x + 2
    } else {
        4 * s.a.x
    }
}

/// The time at which it leaves.
fn time_out(s: Seg) -> i64
    requires { HasNearEnds s }
    ensures { result ≡ time_out s }
{
    if s.a.x < s.b.x {
        4 * s.b.x + 2
    } else {
        4 * s.b.x + 3
    }
}

/// Whether one segment begins where another one ends, and both go to the right: the line passes from one to the other.
fn leads(segs: &[Seg], from: usize, to: usize) -> bool
    requires from { from < length segs.now }
    requires to { to < length segs.now }
    ensures { result ≡ leads segs.now from to }
{
    let (s, t) = (segs[from], segs[to]);
    s.a.x < s.b.x && (t.a.x < t.b.x && s.b == t.a)
}

/// Whether the segment behind one in the list is the next one of its arc.
fn is_followed(segments: &[LabelledSegment], number: usize) -> bool
    requires { number < length segments.now }
    ensures { result ≡ is_followed segments.now number }
{
    number + 1 < segments.len() && follows(&segments[number], &segments[number + 1])
}

/// Whether the line passes from a segment to the next one of its arc, which is behind it in the list.
fn is_onward(segments: &[LabelledSegment], segs: &[Seg], number: usize) -> bool
    requires same { length segs.now ≡ length segments.now }
    requires inside { number < length segs.now }
    ensures { result ≡ is_onward segments.now segs.now number }
{
    is_followed(segments, number) && leads(segs, number, number + 1)
}

/// Whether the line passes to a segment from the next one of its arc, which is behind it in the list.
fn is_back(segments: &[LabelledSegment], segs: &[Seg], number: usize) -> bool
    requires same { length segs.now ≡ length segments.now }
    requires inside { number < length segs.now }
    ensures { result ≡ is_back segments.now segs.now number }
{
    is_followed(segments, number) && leads(segs, number + 1, number)
}

/// Whether the line passes from a segment to the next one of its arc, or from that one back.
#[derive(Clone, Copy)]
struct Link {
    onward: bool,
    back: bool,
}

/// The link of a segment to the next one of its arc.
fn link_at(segments: &[LabelledSegment], segs: &[Seg], number: usize) -> Link
    requires same { length segs.now ≡ length segments.now }
    requires inside { number < length segs.now }
    ensures { result ≡ link_at segments.now segs.now number }
{
    Link {
        onward: is_onward(segments, segs, number),
        back: is_back(segments, segs, number),
    }
}

/// Puts the event at which a segment comes alone after the others.
fn push_coming(
    keys: &mut Vec<u64>,
    s: Seg,
    number: usize,
    before: Link,
    link: Link,
) -> Result<(), Memory>
    requires near { HasNearEnds s }
    requires number { number < NUMBERS }
    ensures { IfOk result (λ _. keys.new.items ≡ keys.old.items ++ coming_keys s number before link) }
{
    if !(before.onward || link.back) {
        keys.push(key_of(time_in(s), COMES, number))?;
    }
    Ok(())
}

/// Puts the event at which it leaves alone after the others.
fn push_leaving(
    keys: &mut Vec<u64>,
    s: Seg,
    number: usize,
    before: Link,
    link: Link,
) -> Result<(), Memory>
    requires near { HasNearEnds s }
    requires number { number < NUMBERS }
    ensures { IfOk result (λ _. keys.new.items ≡ keys.old.items ++ leaving_keys s number before link) }
{
    if !(link.onward || before.back) {
        keys.push(key_of(time_out(s), LEAVES, number))?;
    }
    Ok(())
}

/// Puts the event at which the line passes from it to the next one of its arc after the others.
fn push_onward(keys: &mut Vec<u64>, s: Seg, number: usize, link: Link) -> Result<(), Memory>
    requires near { HasNearEnds s }
    requires number { number < NUMBERS }
    ensures { IfOk result (λ _. keys.new.items ≡ keys.old.items ++ onward_keys s number link) }
{
    if link.onward {
        keys.push(key_of(time_out(s), ONWARD, number))?;
    }
    Ok(())
}

/// Puts the event at which the line passes to it from the next one of its arc after the others.
fn push_back(keys: &mut Vec<u64>, s: Seg, number: usize, link: Link) -> Result<(), Memory>
    requires near { HasNearEnds s }
    requires number { number < NUMBERS }
    ensures { IfOk result (λ _. keys.new.items ≡ keys.old.items ++ back_keys s number link) }
{
    if link.back {
        keys.push(key_of(time_in(s), BACK, number))?;
    }
    Ok(())
}

/// Puts the events of a segment after the others: those in which no segment before it in the list takes part.
fn push_events(
    keys: &mut Vec<u64>,
    s: Seg,
    number: usize,
    before: Link,
    link: Link,
) -> Result<(), Memory>
    requires near { HasNearEnds s }
    requires number { number < NUMBERS }
    ensures { IfOk result (λ _. keys.new.items ≡ keys.old.items ++ keys_at s number before link) }
{
    push_coming(keys, s, number, before, link)?;
    push_leaving(keys, s, number, before, link)?;
    push_onward(keys, s, number, link)?;
    push_back(keys, s, number, link)
}

/// The keys of the events of the segments, as they are listed.
fn listed_keys(
    alloc: Global,
    segments: &[LabelledSegment],
    segs: &[Seg],
) -> Result<Vec<u64>, Memory>
    requires same { length segs.now ≡ length segments.now }
    requires near { All (λ s. HasNearEnds s) segs.now }
    requires few { length segs.now < NUMBERS }
    ensures { IfOk result (λ keys. keys.items ≡ listed_keys segments.now segs.now) }
{
    let mut keys = Vec::with_capacity(alloc, segs.len())?;
    let mut before = Link {
        onward: false,
        back: false,
    };
    for number in 0..segs.len() {
        let link = link_at(segments, segs, number);
        push_events(&mut keys, segs[number], number, before, link)?;
        before = link;
    }
    Ok(keys)
}

/// The keys of the events of the segments, in the order of their times; where the segments are too many for them, want of
/// memory. At one time, what leaves is before what comes, and else those before that are before in the list, of which
/// neighbours are mostly neighbours in the row.
pub fn events_of(
    alloc: Global,
    segments: &[LabelledSegment],
    segs: &[Seg],
) -> Result<Vec<u64>, Memory>
    requires same { length segs.now ≡ length segments.now }
    requires near { All (λ s. HasNearEnds s) segs.now }
    ensures few { IfOk result (λ _. length segs.now < NUMBERS) }
    ensures events { IfOk result (λ keys. AreEvents segs.now (map moment_of keys.items)) }
{
    if NUMBERS <= segs.len() as u64 {
        return Err(Memory);
    }
    let mut keys = listed_keys(alloc, segments, segs)?;
    keys.sort_unstable();
    Ok(keys)
}
