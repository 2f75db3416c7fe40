//! A map is served from the store of its versions.

ghost use Rattle.std.specs.Prelude.{◌≡◌, ◌≤◌, ◌<◌, ◌+◌, ◌⊎◌, ◌∷◌, ◌++◌, ℕ, [], map, reverse, replicate, drop, length, decimal, All, IfOk, OnOk, OnErr, IfErr, vec_len, vec_capacity};
ghost use Rattle.plain_io.specs.Doors.{NoneCame};
ghost use Rattle.tgap_model.specs.Faults.{Rises, Rose};
ghost use Rattle.version_store.specs.Growth.{IsPrefix};
ghost use Rattle.version_store.specs.Publishers.{numbers_of};
ghost use Rattle.version_store.specs.Folds.{FitsTold};
ghost use Rattle.version_store.specs.Store.{fresh_store, fresh_first, fresh_limit, fresh_places, seat_versions, seat_number, seat_numbers, press_versions, press_publishers, press_limit, AreSeatsFrom};
ghost use Rattle.workers.specs.Closing.{MayTakeBack, TakesAllBack, OneFailed, NoneFailed};
ghost use Rattle.map_workers.specs.Seats.{press_maps, press_batches, SeesAll};
ghost use Rattle.commands.specs.declared.outcome.Outcome.TheVariants as outcome;
ghost use Rattle.commands.specs.Delivery.{Delivers};
ghost use Rattle.serving.specs.Serving.{serving_text, CameBack, TakesEach, Gave, Serves, ServesAll};
ghost use Rattle.serving.specs.Journals.{KeepsOn};
ghost use Rattle.journal_fold.specs.Made.{values, maps_of, made_by};
ghost use Rattle.serving.specs.Later.{FollowFrom};

use crate::later::with_later;
use commands::{Outcome, SINK_FAULT};
use map_version::Version;
use map_workers::{Post, ServeEnd, close_posts, serve};
use plain_io::{Door, Harbour, Sink, put_count};
use std::alloc::Global;
use std::sync::{Arc, Mutex, Wait};
use std::thread::Threads;
use tgap_model::{Keep, Memory, NoKeeper, Text};
use version_store::{Fresh, Press, Seat, StoreName};
use workers::PostOf;

/// A store that was opened: its press, a post for each worker, and the line that tells the port.
#[derive(Drop)]
struct Service<D, N: StoreName> {
    press: Press<Version, N, NoKeeper>,
    posts: Vec<Post<D, N>>,
    line: Text,
}

/// Serves the map of a store until the doors give no more connections, from its first version and later ones on. Puts the line that tells
/// the port, or why there is none, and gives the exit status. The keeper keeps each batch before its version is published, and is given
/// back in any case.
pub fn serve_store<
    N: StoreName + Send + Sync,
    R: Threads + Wait + Sync,
    P: Keep + Send,
    K: Sink,
    H: Harbour,
>(
    rt: &R,
    alloc: Global,
    store: Fresh<Version>,
    later: Vec<Arc<Version>>,
    keeper: P,
    port: u16,
    out: &mut K,
    harbour: &mut H,
) -> (u8, P)
where
    <H::Gate as Door>::Line: Send,
    requires store { fresh_store store ≡ N.store }
    requires limit { fresh_limit store ≡ N.limit }
    requires seats { fresh_places store ≡ N.seats }
    requires places { (1 ≤ fresh_places store) × (fresh_places store ≤ 16) }
    requires numbers { FollowFrom 1 (values later.items) }
    requires kept { FitsTold (made_by (values later.items)) (P.told keeper) }
    ensures { Serves (serving_text port) (CameBack (H.told harbour.old) (H.told harbour.new))
        (ServesAll H.Gate.closed H.Gate.faults H.Gate.told H.Gate.Line.Link (CameBack (H.told harbour.old) (H.told harbour.new))
        (fresh_places store) (fresh_limit store) ((fresh_first store).built ∷ maps_of (values later.items))
        (KeepsOn ((fresh_first store).batch ∷ made_by (values later.items)) (P.told result.1)) result.0)
        (H.faults harbour.old) (H.faults harbour.new) (K.told out.old) (K.told out.new) (K.faults out.old) (K.faults out.new) result.0
        (λ o. o ≡ outcome.OutOfMemory) }
{
    match open_service::<N, R, H>(rt, alloc, store, later, port, harbour) {
        Ok(service) => serve_posts(rt, alloc, service, keeper, out, harbour),
        Err(outcome) => (outcome.put(alloc, out), keeper),
    }
}

/// Opens a store, with later versions than its first one, and doors for its workers. All other memory is taken before there are doors, and so
/// none of them is lost.
fn open_service<N: StoreName, R: Wait, H: Harbour>(
    rt: &R,
    alloc: Global,
    store: Fresh<Version>,
    later: Vec<Arc<Version>>,
    port: u16,
    harbour: &mut H,
) -> Result<Service<H::Gate, N>, Outcome>
    requires store { fresh_store store ≡ N.store }
    requires limit { fresh_limit store ≡ N.limit }
    requires seats { fresh_places store ≡ N.seats }
    requires places { (1 ≤ fresh_places store) × (fresh_places store ≤ 16) }
    requires numbers { FollowFrom 1 (values later.items) }
    ensures line { IfOk result (λ service. service.line ≡ serving_text port) }
    ensures number { IfOk result (λ service. length service.posts.items ≡ fresh_places store) }
    ensures sound { IfOk result (λ service. All (λ post. H.Gate.faults post.door ≡ 0) service.posts.items) }
    ensures empty { IfOk result (λ service. All (λ post. NoneCame (H.Gate.told post.door)) service.posts.items) }
    ensures seats { IfOk result (λ service. All (λ post. SeesAll service.press post.seat) service.posts.items) }
    ensures numbers { IfOk result (λ service. AreSeatsFrom 1 (map (λ post. post.seat) service.posts.items)) }
    ensures versions { IfOk result (λ service. press_versions service.press ≡ fresh_first store ∷ values later.items) }
    ensures publishers { IfOk result (λ service. press_publishers service.press ≡ 0 ∷ replicate (length later.items) 1) }
    ensures limit { IfOk result (λ service. press_limit service.press ≡ fresh_limit store) }
    ensures given { OnOk result (Gave (fresh_places store) (H.told harbour.old) (H.told harbour.new)) }
    ensures kept { OnOk result (H.faults harbour.new ≡ H.faults harbour.old) }
    ensures none { OnErr result (H.told harbour.new ≡ H.told harbour.old) }
    ensures refused { IfErr result (λ o. ((o ≡ outcome.OutOfMemory) × (H.faults harbour.new ≡ H.faults harbour.old))
        ⊎ ((o ≡ outcome.PortFault) × Rises (H.faults harbour.old) (H.faults harbour.new))) }
{
    let (mut press, seats) = store.open::<N, R>(rt, alloc)?;
    let seats = with_later(rt, alloc, &mut press, seats, later)?;
    let line = serving_line(alloc, port)?;
    let posts = posts_at(alloc, port, seats, harbour)?;
    Ok(Service { press, posts, line })
}

/// The line that tells the port.
fn serving_line(alloc: Global, port: u16) -> Result<Text, Memory>
    ensures { IfOk result (λ text. text ≡ serving_text port) }
{
    let mut text = Text::from_slice(alloc, b"serving")?;
    put_count(alloc, &mut text, port.into())?;
    text.push_slice(b"\n")?;
    Ok(text)
}

/// A post for each seat, at a door of that port.
fn posts_at<N: StoreName, H: Harbour>(
    alloc: Global,
    port: u16,
    seats: Vec<Seat<Version, N>>,
    harbour: &mut H,
) -> Result<Vec<Post<H::Gate, N>>, Outcome>
    requires some { 1 ≤ length seats.items }
    requires few { length seats.items ≤ 16 }
    ensures number { IfOk result (λ posts. length posts.items ≡ length seats.items) }
    ensures sound { IfOk result (λ posts. All (λ post. H.Gate.faults post.door ≡ 0) posts.items) }
    ensures empty { IfOk result (λ posts. All (λ post. NoneCame (H.Gate.told post.door)) posts.items) }
    ensures seats { IfOk result (λ posts. map (λ post. post.seat) posts.items ≡ seats.items) }
    ensures given { OnOk result (Gave (length seats.items) (H.told harbour.old) (H.told harbour.new)) }
    ensures kept { OnOk result (H.faults harbour.new ≡ H.faults harbour.old) }
    ensures none { OnErr result (H.told harbour.new ≡ H.told harbour.old) }
    ensures refused { IfErr result (λ o. ((o ≡ outcome.OutOfMemory) × (H.faults harbour.new ≡ H.faults harbour.old))
        ⊎ ((o ≡ outcome.PortFault) × Rises (H.faults harbour.old) (H.faults harbour.new))) }
{
    let room = room_for(alloc, seats.len())?;
    let doors = harbour.doors(alloc, port, seats.len() as u32)?;
    Ok(filled(room, doors, seats))
}

/// Room for so many elements.
pub(crate) fn room_for<T>(alloc: Global, n: usize) -> Result<Vec<T>, Memory>
    ensures empty { IfOk result (λ room. room.items ≡ []) }
    ensures room { IfOk result (λ room. n ≤ vec_capacity room) }
{
    Ok(Vec::with_capacity(alloc, n)?)
}

/// A post for each seat, in their order, with the doors from the last one on, in room that was taken for them.
fn filled<D: Drop, N: StoreName>(
    room: Vec<Post<D, N>>,
    doors: Vec<D>,
    seats: Vec<Seat<Version, N>>,
) -> Vec<Post<D, N>>
    requires empty { room.items ≡ [] }
    requires room { length seats.items ≤ vec_capacity room }
    requires same { length doors.items ≡ length seats.items }
    ensures doors { map (λ post. post.door) result.items ≡ reverse doors.items }
    ensures seats { map (λ post. post.seat) result.items ≡ seats.items }
{
    let mut posts = room;
    let mut doors = doors;
    for seat in seats {
        posts.push_reserved(PostOf {
            door: doors.pop().unwrap(),
            seat,
        });
    }
    posts
}

/// Puts the line, serves the connections of all doors with this keeper, and hands the doors back, and the keeper.
fn serve_posts<
    N: StoreName + Send + Sync,
    R: Threads + Wait + Sync,
    P: Keep + Send,
    K: Sink,
    H: Harbour,
>(
    rt: &R,
    alloc: Global,
    service: Service<H::Gate, N>,
    keeper: P,
    out: &mut K,
    harbour: &mut H,
) -> (u8, P)
where
    <H::Gate as Door>::Line: Send,
    requires some { 1 ≤ length service.posts.items }
    requires sound { All (λ post. H.Gate.faults post.door ≡ 0) service.posts.items }
    requires empty { All (λ post. NoneCame (H.Gate.told post.door)) service.posts.items }
    requires seats { All (λ post. SeesAll service.press post.seat) service.posts.items }
    requires numbers { AreSeatsFrom 1 (map (λ post. post.seat) service.posts.items) }
    requires all_seats { length service.posts.items ≡ N.seats }
    requires publishers { (many : ℕ) × (press_publishers service.press ≡ 0 ∷ replicate many 1) }
    requires given { MayTakeBack (length service.posts.items) (H.told harbour.old) }
    requires kept { FitsTold (drop 1 (press_batches service.press)) (P.told keeper) }
    ensures { Serves service.line (TakesEach (length service.posts.items) (H.told harbour.old) (H.told harbour.new))
        (ServesAll H.Gate.closed H.Gate.faults H.Gate.told H.Gate.Line.Link
        (TakesEach (length service.posts.items) (H.told harbour.old) (H.told harbour.new))
        (length service.posts.items) (press_limit service.press) (press_maps service.press)
        (KeepsOn (press_batches service.press) (P.told result.1)) result.0)
        (H.faults harbour.old) (H.faults harbour.new) (K.told out.old) (K.told out.new) (K.faults out.old) (K.faults out.new) result.0
        (λ o. o ≡ outcome.OutOfMemory) }
{
    let Service { press, posts, line } = service;
    let press = press.attach(keeper);
    match out.put(line.as_slice()) {
        Ok(()) => serve_doors(rt, alloc, press, posts, out, harbour),
        Err(_) => (SINK_FAULT, hand_back(rt, press, posts, harbour)),
    }
}

/// Serves the connections of all doors, and hands the doors back, and the keeper. Puts that a door failed, where one did.
fn serve_doors<
    N: StoreName + Send + Sync,
    R: Threads + Wait + Sync,
    P: Keep + Send,
    K: Sink,
    H: Harbour,
>(
    rt: &R,
    alloc: Global,
    press: Press<Version, N, P>,
    posts: Vec<Post<H::Gate, N>>,
    out: &mut K,
    harbour: &mut H,
) -> (u8, P)
where
    <H::Gate as Door>::Line: Send,
    requires some { 1 ≤ length posts.items }
    requires sound { All (λ post. H.Gate.faults post.door ≡ 0) posts.items }
    requires empty { All (λ post. NoneCame (H.Gate.told post.door)) posts.items }
    requires seats { All (λ post. SeesAll press post.seat) posts.items }
    requires numbers { AreSeatsFrom 1 (map (λ post. post.seat) posts.items) }
    requires all_seats { length posts.items ≡ N.seats }
    requires publishers { (many : ℕ) × (press_publishers press ≡ 0 ∷ replicate many 1) }
    requires given { MayTakeBack (length posts.items) (H.told harbour.old) }
    ensures all { ServesAll H.Gate.closed H.Gate.faults H.Gate.told H.Gate.Line.Link
        (TakesEach (length posts.items) (H.told harbour.old) (H.told harbour.new))
        (length posts.items) (press_limit press) (press_maps press) (KeepsOn (press_batches press) (P.told result.1)) result.0 }
    ensures end { ((result.0 ≡ 0) × (H.faults harbour.new ≡ H.faults harbour.old) × (K.told out.new ≡ K.told out.old) × (K.faults out.new ≡ K.faults out.old))
        ⊎ (Rose (H.faults harbour.old) (H.faults harbour.new)
        × Delivers outcome.PortFault (K.told out.old) (K.told out.new) (K.faults out.old) (K.faults out.new) result.0) }
{
    let mut posts = posts;
    let press = Mutex::new(press);
    let end = serve(rt, alloc, posts.as_mut_slice(), &press);
    let keeper = hand_back(rt, press.into_inner(), posts, harbour);
    match end {
        ServeEnd::Closed => (0, keeper),
        ServeEnd::DoorFailed => (Outcome::PortFault.put(alloc, out), keeper),
    }
}

/// Ends the posts and the press. The doors go back to their harbour, and the keeper to the caller.
fn hand_back<N: StoreName, R: Wait, P: Keep, H: Harbour>(
    rt: &R,
    press: Press<Version, N, P>,
    posts: Vec<Post<H::Gate, N>>,
    harbour: &mut H,
) -> P
    requires { MayTakeBack (length posts.items) (H.told harbour.old) }
    ensures back { TakesAllBack (H.told harbour.old) (H.told harbour.new) (map (λ post. post.door) posts.items) }
    ensures failed { OneFailed (map (λ post. H.Gate.faults post.door) posts.items) → Rose (H.faults harbour.old) (H.faults harbour.new) }
    ensures sound { NoneFailed (map (λ post. H.Gate.faults post.door) posts.items) → H.faults harbour.new ≡ H.faults harbour.old }
    // What a seat has seen begins the list of the press.
    ensures gathered { All (λ post. IsPrefix (seat_versions post.seat) (press_versions press)) posts.items }
    // The versions that it has published are those of which the press knows it as the publisher.
    ensures numbers { All (λ post. seat_numbers post.seat ≡ numbers_of (seat_number post.seat) (press_publishers press)) posts.items }
    // What is told of the keeper fits the list.
    ensures keeper { FitsTold (drop 1 (press_batches press)) (P.told result) }
{
    let mut press = press;
    close_posts(posts, &mut press, harbour);
    press.part(rt)
}
