//! The command that serves a map at a port of this machine, with a journal of edits or without.

ghost use Rattle.std.specs.Prelude.{◌≡◌, ◌≢◌, ◌≤◌, ◌⊎◌, ◌∷◌, ℕ, List, [], string_bytes, map, length, option_map, None, Some, Ok, Err, IfSome, IfOk, OnOk, IfErr};
ghost use Rattle.std.specs.Arc.{arc_value};
ghost use Rattle.tgap_model.specs.declared.fault.MapFault.{MapFault as Fault};
ghost use Rattle.tgap_model.specs.Base.{BaseMap};
ghost use Rattle.tgap_model.specs.Faults.{Rose};
ghost use Rattle.tgap_model.specs.Partition.{IsPartition, base_segments, map_fault};
ghost use Rattle.plain_io.specs.declared.files.Which.{Which as Kind};
ghost use Rattle.version_store.specs.Folds.{FitsTold};
ghost use Rattle.commands.specs.declared.outcome.Outcome.TheVariants as outcome;
ghost use Rattle.commands.specs.Command as spec;
ghost use Rattle.commands.specs.MapFile.{files_of_map};
ghost use Rattle.commands.specs.Asked.{source_of};
ghost use Rattle.commands.specs.Answers.{AnswersCommand, Failed, KeepCounts, LeavesKind};
ghost use Rattle.commands.specs.Check.{IsFirstFault};
ghost use Rattle.serving.specs.Asked.{serving_of};
ghost use Rattle.serving.specs.Journals.{KeepsOn, IsRefusedServing, IsServed, RefusesServing};
ghost use Rattle.journal_fold.specs.Made.{values, maps_of, made_by};
ghost use Rattle.serving.specs.Later.{FollowFrom};
ghost use Rattle.serving.specs.Serving.{number_to, keep_command, serve_command, serve_named, serve_words, serving_text, CameBack, IsLoaded, IsSoundMap, IsStop, Serves, ServesAll};

use crate::journal::keep_map;
use crate::serve_store::serve_store;
use base_check::check;
use commands::{Outcome, Source, load_map, source_named};
use edit_journal::Disks;
use map_version::Version;
use plain_io::{Door, Files, Harbour, Sink, read_number};
use std::alloc::Global;
use std::marker::Brand;
use std::sync::{Arc, Wait};
use std::thread::Threads;
use tgap_build::{Built, build};
use tgap_model::{Base, Keep, Memory, NoKeeper, Text};
use version_store::start;

/// What is to be served, and how.
#[derive(Clone, Copy, Drop)]
pub struct Serving<'a> {
    /// The map.
    pub map: Source<'a>,
    /// The file in which edits are stored, where there is one.
    pub journal: Option<&'a str>,
    /// The port of this machine at which clients reach it.
    pub port: u16,
    /// How many workers there are, each of which serves one connection at a time.
    pub workers: u32,
    /// How many versions of the map may be kept.
    pub versions: u64,
}

/// What the words ask to serve, or None where they are no such command.
#[tactic(auto, unfolding(crate::specs::Serving::serve_words))]
pub fn parse_serve(words: &[String]) -> Option<Serving<'_>>
    ensures asked { option_map serving_of result ≡ serve_words (map string_bytes words.now) }
    ensures some { IfSome result (λ s. (1 ≤ s.workers) × (1 ≤ s.versions)) }
    ensures few { IfSome result (λ s. (s.workers ≤ 16) × (s.versions ≤ 64)) }
{
    let [name, words @ ..] = words else {
        return None;
    };
    let name = name.as_str();
    if name == "serve" {
        parse_served(words)
    } else if name == "keep" {
        parse_kept(words)
    } else {
        None
    }
}

/// What the words after `serve` ask to serve.
fn parse_served(words: &[String]) -> Option<Serving<'_>>
    ensures asked { option_map serving_of result ≡ serve_command (map string_bytes words.now) }
    ensures some { IfSome result (λ s. (1 ≤ s.workers) × (1 ≤ s.versions)) }
    ensures few { IfSome result (λ s. (s.workers ≤ 16) × (s.versions ≤ 64)) }
{
    let [map, words @ ..] = words else {
        return None;
    };
    parse(map.as_str(), None, words)
}

/// What the words after `keep` ask to serve.
fn parse_kept(words: &[String]) -> Option<Serving<'_>>
    ensures asked { option_map serving_of result ≡ keep_command (map string_bytes words.now) }
    ensures some { IfSome result (λ s. (1 ≤ s.workers) × (1 ≤ s.versions)) }
    ensures few { IfSome result (λ s. (s.workers ≤ 16) × (s.versions ≤ 64)) }
{
    let [map, journal, words @ ..] = words else {
        return None;
    };
    parse(map.as_str(), Some(journal.as_str()), words)
}

/// What the words after the files ask to serve.
fn parse<'a>(name: &'a str, journal: Option<&'a str>, words: &'a [String]) -> Option<Serving<'a>>
    ensures asked { option_map serving_of result
        ≡ serve_named name.now (option_map (λ journal. journal.now) journal.entry) (map string_bytes words.now) }
    ensures some { IfSome result (λ s. (1 ≤ s.workers) × (1 ≤ s.versions)) }
    ensures few { IfSome result (λ s. (s.workers ≤ 16) × (s.versions ≤ 64)) }
{
    let [port, workers, versions, rest @ ..] = words else {
        return None;
    };
    let map = source_named(name, rest)?;
    let port = number_to(port.as_bytes(), 65_535)?;
    let workers = number_to(workers.as_bytes(), 16)?;
    let versions = number_to(versions.as_bytes(), 64)?;
    Some(Serving {
        map,
        journal,
        port: port as u16,
        workers,
        versions: u64::from(versions),
    })
}

/// The number from 1 to `most` that a word spells.
fn number_to(word: &[u8], most: u32) -> Option<u32>
    ensures exact { result ≡ number_to most word.now }
    ensures some { IfSome result (λ n. 1 ≤ n) }
    ensures few { IfSome result (λ n. n ≤ most) }
{
    let number = read_number(word, 1, i64::from(most))?;
    Some(number as u32)
}

/// Loads a map, checks and builds it, and serves it until its doors give no more connections; where a journal is named, from the last version
/// that its entries come to, and each batch is stored there before its version is published. Puts the line that tells the port, or why
/// there is none, and gives the exit status. The journal's disk goes back to the disks in any case.
pub fn run_serve<R: Threads + Wait + Sync, F: Files, K: Sink, H: Harbour, D: Disks>(
    rt: &R,
    alloc: Global,
    serving: Serving<'_>,
    files: &mut F,
    out: &mut K,
    harbour: &mut H,
    disks: &mut D,
) -> u8
where
    <H::Gate as Door>::Line: Send,
    requires some { (1 ≤ serving.workers) × (1 ≤ serving.versions) }
    requires few { (serving.workers ≤ 16) × (serving.versions ≤ 64) }
    ensures serves { Serves (serving_text serving.entry.port) (CameBack (H.told harbour.old) (H.told harbour.new))
        ((m : BaseMap) × IsLoaded (source_of serving.entry.map) (F.told files.old) m
        × IsServed H.Gate.closed H.Gate.faults H.Gate.told H.Gate.Line.Link (CameBack (H.told harbour.old) (H.told harbour.new))
        (serving_of serving.entry) D.One.Disk (D.told disks.old) (D.held disks.old) (D.returned disks.new) m result)
        (H.faults harbour.old) (H.faults harbour.new) (K.told out.old) (K.told out.new) (K.faults out.old) (K.faults out.new) result
        (RefusesServing (serving_of serving.entry) (F.told files.old) (Failed (F.faults files.old) (F.faults files.new))
        (D.told disks.old) (D.held disks.old) (Rose (D.faults disks.old) (D.faults disks.new))) }
    ensures sound { (result ≡ 0) ⊎ (result ≡ 8) → IsSoundMap (source_of serving.entry.map) (F.told files.old) }
    ensures loads_kept { result ≢ 3 → result ≢ 6 → (kind : Kind) → F.faults files.new kind ≡ F.faults files.old kind }
    ensures kinds_kept { (kind : Kind) → LeavesKind (files_of_map (source_of serving.entry.map)) kind
        → F.faults files.new kind ≡ F.faults files.old kind }
    // Without a journal no disk is asked for. The count of faults of the disks stays where the map or the journal is refused.
    ensures no_disk { (serving_of serving.entry).journal ≡ None → (D.returned disks.new ≡ D.returned disks.old) × (D.faults disks.new ≡ D.faults disks.old) }
    ensures disks_kept { result ≡ 4 → D.faults disks.new ≡ D.faults disks.old }
{
    match first_version(rt, alloc, serving.map, files) {
        Ok(first) => serve_first(rt, alloc, first, serving, out, harbour, disks),
        Err(outcome) => outcome.put(alloc, out),
    }
}

/// The first version of a map that is to be served, or what comes in its place.
fn first_version<R: Threads + Sync, F: Files>(
    rt: &R,
    alloc: Global,
    map: Source<'_>,
    files: &mut F,
) -> Result<Arc<Version>, Outcome>
    ensures number { IfOk result (λ first. (arc_value first).number ≡ 0) }
    ensures batch { IfOk result (λ first. (arc_value first).batch ≡ []) }
    ensures first { IfOk result (λ first. IsLoaded (source_of map.entry) (F.told files.old) (arc_value first).built) }
    ensures refused { IfErr result (λ o. AnswersCommand (spec.Check (source_of map.entry)) (F.told files.old)
        (Failed (F.faults files.old) (F.faults files.new)) o) }
    ensures stops { IfErr result IsStop }
    ensures counts { KeepCounts (files_of_map (source_of map.entry)) (F.faults files.old) (F.faults files.new)
        (λ kind. result ≡ Err (outcome.LoadFault kind)) }
{
    let base = load_map(alloc, map, files)?;
    first_of_base(rt, alloc, base)
}

/// The first version of a base map; or its first fault, where it is no planar partition.
fn first_of_base<R: Threads + Sync>(
    rt: &R,
    alloc: Global,
    base: Base,
) -> Result<Arc<Version>, Outcome>
    ensures number { IfOk result (λ first. (arc_value first).number ≡ 0) }
    ensures batch { IfOk result (λ first. (arc_value first).batch ≡ []) }
    ensures first { IfOk result (λ first. (arc_value first).built ≡ base) }
    ensures sound { OnOk result (IsPartition (base_segments base)) }
    ensures refused { IfErr result (λ o. (o ≡ outcome.OutOfMemory)
        ⊎ ((fault : Fault) × (o ≡ outcome.Refused fault) × (map_fault base ≡ Some fault) × IsFirstFault base fault)) }
{
    let checked = check(rt, alloc, base)?;
    let built = build(rt, alloc, checked)?;
    Ok(first_of_built(alloc, built)?)
}

/// The first version of what was built of a map.
fn first_of_built(alloc: Global, built: Built) -> Result<Arc<Version>, Memory>
    requires planar { IsPartition (base_segments built) }
    ensures number { IfOk result (λ first. (arc_value first).number ≡ 0) }
    ensures batch { IfOk result (λ first. (arc_value first).batch ≡ []) }
    ensures first { IfOk result (λ first. (arc_value first).built ≡ built) }
{
    Ok(Arc::new(
        alloc,
        Version {
            number: 0,
            built,
            batch: Text::new(alloc),
        },
    )?)
}

/// Serves a map from its first version on, with a journal or without.
fn serve_first<R: Threads + Wait + Sync, K: Sink, H: Harbour, D: Disks>(
    rt: &R,
    alloc: Global,
    first: Arc<Version>,
    serving: Serving<'_>,
    out: &mut K,
    harbour: &mut H,
    disks: &mut D,
) -> u8
where
    <H::Gate as Door>::Line: Send,
    requires some { (1 ≤ serving.workers) × (1 ≤ serving.versions) }
    requires few { (serving.workers ≤ 16) × (serving.versions ≤ 64) }
    requires number { (arc_value first).number ≡ 0 }
    requires batch { (arc_value first).batch ≡ [] }
    ensures serves { Serves (serving_text serving.entry.port) (CameBack (H.told harbour.old) (H.told harbour.new))
        (IsServed H.Gate.closed H.Gate.faults H.Gate.told H.Gate.Line.Link (CameBack (H.told harbour.old) (H.told harbour.new))
        (serving_of serving.entry) D.One.Disk (D.told disks.old) (D.held disks.old) (D.returned disks.new) (arc_value first).built result)
        (H.faults harbour.old) (H.faults harbour.new) (K.told out.old) (K.told out.new) (K.faults out.old) (K.faults out.new) result
        (IsRefusedServing (serving_of serving.entry) (D.told disks.old) (D.held disks.old) (Rose (D.faults disks.old) (D.faults disks.new)) (arc_value first).built) }
    ensures no_disk { (serving_of serving.entry).journal ≡ None → (D.returned disks.new ≡ D.returned disks.old) × (D.faults disks.new ≡ D.faults disks.old) }
    ensures disks_kept { result ≡ 4 → D.faults disks.new ≡ D.faults disks.old }
{
    match serving.journal {
        None => {
            let later = Vec::new(alloc);
            serve_versions(rt, alloc, first, later, NoKeeper, serving, out, harbour).0
        }
        Some(name) => keep_map(rt, alloc, first, name, serving, out, harbour, disks),
    }
}

/// Serves a map from its first version and later ones on. The keeper keeps each batch before its version is published, and is given back.
pub(crate) fn serve_versions<R: Threads + Wait + Sync, P: Keep + Send, K: Sink, H: Harbour>(
    rt: &R,
    alloc: Global,
    first: Arc<Version>,
    later: Vec<Arc<Version>>,
    keeper: P,
    serving: Serving<'_>,
    out: &mut K,
    harbour: &mut H,
) -> (u8, P)
where
    <H::Gate as Door>::Line: Send,
    requires some { (1 ≤ serving.workers) × (1 ≤ serving.versions) }
    requires few { (serving.workers ≤ 16) × (serving.versions ≤ 64) }
    requires number { (arc_value first).number ≡ 0 }
    requires later { FollowFrom 1 (values later.items) }
    requires kept { FitsTold (made_by (values later.items)) (P.told keeper) }
    ensures { Serves (serving_text serving.entry.port) (CameBack (H.told harbour.old) (H.told harbour.new))
        (ServesAll H.Gate.closed H.Gate.faults H.Gate.told H.Gate.Line.Link (CameBack (H.told harbour.old) (H.told harbour.new))
        serving.entry.workers serving.entry.versions ((arc_value first).built ∷ maps_of (values later.items))
        (KeepsOn ((arc_value first).batch ∷ made_by (values later.items)) (P.told result.1)) result.0)
        (H.faults harbour.old) (H.faults harbour.new) (K.told out.old) (K.told out.new) (K.faults out.old) (K.faults out.new) result.0
        (λ o. o ≡ outcome.OutOfMemory) }
{
    match start(alloc, first, serving.versions, serving.workers) {
        Ok(store) => serve_store::<Brand, R, P, K, H>(
            rt,
            alloc,
            store,
            later,
            keeper,
            serving.port,
            out,
            harbour,
        ),
        Err(Memory) => (Outcome::OutOfMemory.put(alloc, out), keeper),
    }
}
