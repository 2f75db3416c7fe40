//! Files, and the maps that are read from them.

ghost use Rattle.std.specs.Prelude.{◌≡◌, ◌≤◌, ℕ, List, [], ◌∷◌, length, Err};
ghost use Rattle.std.specs.Str.{IsUtf8};
ghost use Rattle.commands.specs.declared.outcome.Outcome.TheVariants as outcome;
ghost use Rattle.commands.specs.Asked.{source_of};
ghost use Rattle.commands.specs.Command as spec;
ghost use Rattle.commands.specs.Answers.{Failed, Fetches, ReadsListing, ReadsTopology, ReadsMap, KeepCounts};
ghost use Rattle.commands.specs.MapFile.{files_of_map};

use crate::command::Source;
use crate::outcome::Outcome;
use area_listing::{read_listing, read_rules};
use plain_io::{Files, LoadFail, Which};
use ring_sides::to_base;
use std::alloc::Global;
use tgap_model::{Base, MAX_MAP_BYTES, MapFault, Text};
use topo_read::read_topology;

/// The bytes of a file, at most `max` of them, or what comes where they are not to be had.
pub fn load<F: Files>(
    alloc: Global,
    which: Which,
    name: &str,
    max: u64,
    files: &mut F,
) -> Result<Text, Outcome>
    ensures fetched { Fetches (F.told files.old which name.now) max which
        (Failed (F.faults files.old) (F.faults files.new) which) result }
    ensures counts { KeepCounts (record { which = which; name = name.now; max = max } ∷ []) (F.faults files.old)
        (F.faults files.new) (λ kind. result ≡ Err (outcome.LoadFault kind)) }
    ensures told { (kind : Which) (file : List ℕ) → F.told files.new kind file ≡ F.told files.old kind file }
{
    match files.load(alloc, which, name, max) {
        Ok(text) => Ok(text),
        Err(LoadFail::Failed) => Err(Outcome::LoadFault(which)),
        Err(LoadFail::TooLong { max }) => Err(Outcome::Refused(MapFault::InputLong { max })),
        Err(LoadFail::Memory) => Err(Outcome::OutOfMemory),
    }
}

/// The base map of these bytes, or what comes where they are the listing of none.
fn read_base(alloc: Global, bytes: &[u8]) -> Result<Base, Outcome>
    requires { length bytes.now ≤ MAX_MAP_BYTES }
    ensures { ReadsListing bytes.now result }
{
    Ok(read_listing(alloc, bytes)?)
}

/// The base map that the listing in a file spells, or what comes where none does.
fn load_listing<F: Files>(alloc: Global, name: &str, files: &mut F) -> Result<Base, Outcome>
    ensures read { ReadsMap (spec.Listing name.now) (F.told files.old)
        (Failed (F.faults files.old) (F.faults files.new)) result }
    ensures counts { KeepCounts (files_of_map (spec.Listing name.now)) (F.faults files.old) (F.faults files.new)
        (λ kind. result ≡ Err (outcome.LoadFault kind)) }
{
    let text = load(alloc, Which::Map, name, MAX_MAP_BYTES, files)?;
    read_base(alloc, text.as_slice())
}

/// The base map of these bytes as a topology with this object chosen, and with these rules, or what comes where they are
/// none.
fn read_topology_base(
    alloc: Global,
    map: &[u8],
    object: &str,
    rules: &[u8],
) -> Result<Base, Outcome>
    ensures { ReadsTopology map.now object.now rules.now result }
{
    let named = read_rules(alloc, rules)?;
    let property = utf8_of(&named.property);
    let raw = read_topology(alloc, map, object, property)?;
    Ok(to_base(alloc, &raw, &named)?)
}

/// The text as UTF-8.
fn utf8_of(text: &Text) -> &str
    requires { IsUtf8 text.now }
    ensures { result.now ≡ text.now }
{
    str::from_utf8(text.as_slice()).unwrap()
}

/// The base map that the topology in a file and the rules in another make, or what comes where they make none.
fn load_topology<F: Files>(
    alloc: Global,
    map: &str,
    object: &str,
    rules: &str,
    files: &mut F,
) -> Result<Base, Outcome>
    ensures read { ReadsMap (spec.Topology map.now object.now rules.now) (F.told files.old)
        (Failed (F.faults files.old) (F.faults files.new)) result }
    ensures counts { KeepCounts (files_of_map (spec.Topology map.now object.now rules.now)) (F.faults files.old) (F.faults files.new)
        (λ kind. result ≡ Err (outcome.LoadFault kind)) }
{
    let map = load(alloc, Which::Map, map, MAX_MAP_BYTES, files)?;
    let rules = load(alloc, Which::Rules, rules, MAX_MAP_BYTES, files)?;
    read_topology_base(alloc, map.as_slice(), object, rules.as_slice())
}

/// The base map that is read from its source, or what comes where none is.
pub fn load_map<F: Files>(alloc: Global, source: Source<'_>, files: &mut F) -> Result<Base, Outcome>
    ensures read { ReadsMap (source_of source.entry) (F.told files.old)
        (Failed (F.faults files.old) (F.faults files.new)) result }
    ensures counts { KeepCounts (files_of_map (source_of source.entry)) (F.faults files.old) (F.faults files.new)
        (λ kind. result ≡ Err (outcome.LoadFault kind)) }
{
    match source {
        Source::Listing(name) => load_listing(alloc, name, files),
        Source::Topology { map, object, rules } => load_topology(alloc, map, object, rules, files),
    }
}
