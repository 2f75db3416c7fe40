//! The plain listing of a base map, and the rules file. It stands on `map_forms`, whose `Listing` says how a base map is
//! spelled and what the first fault of other bytes is, as `RulesFile` does for rules, and on `plain_io`, which cuts a
//! text into lines and words, reads and writes numbers, and looks into the JSON values of `serde_json`.
#![tactic(auto)]

ghost use Rattle.std.specs.Prelude.{◌≡◌, IfOk, IsTrue, Ok, Err};
ghost use Rattle.tgap_model.specs.Base.{BaseMap, is_base};
ghost use Rattle.tgap_model.specs.declared.fault.MapFault.{MapFault as Fault};
ghost use Rattle.map_forms.specs.declared.version.Version.{Version};
ghost use Rattle.map_forms.specs.declared.version.Version.TheVariants.{Two};
ghost use Rattle.map_forms.specs.Listing.{IsListing, keeps_to, listing, listing_text, map_at, text_in};
ghost use Rattle.plain_io.specs.Taking.{GivesWhole};
ghost use Rattle.area_listing.specs.Reading.{GivesParts};

mod limit;
mod line;
mod row;
mod rules;
mod section;
mod write;

use line::{read_end, read_heading, read_transform};
use plain_io::{Lines, at_line};
pub use rules::read_rules;
use section::{read_arcs, read_faces, read_rules as read_listed_rules};
use std::alloc::Global;
pub use tgap_model::NamedRules;
use tgap_model::{Base, BaseArc, List, MapFault, Or, Rules, Transform};
pub use write::write_listing;

/// The base map that a listing spells, by 'The area listing' of docs/formats.md.
///
/// Its first line tells its version, `tgap 1` or `tgap 2`, and with it the limits of coordinates and of points. The faults
/// are `BadLine`, with the number of the first line that is out of form, and `Limit`, where a line is in form but a count in
/// it is above its limit. It is one pass over the bytes, in memory of a small multiple of them.
pub fn read_listing(alloc: Global, bytes: &[u8]) -> Result<Base, Or<MapFault>>
    // The base map, or the first fault, by the function that computes on small listings.
    ensures exact { GivesWhole result (listing bytes.now) }
    // What is read is spelled so, each byte of it.
    ensures read { IfOk result (IsListing bytes.now) }
    // What is spelled so is read, and nothing else comes but want of memory.
    ensures spelled { (m : BaseMap) → IsListing bytes.now m → GivesWhole result (Ok m) }
    // A fault comes only where the bytes are the listing of no base map.
    ensures fault { (f : Fault) → result ≡ Err (Or.Fault f) → (m : BaseMap) → ¬ (IsListing bytes.now m) }
{
    read_checked(alloc, bytes)
}

/// What holds of the listings of each base map.
pub fn listing_laws()
    // The one that is written is read back to its base map.
    ensures written { (m : BaseMap) → IsTrue (is_base m) → listing (listing_text m) ≡ Ok m }
    // So is the one in any version within whose limits the map is.
    ensures read { (v : Version) (m : BaseMap) → IsTrue (is_base m) → IsTrue (keeps_to v m) → listing (text_in v m) ≡ Ok m }
    // Each base map is within the limits of version 2.
    ensures kept { (m : BaseMap) → IsTrue (is_base m) → IsTrue (keeps_to Two m) }
{}

/// The base map that the bytes list, or their first fault. Only the border of each face is left to be asked for before
/// the last line: all else of a base map is asked line by line.
#[tactic(auto, unfolding(map_forms::specs::Listing::listing))]
fn read_checked(alloc: Global, bytes: &[u8]) -> Result<Base, Or<MapFault>>
    ensures { GivesWhole result (listing bytes.now) }
{
    let mut lines = Lines::of(bytes);
    let parts = read_map(alloc, &mut lines)?;
    let base = at_line(
        lines.number(),
        Base::new(parts.transform, parts.rules, parts.classes, parts.arcs),
    )?;
    read_end(&mut lines)?;
    Ok(base)
}

/// The parts of a base map, before it is known whether each face has a border.
#[derive(Drop)]
struct MapParts {
    transform: Transform,
    rules: Rules,
    classes: List<u32>,
    arcs: List<BaseArc>,
}

/// The parts of the map that is listed, up to the last line.
#[tactic(auto, unfolding(map_forms::specs::Listing::map_at))]
fn read_map(alloc: Global, lines: &mut Lines) -> Result<MapParts, Or<MapFault>>
    ensures { GivesParts result lines.new (map_at lines.old) }
{
    let version = at_line(lines.number(), read_heading(lines))?;
    let transform = at_line(lines.number(), read_transform(lines))?;
    let rules = read_listed_rules(alloc, lines)?;
    let classes = read_faces(alloc, lines, rules.weights.len() as u32)?;
    let arcs = read_arcs(alloc, lines, version, classes.len() as u32)?;
    Ok(MapParts {
        transform,
        rules,
        classes,
        arcs,
    })
}
