//! The head of a topology, and the object that is read.

ghost use Rattle.std.specs.Prelude.{◌≡◌, option_map, option_and_then};
ghost use Rattle.serde_json.specs.Find.{as_object, get};
ghost use Rattle.serde_json.specs.View.{view, members_view};
ghost use Rattle.topology_forms.specs.Topology.{chosen, only_member};
ghost use Rattle.plain_io.specs.Taking.{GivesWhole};
ghost use Rattle.topo_read.specs.Parts.{format_of};
ghost use Rattle.topo_read.specs.Seen.{GivesSeen};

use crate::fault::shape;
use plain_io::json::text_at;
use serde_json::{Map, Value};
use tgap_model::{MapFault, Or};

/// The fault of a JSON value that is no object of the type of a topology.
pub fn check_format(tree: &Value) -> Result<(), Or<MapFault>>
    ensures { GivesWhole result (format_of (view tree.now)) }
{
    if !tree.is_object() {
        return Err(shape(1, 0));
    }
    if text_at(tree, "type") != Some("Topology") {
        return Err(shape(2, 0));
    }
    Ok(())
}

/// The members of the object that is this member of an object.
pub fn object_at<'v>(value: &'v Value, key: &str) -> Option<&'v Map<String, Value>>
    ensures { option_map (λ m. members_view m.now.entries) result ≡ option_and_then as_object (get key.now (view value.now)) }
{
    value.get(key)?.as_object()
}

/// The only object, where there is one.
#[tactic(auto, using(crate::proofs::Objects::several))]
fn only_member(objects: &Map<String, Value>) -> Result<&Value, Or<MapFault>>
    ensures { GivesSeen (λ v. view v.now) result (only_member (members_view objects.now.entries)) }
{
    match objects.first_key_value() {
        None => Err(Or::Fault(MapFault::NoObject)),
        Some((_, only)) if objects.len() == 1 => Ok(only),
        Some(_) => Err(Or::Fault(MapFault::ManyObjects {
            count: objects.len() as u64,
        })),
    }
}

/// The object of this name, or the only one, where the name is `-`.
pub fn chosen<'v>(objects: &'v Map<String, Value>, name: &str) -> Result<&'v Value, Or<MapFault>>
    ensures { GivesSeen (λ v. view v.now) result (chosen name.now (members_view objects.now.entries)) }
{
    if name == "-" {
        only_member(objects)
    } else {
        objects.get(name).ok_or(Or::Fault(MapFault::NoObject))
    }
}
