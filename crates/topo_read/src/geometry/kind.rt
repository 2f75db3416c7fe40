//! What a geometry has for a property.

ghost use Rattle.std.specs.Prelude.{◌≡◌, codes, option_map, option_and_then, IfOk};
ghost use Rattle.serde_json.specs.View.{view};
ghost use Rattle.serde_json.specs.Find.{get};
ghost use Rattle.std.specs.Fmt.{signed_decimal};
ghost use Rattle.line_forms.specs.Json.{whole_of};
ghost use Rattle.topology_forms.specs.Topology.{text_of};

use plain_io::json::whole_of;
use plain_io::put_number;
use serde_json::Value;
use std::alloc::Global;
use tgap_model::{Memory, Text};

/// What stands in a geometry for this property.
pub fn property_of<'v>(geometry: &'v Value, property: &str) -> Option<&'v Value>
    ensures { option_map (λ found. view found.now) result
        ≡ option_and_then (get property.now) (get (codes "properties") (view geometry.now)) }
{
    geometry.get("properties")?.get(property)
}

/// The text of what stands for a property: itself, or a whole number in decimals. Other values have none.
pub fn kind_of(alloc: Global, value: Option<&Value>) -> Result<Option<Text>, Memory>
    ensures { IfOk result
        (λ kind. kind ≡ option_and_then text_of (option_map (λ found. view found.now) value.entry)) }
{
    match value {
        Some(value) => text_of(alloc, value),
        None => Ok(None),
    }
}

/// The text itself, or a whole number in decimals.
fn text_of(alloc: Global, value: &Value) -> Result<Option<Text>, Memory>
    ensures { IfOk result (λ text. text ≡ text_of (view value.now)) }
{
    match value.as_str() {
        Some(text) => Ok(Some(Text::from_slice(alloc, text.as_bytes())?)),
        None => decimal_of(alloc, value),
    }
}

/// A whole number in decimals.
fn decimal_of(alloc: Global, value: &Value) -> Result<Option<Text>, Memory>
    ensures { IfOk result (λ text. text ≡ option_map signed_decimal (whole_of (view value.now))) }
{
    let Some(number) = whole_of(value) else {
        return Ok(None);
    };
    let mut text = Text::new(alloc);
    put_number(alloc, &mut text, i128::from(number))?;
    Ok(Some(text))
}
