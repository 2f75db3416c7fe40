//! A JSON value that is read, and what is looked for in it.

ghost use Rattle.std.specs.Prelude.{◌≡◌, ℕ, map, option_map, IfOk};
ghost use Rattle.serde_json.specs.View.{view};
ghost use Rattle.line_forms.specs.Json.{tree, items_of, items_at, text_at, whole_of, natural_in};

use serde_json::Value;
use std::alloc::Global;
use tgap_model::Memory;

/// The JSON value that the bytes spell, or None where `serde_json` reads none of them for another cause than memory.
pub fn read_tree(alloc: Global, bytes: &[u8]) -> Result<Option<Value>, Memory>
    ensures { IfOk result (λ value. option_map view value ≡ tree bytes.now) }
{
    match Value::from_slice(alloc, bytes) {
        Ok(value) => Ok(Some(value)),
        Err(error) => {
            if error.is_memory() {
                Err(Memory)
            } else {
                Ok(None)
            }
        }
    }
}

/// The items of an array.
pub fn items_of(value: &Value) -> Option<&[Value]>
    ensures { option_map (λ items. map view items.now) result ≡ items_of (view value.now) }
{
    let items = value.as_array()?;
    Some(items.as_slice())
}

/// The items of the array that is this member of an object.
pub fn items_at<'v>(value: &'v Value, key: &str) -> Option<&'v [Value]>
    ensures { option_map (λ items. map view items.now) result ≡ items_at key.now (view value.now) }
{
    items_of(value.get(key)?)
}

/// The text that is this member of an object.
pub fn text_at<'v>(value: &'v Value, key: &str) -> Option<&'v str>
    ensures { option_map (λ text. text.now) result ≡ text_at key.now (view value.now) }
{
    value.get(key)?.as_str()
}

/// A whole number of 64 bits with a sign; `1.0` is none.
pub fn whole_of(value: &Value) -> Option<i64>
    ensures { result ≡ whole_of (view value.now) }
{
    value.as_i64()
}

/// A whole number from `low` to `high`.
pub fn natural_in(value: &Value, low: u64, high: u64) -> Option<u64>
    ensures { result ≡ natural_in low high (view value.now) }
{
    match value.as_u64() {
        Some(n) if low <= n && n <= high => Some(n),
        _ => None,
    }
}
