//! The rules file: JSON with the property that names classes, the classes, their compatibilities and the ratio.

ghost use Rattle.std.specs.Prelude.{◌≡◌, ◌≤◌, ◌<◌, ◌-◌, ◌++◌, map, length, codes, option_map, option_and_then, IfOk, IsTrue, Err};
ghost use Rattle.std.specs.Option.{ok_or, is_some};
ghost use Rattle.std.specs.Str.{IsUtf8};
ghost use Rattle.serde_json.specs.View.{view};
ghost use Rattle.serde_json.specs.Find.{get, as_object};
ghost use Rattle.tgap_model.specs.declared.failure.Or.TheVariants.{Fault};
ghost use Rattle.tgap_model.specs.declared.fault.MapFault.TheVariants.{BadRules};
ghost use Rattle.line_forms.specs.Json.{ensured, each_of, text_at, natural_in};
ghost use Rattle.map_forms.specs.RulesFile.{class_of, exactly, compat_of, classes_of, named_rules, rules_of, is_named_rules};
ghost use Rattle.plain_io.specs.Taking.{GivesWhole, LeavesWhole};
ghost use Rattle.area_listing.specs.RulesReading.{so_many, names_and_weights};

use plain_io::json;
use serde_json::Value;
use std::alloc::Global;
use tgap_model::{
    LimitKind, List, MAX_CLASSES, MAX_COMPATIBILITY, MAX_RATIO, MAX_WEIGHT, MapFault, NamedRules,
    Or, Rules, Text,
};

/// The rules that a rules file tells, by 'The rules file' of docs/formats.md.
///
/// A rules file is a JSON object. Its members are asked for in this order, and the first that is missing or not of its
/// form is the fault `BadRules`, with the place that stands before it:
///
/// - 0, the bytes: they are JSON in UTF-8;
/// - 1, the whole: an object;
/// - 2, `property`: a text, the property of a geometry that names its class;
/// - 3, `classes`: for each class an array of its name and its weight from 1 to 65,535, and one class at least;
/// - 4, `default`: the number of the class of a geometry that names none of them;
/// - 5, `compat`: for each class a row of the compatibilities of it as loser with each as winner, from 0 to 1,000;
/// - 6, `ratio`: the ratio of the vertex removal, from 0 to 65,535.
///
/// `Limit` is told where all classes are of their form and there are more than 256, before `default` is asked for.
/// Names may be alike: a geometry that names one of several has the class of the first.
pub fn read_rules(alloc: Global, bytes: &[u8]) -> Result<NamedRules, Or<MapFault>>
    // The rules, or the first fault, by the function that computes on small files.
    ensures exact { GivesWhole result (rules_of bytes.now) }
    // What is read keeps to the limits.
    ensures form { IfOk result (λ named. IsTrue (is_named_rules named)) }
    // The property is UTF-8.
    ensures utf8 { IfOk result (λ named. IsUtf8 named.property) }
{
    match json::read_tree(alloc, bytes)? {
        Some(tree) => named_rules(alloc, &tree),
        None => Err(bad_rules(0)),
    }
}

/// The fault of this place.
fn bad_rules(place: u8) -> Or<MapFault>
    ensures { result ≡ Fault (BadRules place) }
{
    Or::Fault(MapFault::BadRules { place })
}

/// What was found, or the fault of this place.
fn at_place<T>(place: u8, found: Option<T>) -> Result<T, Or<MapFault>>
    ensures { result ≡ ok_or found (Fault (BadRules place)) }
{
    match found {
        Some(value) => Ok(value),
        None => Err(bad_rules(place)),
    }
}

/// The rules that a JSON value tells.
#[tactic(auto, unfolding(map_forms::specs::RulesFile::named_rules))]
fn named_rules(alloc: Global, tree: &Value) -> Result<NamedRules, Or<MapFault>>
    ensures exact { GivesWhole result (named_rules (view tree.now)) }
    ensures utf8 { IfOk result (λ named. IsUtf8 named.property) }
{
    is_object(tree)?;
    let property = read_property(alloc, tree)?;
    let (names, weights) = read_classes(alloc, tree)?;
    let default = number_at(4, tree, "default", weights.len().saturating_sub(1) as u32)?;
    let compat = read_compatibilities(alloc, tree, weights.len())?;
    let ratio = number_at(6, tree, "ratio", MAX_RATIO)?;
    Ok(NamedRules {
        property,
        names,
        default,
        rules: Rules {
            ratio,
            weights,
            compat,
        },
    })
}

/// Asks that the value is an object.
fn is_object(tree: &Value) -> Result<(), Or<MapFault>>
    ensures { GivesWhole result (ensured (is_some (as_object (view tree.now))) (BadRules 1)) }
{
    if tree.is_object() {
        Ok(())
    } else {
        Err(bad_rules(1))
    }
}

/// The property that names classes.
fn read_property(alloc: Global, tree: &Value) -> Result<Text, Or<MapFault>>
    ensures exact { GivesWhole result (ok_or (text_at (codes "property") (view tree.now)) (BadRules 2)) }
    ensures utf8 { IfOk result (λ property. IsUtf8 property) }
{
    let text = at_place(2, json::text_at(tree, "property"))?;
    Ok(Text::from_slice(alloc, text.as_bytes())?)
}

/// The names and the weights of the classes.
fn read_classes(alloc: Global, tree: &Value) -> Result<(List<Text>, List<u32>), Or<MapFault>>
    ensures exact { GivesWhole result
        (names_and_weights (option_and_then classes_of (get (codes "classes") (view tree.now)))) }
    ensures few { IfOk result (λ classes. length classes.1 ≤ MAX_CLASSES) }
{
    let items = at_place(3, json::items_at(tree, "classes"))?;
    if items.is_empty() {
        Err(bad_rules(3))
    } else if items.len() > MAX_CLASSES {
        Err(Or::Fault(fault_of_many(items)))
    } else {
        collect_classes(alloc, items)
    }
}

/// The fault of more classes than the limit allows: that of one that is not of its form, or of the limit. Their names
/// are not kept.
fn fault_of_many(items: &[Value]) -> MapFault
    requires { MAX_CLASSES < length items.now }
    ensures { names_and_weights (each_of class_of (map view items.now)) ≡ Err result }
{
    for item in items {
        if class_of(item).is_none() {
            return MapFault::BadRules { place: 3 };
        }
    }
    MapFault::Limit {
        which: LimitKind::Classes,
        count: items.len() as u64,
    }
}

/// The names and the weights of so many classes as the limit allows.
fn collect_classes(alloc: Global, items: &[Value]) -> Result<(List<Text>, List<u32>), Or<MapFault>>
    requires { length items.now ≤ MAX_CLASSES }
    ensures exact { GivesWhole result (names_and_weights (each_of class_of (map view items.now))) }
    ensures few { IfOk result (λ classes. length classes.1 ≤ MAX_CLASSES) }
{
    let mut names = List::with_capacity(alloc, items.len())?;
    let mut weights = List::with_capacity(alloc, items.len())?;
    for item in items {
        let (name, weight) = at_place(3, class_of(item))?;
        names.push(Text::from_slice(alloc, name.as_bytes())?)?;
        weights.push(weight)?;
    }
    Ok((names, weights))
}

/// A class: its name and its weight.
fn class_of(item: &Value) -> Option<(&str, u32)>
    ensures { option_map (λ class. (class.0.now, class.1)) result ≡ class_of (view item.now) }
{
    match json::items_of(item)? {
        [name, weight] => {
            let name = name.as_str()?;
            Some((name, number_in(weight, 1, MAX_WEIGHT)?))
        }
        _ => None,
    }
}

/// The compatibilities of `n` classes, row after row.
fn read_compatibilities(alloc: Global, tree: &Value, n: usize) -> Result<List<u32>, Or<MapFault>>
    requires { n ≤ MAX_CLASSES }
    ensures { GivesWhole result
        (ok_or (option_and_then (compat_of n) (get (codes "compat") (view tree.now))) (BadRules 5)) }
{
    let table = at_place(5, tree.get("compat"))?;
    let rows = at_place(5, array_of(table, n))?;
    let mut compat = List::with_capacity(alloc, n * n)?;
    for row in rows {
        push_row(row, n, &mut compat)?;
    }
    Ok(compat)
}

/// A row of `n` compatibilities, put after those of `compat`.
fn push_row(row: &Value, n: usize, compat: &mut List<u32>) -> Result<(), Or<MapFault>>
    ensures { LeavesWhole result compat.new
        (ok_or (option_map (λ numbers. compat.old ++ numbers)
        (exactly n (natural_in 0 MAX_COMPATIBILITY) (view row.now))) (BadRules 5)) }
{
    let items = at_place(5, array_of(row, n))?;
    for item in items {
        let number = at_place(5, number_in(item, 0, MAX_COMPATIBILITY))?;
        compat.push(number)?;
    }
    Ok(())
}

/// The items of an array, where there are `n`.
fn array_of(value: &Value, n: usize) -> Option<&[Value]>
    ensures { option_map (λ items. map view items.now) result ≡ so_many n (view value.now) }
{
    let items = json::items_of(value)?;
    if items.len() == n { Some(items) } else { None }
}

/// The whole number from 0 to `high` that is this member, or the fault of this place.
fn number_at(place: u8, tree: &Value, key: &str, high: u32) -> Result<u32, Or<MapFault>>
    ensures { GivesWhole result
        (ok_or (option_and_then (natural_in 0 high) (get key.now (view tree.now))) (BadRules place)) }
{
    let value = at_place(place, tree.get(key))?;
    at_place(place, number_in(value, 0, high))
}

/// A whole number from `low` to `high`.
fn number_in(value: &Value, low: u32, high: u32) -> Option<u32>
    ensures { result ≡ natural_in low high (view value.now) }
{
    let number = json::natural_in(value, u64::from(low), u64::from(high))?;
    Some(number as u32)
}
