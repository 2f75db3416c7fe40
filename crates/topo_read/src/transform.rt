//! The transform of a topology, and what it says of the positions.

ghost use Rattle.std.specs.Prelude.{◌≡◌, codes, option_map};
ghost use Rattle.serde_json.specs.Find.{get};
ghost use Rattle.serde_json.specs.View.{view, number_view};
ghost use Rattle.topology_forms.specs.Topology.{word_of, pair_at, kept_transform, given_transform, quantized};
ghost use Rattle.topo_read.specs.Positions.{quantized_seen, whole_transform};

use plain_io::json::items_at;
use serde_json::{Number, Value};
use tgap_model::Transform;

/// What a topology tells of its positions: whether those after the first of an arc are differences, and the transform.
#[derive(Clone, Copy)]
pub struct Positions {
    pub deltas: bool,
    pub transform: Transform,
}

/// Scale 1, translation 0.
const NO_TRANSFORM: Transform = Transform {
    sx: 1,
    sy: 1,
    tx: 0,
    ty: 0,
};

/// What the member `transform` of a topology tells of its positions. With none they are absolute, and so with `null`.
pub fn quantized(topology: &Value) -> Option<Positions>
    ensures { option_map quantized_seen result ≡ quantized (get (codes "transform") (view topology.now)) }
{
    match topology.get("transform") {
        Some(transform) if !transform.is_null() => given_transform(transform),
        _ => Some(Positions {
            deltas: false,
            transform: NO_TRANSFORM,
        }),
    }
}

/// What a transform tells: the positions are differences, whatever its numbers are.
fn given_transform(transform: &Value) -> Option<Positions>
    ensures { option_map quantized_seen result ≡ given_transform (view transform.now) }
{
    let scale = pair_at(transform, "scale")?;
    let translate = pair_at(transform, "translate")?;
    Some(Positions {
        deltas: true,
        transform: kept_transform(scale, translate),
    })
}

/// The two numbers of the array that is this member.
fn pair_at(value: &Value, key: &str) -> Option<(Number, Number)>
    ensures { option_map (λ p. (number_view p.0, number_view p.1)) result ≡ pair_at key.now (view value.now) }
{
    match items_at(value, key)? {
        [x, y] => Some((*x.as_number()?, *y.as_number()?)),
        _ => None,
    }
}

/// A whole number of 32 bits with a sign.
fn word_of(number: &Number) -> Option<i32>
    ensures { result ≡ word_of (number_view number.now) }
{
    i32::try_from(number.as_i64()?).ok()
}

/// Four whole numbers are kept; others are nothing to the grid.
fn kept_transform(scale: (Number, Number), translate: (Number, Number)) -> Transform
    ensures { result ≡ kept_transform (number_view scale.0, number_view scale.1) (number_view translate.0, number_view translate.1) }
{
    whole_transform(scale, translate).unwrap_or(NO_TRANSFORM)
}

/// The transform of four whole numbers.
fn whole_transform(scale: (Number, Number), translate: (Number, Number)) -> Option<Transform>
    ensures { result ≡ whole_transform (number_view scale.0, number_view scale.1) (number_view translate.0, number_view translate.1) }
{
    Some(Transform {
        sx: word_of(&scale.0)?,
        sy: word_of(&scale.1)?,
        tx: word_of(&translate.0)?,
        ty: word_of(&translate.1)?,
    })
}
