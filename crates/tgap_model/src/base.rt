//! The base map.

ghost use Rattle.std.specs.Prelude.{◌≡◌, IsTrue, IfOk};
ghost use Rattle.tgap_model.specs.Base.{is_base, is_transform, checked};

use crate::bordered::with_borders;
use crate::copies::copied_rules;
use crate::failure::Memory;
use crate::geometry::Point;
use crate::held_arcs::HeldArcs;
use crate::list::List;
use crate::validity::are_parts;
use std::alloc::Global;
use std::marker::Model;

/// The transform of a map: scale and translation, kept for its reader.
#[derive(Clone, Copy, PartialEq, Eq)]
pub struct Transform {
    pub sx: i32,
    pub sy: i32,
    pub tx: i32,
    pub ty: i32,
}

/// The rules of merging: the ratio of the vertex removal, the weight of each class, and the
/// compatibility of each class as loser with each class as winner, row after row.
#[derive(Drop)]
pub struct Rules {
    pub ratio: u32,
    pub weights: List<u32>,
    pub compat: List<u32>,
}

/// An arc: its points from its first end to its last, and the faces at its left and right.
#[derive(Drop)]
pub struct BaseArc {
    pub left: u32,
    pub right: u32,
    pub points: List<Point>,
}

/// A base map: rules, the class of each face, and the arcs. It keeps the rules of `docs/rules.md`. Several base maps may
/// hold the same arcs at once.
#[derive(Drop)]
pub struct Base {
    transform: Transform,
    rules: Rules,
    classes: List<u32>,
    arcs: HeldArcs,
}

impl Model for Base {
    ghost use Rattle.std.specs.Prelude.{IsTrue};
    ghost use Rattle.tgap_model.specs.Base.{BaseMap, is_base};

    ghost Value = { BaseMap };

    ghost view = { λ b. record { transform = b.transform; rules = b.rules; classes = b.classes; arcs = b.arcs } };

    ghost invariant = { λ b. IsTrue (is_base (record { transform = b.transform; rules = b.rules; classes = b.classes; arcs = b.arcs })) };
}

/// The same transform. Its numbers are read, so that it is known of each that it has 32 bits.
fn read_transform(transform: Transform) -> Transform
    ensures same { result ≡ transform }
    ensures words { IsTrue (is_transform transform) }
{
    let Transform { sx, sy, tx, ty } = transform;
    Transform { sx, sy, tx, ty }
}

impl Base {
    /// The base map of these parts, or None exactly where they are none: where the rules, a class, an arc, a limit or
    /// a coordinate is out of form, or a face has no border. It takes no memory; what it refuses is dropped.
    pub fn new(
        transform: Transform,
        rules: Rules,
        classes: List<u32>,
        arcs: List<BaseArc>,
    ) -> Option<Base>
        ensures { result ≡ checked (record { transform = transform; rules = rules; classes = classes; arcs = arcs }) }
    {
        let transform = read_transform(transform);
        if !are_parts(&rules, classes.as_slice(), arcs.as_slice()) {
            return None;
        }
        let classes = with_borders(classes, arcs.as_slice())?;
        Some(Base {
            transform,
            rules,
            classes,
            arcs: HeldArcs::of(arcs),
        })
    }

    /// The same base map, whose arcs others can hold too from then on.
    pub fn into_shared(self, alloc: Global) -> Result<Base, Memory>
        ensures { IfOk result (λ base. base ≡ self) }
    {
        Ok(Base {
            arcs: self.arcs.into_shared(alloc)?,
            transform: self.transform,
            rules: self.rules,
            classes: self.classes,
        })
    }

    /// The base map with these classes of its faces. Where others can hold its arcs, the two hold them together, and the
    /// time and the memory are those of the rules and of the classes; otherwise the arcs are copied.
    pub fn with_classes(&self, alloc: Global, classes: List<u32>) -> Result<Base, Memory>
        requires { IsTrue (is_base (record { transform = self.now.transform; rules = self.now.rules; classes = classes; arcs = self.now.arcs })) }
        ensures { IfOk result (λ base. base ≡ record { transform = self.now.transform; rules = self.now.rules; classes = classes; arcs = self.now.arcs }) }
    {
        Ok(Base {
            transform: self.transform,
            rules: copied_rules(alloc, &self.rules)?,
            classes,
            arcs: self.arcs.share(alloc)?,
        })
    }

    /// The base map with these classes of its faces and these arcs, which are known to keep the rules with its transform and its
    /// rules of merging, so they are not checked anew. The time and the memory are those of the rules.
    pub fn with_parts(
        &self,
        alloc: Global,
        classes: List<u32>,
        arcs: List<BaseArc>,
    ) -> Result<Base, Memory>
        requires { IsTrue (is_base (record { transform = self.now.transform; rules = self.now.rules; classes = classes; arcs = arcs })) }
        ensures { IfOk result (λ base. base ≡ record { transform = self.now.transform; rules = self.now.rules; classes = classes; arcs = arcs }) }
    {
        Ok(Base {
            transform: self.transform,
            rules: copied_rules(alloc, &self.rules)?,
            classes,
            arcs: HeldArcs::of(arcs),
        })
    }

    /// The transform.
    pub fn transform(&self) -> &Transform
        ensures value { result.now ≡ self.now.transform }
        ensures base { IsTrue (is_base self.now) }
    {
        &self.transform
    }

    /// The rules of merging.
    pub fn rules(&self) -> &Rules
        ensures value { result.now ≡ self.now.rules }
        ensures base { IsTrue (is_base self.now) }
    {
        &self.rules
    }

    /// The class of each face, in order of number from face 1 on.
    pub fn classes(&self) -> &List<u32>
        ensures value { result.now ≡ self.now.classes }
        ensures base { IsTrue (is_base self.now) }
    {
        &self.classes
    }

    /// The arcs, by number from 0.
    pub fn arcs(&self) -> &List<BaseArc>
        ensures value { result.now ≡ self.now.arcs }
        ensures base { IsTrue (is_base self.now) }
    {
        self.arcs.list()
    }
}
