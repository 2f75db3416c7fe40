//! A base map to which the lines of a batch are applied.

ghost use Rattle.std.specs.Prelude.{◌≡◌, ◌≤◌, ◌<◌, ◌+◌, ◌-◌, ◌^◌, ◌&&◌, ◌++◌, ◌∷◌, [], length, nat_le, IfSome, IfOk, OnOk, IsTrue};
ghost use Rattle.std.specs.List.{list_all};
ghost use Rattle.std.specs.Option.{ok_or};
ghost use Rattle.tgap_model.specs.declared.failure.Or.TheVariants.{Fault};
ghost use Rattle.tgap_model.specs.Base.{count_points, in_limits};
ghost use Rattle.tgap_model.specs.Chains.{arc_number};
ghost use Rattle.edit_laws.specs.Edits.{named, set_class, move_point, add_point, drop_point, cut_named, fuse_named, apply, apply_line};
ghost use Rattle.face_cuts.specs.Nodes.{add_node};
ghost use Rattle.face_cuts.specs.Fusions.{classes_without};
ghost use Rattle.plain_io.specs.Taking.{GivesWhole};
ghost use Rattle.edit_laws.specs.EditLaws.{FitsLimits};
ghost use Rattle.map_version.specs.Indexed.{arcs_of};
ghost use Rattle.map_version.specs.Firsts.{pair_of};
ghost use Rattle.map_version.specs.Lines.{told};
ghost use Rattle.map_version.specs.Drafts.{IsDraft, arcs_now, drafted};
ghost use Rattle.map_version.specs.Drops.{goes_on};

use crate::arcs::{IndexedArcs, Place};
use crate::cause::{
    IS_NODE, NO_ROOM, NO_SUCH_NUMBER, NO_SUCH_POINT, NO_SUCH_SEGMENT, NOT_FREE, NOTHING_BETWEEN,
    NOTHING_LEFT, PAST_LIMIT, POINT_TAKEN, TURNS_BACK, ensured, found,
};
use crate::labels::Fusion;
use crate::line::{Edit, read_edit};
use crate::path::{Sought, turns_back};
use plain_io::{Pieces, read_number};
use std::alloc::Global;
use std::marker::Model;
use tgap_model::{Base, List, MAX_ARCS, MAX_FACES, MAX_POINTS, Memory, Or, Point};

/// A base map with other classes, and from the first line on that does more than set a class with other arcs, which are a copy with
/// the places of its points. Until then its arcs are those of the base map. It is a base map at any time.
#[derive(Drop)]
pub struct Draft<'a> {
    base: &'a Base,
    classes: Vec<u32>,
    arcs: Option<IndexedArcs>,
}

impl<'a> Model for Draft<'a> {
    ghost use Rattle.tgap_model.specs.Base.{BaseMap};
    ghost use Rattle.map_version.specs.Drafts.{IsDraft, arcs_now, drafted};

    ghost Value = { BaseMap };

    ghost view = { λ d. drafted d.base.now d.classes.items (arcs_now d.arcs d.base.now.arcs) };

    ghost invariant = { λ d. IsDraft (drafted d.base.now d.classes.items (arcs_now d.arcs d.base.now.arcs)) d.arcs };
}

/// The number from `least` to `most` that a word names.
fn named(word: &[u8], least: u32, most: usize) -> Option<usize>
    requires { most < 2 ^ 32 }
    ensures named { result ≡ named least most word.now }
    ensures range { IfSome result (λ number. (least ≤ number) × (number ≤ most)) }
{
    let number = read_number(word, i64::from(least), most as i64)?;
    Some(number as usize)
}

/// The arcs that were indexed, or else those of the base map, of which there are so many faces as classes.
fn own_arcs(
    alloc: Global,
    base: &Base,
    classes: &[u32],
    indexed: Option<IndexedArcs>,
) -> Result<IndexedArcs, Memory>
    requires { IsDraft (drafted base.now classes.now (arcs_now indexed base.now.arcs)) indexed }
    ensures arcs { IfOk result (λ arcs. arcs_of arcs ≡ arcs_now indexed base.now.arcs) }
    ensures faces { IfOk result (λ arcs. arcs.faces ≡ length classes.now) }
{
    match indexed {
        Some(arcs) => Ok(arcs),
        None => IndexedArcs::of(alloc, base.arcs().as_slice(), classes.len()),
    }
}

/// Goes on where the points before and after an inner point differ.
fn goes_on(arcs: &IndexedArcs, place: Place) -> Result<(), Or<u8>>
    requires slot { place.slot < length arcs.now.slots }
    requires before { 1 ≤ place.at }
    requires after { place.at + 1 < length (arc_number arcs.now.slots place.slot).points }
    ensures { GivesWhole result (goes_on (arcs_of arcs.now) (pair_of arcs.now.slots place)) }
{
    ensured(!turns_back(arcs.points(place.slot), place.at), TURNS_BACK)
}

/// Whether a map with so many faces and these arcs may have so many more faces, and an arc more with so many points.
fn has_room(faces: usize, arcs: &IndexedArcs, more: usize, points: usize) -> bool
    ensures { result ≡ (nat_le (faces + more) MAX_FACES && nat_le (length (arcs_of arcs.now) + 1) MAX_ARCS && nat_le (count_points (arcs_of arcs.now) + points) MAX_POINTS) }
{
    faces <= MAX_FACES && more <= MAX_FACES - faces && arcs.has_room(1, points)
}

/// Puts the class of a new last face after the others.
fn put_class(classes: &mut Vec<u32>, class: u32) -> Result<(), Memory>
    ensures { OnOk result (classes.new.items ≡ classes.old.items ++ class ∷ []) }
{
    classes.push(class)?;
    Ok(())
}

/// Takes the class of a face out. In its place there is that of the last face.
fn take_out(classes: &mut Vec<u32>, gone: u32)
    requires some { 1 ≤ gone }
    requires within { gone ≤ length classes.old.items }
    ensures { classes.new.items ≡ classes_without gone classes.old.items }
{
    let last = classes.len() - 1;
    classes[gone as usize - 1] = classes[last];
    classes.truncate(last);
}

impl<'a> Draft<'a> {
    /// The base map, before any line. Its classes are copied, and no point is.
    pub fn of(alloc: Global, base: &'a Base) -> Result<Draft<'a>, Memory>
        ensures { IfOk result (λ draft. draft ≡ base.entry.now) }
    {
        Ok(Draft {
            base,
            classes: Vec::from_slice(alloc, base.classes().as_slice())?,
            arcs: None,
        })
    }

    /// The base map that it is. Where each line set a class, it holds the arcs of the one that it began as.
    pub fn into_base(self, alloc: Global) -> Result<Base, Memory>
        ensures { IfOk result (λ base. base ≡ self.entry) }
    {
        let Draft {
            base,
            classes,
            arcs,
        } = self;
        let classes = List::from(classes);
        match arcs {
            Some(arcs) => base.with_parts(alloc, classes, arcs.into_list()),
            None => base.with_classes(alloc, classes),
        }
    }

    /// The map after a line of the batch.
    pub fn apply_line(self, alloc: Global, words: &mut Pieces) -> Result<Draft<'a>, Or<u8>>
        ensures { GivesWhole result (apply_line self.entry words.old) }
    {
        let edit = read_edit(alloc, words)?;
        self.apply(alloc, edit)
    }

    /// The map after an edit whose new points, if it has any, are within the limits.
    fn apply(self, alloc: Global, edit: Edit) -> Result<Draft<'a>, Or<u8>>
        requires { FitsLimits (told edit) }
        ensures { GivesWhole result (apply self.entry (told edit.entry)) }
    {
        match edit {
            Edit::Class { face, class } => self.set_class(face, class),
            Edit::Move { old, new } => self.move_point(alloc, &old, new),
            Edit::Add { a, b, new } => self.add_point(alloc, a, b, new),
            Edit::Remove { old } => self.drop_point(alloc, old),
            Edit::Node { at } => self.add_node(alloc, at),
            Edit::Cut {
                face,
                class,
                points,
            } => self.cut_face(alloc, face, class, points),
            Edit::Fuse { kept, gone } => self.fuse_faces(alloc, kept, gone),
        }
    }

    /// The face that a word names.
    fn face_named(&self, word: &[u8]) -> Result<u32, Or<u8>>
        ensures named { result ≡ ok_or (named 1 (length self.now.classes) word.now) (Fault 2) }
        ensures range { IfOk result (λ face. (1 ≤ face) × (face ≤ length self.now.classes)) }
    {
        let face = found(named(word, 1, self.classes.len()), NO_SUCH_NUMBER)?;
        Ok(face as u32)
    }

    /// The class that a word names.
    fn class_named(&self, word: &[u8]) -> Result<u32, Or<u8>>
        ensures named { result ≡ ok_or (named 0 (length self.now.rules.weights - 1) word.now) (Fault 2) }
        ensures range { IfOk result (λ class. class < length self.now.rules.weights) }
    {
        let most = self.base.rules().weights.len() - 1;
        let class = found(named(word, 0, most), NO_SUCH_NUMBER)?;
        Ok(class as u32)
    }

    /// The map with this class for this face.
    #[tactic(auto, unfolding(edit_laws::specs::Edits::set_class))]
    fn set_class(mut self, face: &[u8], class: &[u8]) -> Result<Draft<'a>, Or<u8>>
        ensures { GivesWhole result (set_class self.entry face.now class.now) }
    {
        let face = self.face_named(face)?;
        let class = self.class_named(class)?;
        self.classes[face as usize - 1] = class;
        Ok(self)
    }

    /// The map with a point moved.
    #[tactic(auto, unfolding(edit_laws::specs::Edits::move_point))]
    fn move_point(mut self, alloc: Global, old: &Point, new: Point) -> Result<Draft<'a>, Or<u8>>
        requires { IsTrue (in_limits new) }
        ensures { GivesWhole result (move_point self.entry old.now new) }
    {
        let indexed = self.arcs;
        let arcs = own_arcs(alloc, self.base, &self.classes, indexed)?;
        ensured(arcs.has_point(old), NO_SUCH_POINT)?;
        ensured(!arcs.has_point(&new), POINT_TAKEN)?;
        self.arcs = Some(arcs.move_all(alloc, old, new)?);
        Ok(self)
    }

    /// The map with a point more between the ends of a segment.
    fn add_point(
        mut self,
        alloc: Global,
        a: Point,
        b: Point,
        new: Point,
    ) -> Result<Draft<'a>, Or<u8>>
        requires { IsTrue (in_limits new) }
        ensures { GivesWhole result (add_point self.entry a b new) }
    {
        let indexed = self.arcs;
        let arcs = own_arcs(alloc, self.base, &self.classes, indexed)?;
        let place = found(arcs.place_of(&Sought::Segment(a, b)), NO_SUCH_SEGMENT)?;
        ensured(!arcs.has_point(&new), POINT_TAKEN)?;
        ensured(arcs.count_points() < MAX_POINTS, NO_ROOM)?;
        self.arcs = Some(arcs.insert(alloc, place, new)?);
        Ok(self)
    }

    /// The map with an inner point taken out.
    #[tactic(auto, unfolding(edit_laws::specs::Edits::drop_point))]
    fn drop_point(mut self, alloc: Global, old: Point) -> Result<Draft<'a>, Or<u8>>
        ensures { GivesWhole result (drop_point self.entry old) }
    {
        let indexed = self.arcs;
        let arcs = own_arcs(alloc, self.base, &self.classes, indexed)?;
        ensured(arcs.has_point(&old), NO_SUCH_POINT)?;
        ensured(!arcs.is_node(&old), IS_NODE)?;
        let place = found(arcs.place_of(&Sought::Inner(old)), NO_SUCH_POINT)?;
        goes_on(&arcs, place)?;
        self.arcs = Some(arcs.remove(alloc, place));
        Ok(self)
    }

    /// The map with a node where it has an inner vertex.
    #[tactic(auto, unfolding(face_cuts::specs::Nodes::add_node))]
    fn add_node(mut self, alloc: Global, at: Point) -> Result<Draft<'a>, Or<u8>>
        ensures { GivesWhole result (add_node self.entry at) }
    {
        let indexed = self.arcs;
        let arcs = own_arcs(alloc, self.base, &self.classes, indexed)?;
        let place = found(arcs.place_of(&Sought::Any(at)), NO_SUCH_POINT)?;
        ensured(!arcs.is_node(&at), IS_NODE)?;
        ensured(has_room(self.classes.len(), &arcs, 0, 1), PAST_LIMIT)?;
        self.arcs = Some(arcs.split(alloc, place)?);
        Ok(self)
    }

    /// The map in which a new last arc with these points cuts a face. There is a new last face at its left then.
    #[tactic(auto, unfolding(edit_laws::specs::Edits::cut_named))]
    fn cut_face(
        mut self,
        alloc: Global,
        face: &[u8],
        class: &[u8],
        points: List<Point>,
    ) -> Result<Draft<'a>, Or<u8>>
        requires long { 2 ≤ length points }
        requires limits { IsTrue (list_all in_limits points) }
        ensures { GivesWhole result (cut_named self.entry face.now class.now points) }
    {
        let face = self.face_named(face)?;
        let class = self.class_named(class)?;
        let indexed = self.arcs;
        let arcs = own_arcs(alloc, self.base, &self.classes, indexed)?;
        ensured(
            has_room(self.classes.len(), &arcs, 1, points.len()),
            PAST_LIMIT,
        )?;
        ensured(arcs.are_free(alloc, points.as_slice())?, NOT_FREE)?;
        let new = self.classes.len() as u32 + 1;
        self.arcs = Some(arcs.cut(alloc, face, new, points)?);
        put_class(&mut self.classes, class)?;
        Ok(self)
    }

    /// The map in which one face is a part of another one, and the last face has its number.
    #[tactic(auto, unfolding(edit_laws::specs::Edits::fuse_named))]
    fn fuse_faces(mut self, alloc: Global, kept: &[u8], gone: &[u8]) -> Result<Draft<'a>, Or<u8>>
        ensures { GivesWhole result (fuse_named self.entry kept.now gone.now) }
    {
        let kept = self.face_named(kept)?;
        let gone = self.face_named(gone)?;
        let fusion = Fusion {
            faces: self.classes.len() as u32,
            kept,
            gone,
        };
        let indexed = self.arcs;
        let arcs = own_arcs(alloc, self.base, &self.classes, indexed)?;
        ensured(arcs.is_any_between(&fusion), NOTHING_BETWEEN)?;
        ensured(arcs.is_any_left(&fusion), NOTHING_LEFT)?;
        self.arcs = Some(arcs.fuse(alloc, &fusion)?);
        take_out(&mut self.classes, gone);
        Ok(self)
    }
}
