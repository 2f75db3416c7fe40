//! The arcs of a map that is edited, with the places of their points and the borders of faces.

ghost use Rattle.std.specs.Prelude.{◌≡◌, ◌≢◌, ◌≤◌, ◌<◌, ◌+◌, ◌^◌, ◌++◌, ◌∷◌, [], ◌||◌, ℕ, false, true, length, map, insert, remove, option_map, nat_le, All, IfSome, IfOk, IsTrue};
ghost use Rattle.std.specs.List.{list_any};
ghost use Rattle.tgap_model.specs.Base.{same_point, borders_face, count_points};
ghost use Rattle.tgap_model.specs.Chains.{arc_number};
ghost use Rattle.ring_walk.specs.Spans.{AreSpans, IsSide};
ghost use Rattle.plain_io.specs.Taking.{GivesWhole};
ghost use Rattle.edit_laws.specs.Edits.{has_point, is_node, move_all};
ghost use Rattle.face_cuts.specs.Nodes.{passes, split_at};
ghost use Rattle.face_cuts.specs.Fusions.{is_between, others};
ghost use Rattle.face_cuts.specs.Cuts.{are_free, has_point as arcs_have};
ghost use Rattle.face_cuts.specs.Sectors.{spans_of};
ghost use Rattle.face_cuts.specs.NewRings.{AreLines, IsNewLine};
ghost use Rattle.arc_places.specs.Slots.{arcs_in, number_of};
ghost use Rattle.arc_places.specs.Places.{arc_passes, is_among};
ghost use Rattle.arc_places.specs.Borders.{HaveFaces};
ghost use Rattle.map_version.specs.Indexed.{GivesArcs, arcs_of, cut_arcs, ends_there, fused_arcs, has_more};
ghost use Rattle.map_version.specs.Firsts.{earlier, pair_of};
ghost use Rattle.map_version.specs.Labels.{is_other, is_taken, moved_slots, passed_over, slot_side};
ghost use Rattle.map_version.specs.Positions.{position, first_place, changed_at};

use crate::cause::cause_of;
use crate::labels::{Counts, Fusion, SlotSide, pass_over};
use crate::path::{Sought, has_point, insert_in, is_end, move_in, remove_in, split_off};
use arc_places::{Borders, ListedSlots, Places, SlotTable, arcs_in};
use face_cuts::{are_different, cut_along, inner_points};
use ring_walk::Side;
use std::alloc::Global;
use std::marker::Model;
use tgap_model::{BaseArc, List, MAX_ARCS, MAX_POINTS, Memory, Or, Point, copied_arcs};

/// The place of a point: the slot of its arc, and its position there.
#[derive(Clone, Copy)]
pub struct Place {
    pub slot: usize,
    pub at: usize,
}

/// Arcs in slots, for each point the slots of arcs that may have it, and for each face those of arcs that may border it. An arc
/// keeps its slot as long as it is there, and one without points is gone. Cuts may list `spare` more before all is indexed anew.
#[derive(Drop)]
pub struct IndexedArcs {
    slots: Vec<BaseArc>,
    places: Places,
    borders: Borders,
    counts: Counts,
    spare: usize,
}

impl Model for IndexedArcs {
    ghost use Rattle.arc_places.specs.Borders.{face_count};
    ghost use Rattle.map_version.specs.Indexed.{AreIndexed, Indexed};

    ghost Value = { Indexed };

    ghost view = { λ a. record { slots = a.slots.items; faces = face_count a.borders } };

    ghost invariant = { λ a. AreIndexed a.slots.items a.places a.borders a.counts };
}

/// Moves the old point to the new one in the arcs that are listed.
fn move_listed(
    alloc: Global,
    arcs: &mut [BaseArc],
    listed: ListedSlots<'_>,
    old: &Point,
    new: Point,
)
    requires apart { same_point old.now new ≡ false }
    requires listed { (i : ℕ) → arc_passes (passes old.now) arcs.old i ≡ true → is_among i listed ≡ true }
    ensures { arcs.new ≡ move_all old.now new arcs.old }
{
    for at in 0..listed.count() {
        let slot = listed.slot(at);
        if slot < arcs.len() {
            move_in(alloc, &mut arcs[slot], old, new);
        }
    }
}

/// The place that was first before, or this one, if it is one and its slot comes before.
fn earlier(first: Option<Place>, slot: usize, at: Option<usize>) -> Option<Place>
    ensures { result ≡ earlier first slot at }
{
    let Some(at) = at else {
        return first;
    };
    match first {
        Some(place) if place.slot <= slot => first,
        _ => Some(Place { slot, at }),
    }
}

/// How many these arcs are, and how many points they have.
fn counts_of(arcs: &[BaseArc]) -> Counts
    requires { count_points arcs.now ≤ MAX_POINTS }
    ensures arcs { result.arcs ≡ length arcs.now }
    ensures points { result.points ≡ count_points arcs.now }
{
    Counts {
        arcs: arcs.len(),
        points: arcs.iter().map(|arc| arc.points.len()).sum(),
    }
}

/// Whether there may be so many more, where there are so many and there may be no more than the limit.
fn is_room(count: usize, more: usize, limit: usize) -> bool
    ensures { result ≡ nat_le (count + more) limit }
{
    count <= limit && more <= limit - count
}

/// The slots of sides of arcs.
fn slots_of(alloc: Global, table: &SlotTable<'_>, sides: &[Side]) -> Result<List<SlotSide>, Memory>
    requires { All (IsSide (length (arcs_in table.now))) sides.now }
    ensures { IfOk result (λ made. made ≡ map (slot_side table.now) sides.now) }
{
    let mut made = List::new(alloc);
    for side in sides {
        made.push(SlotSide {
            slot: table.slot(side.span),
            way: side.way,
        })?;
    }
    Ok(made)
}

impl IndexedArcs {
    /// Copies of these arcs, of a map with so many faces beside the one outside.
    pub fn of(alloc: Global, arcs: &[BaseArc], faces: usize) -> Result<IndexedArcs, Memory>
        requires few { faces < 2 ^ 32 }
        requires faces { HaveFaces faces arcs.now }
        requires points { count_points arcs.now ≤ MAX_POINTS }
        requires there { arcs_in arcs.now ≡ arcs.now }
        ensures { IfOk result (λ copy. copy ≡ record { slots = arcs.now; faces = faces }) }
    {
        let places = Places::of(alloc, arcs)?;
        let borders = Borders::of(alloc, arcs, faces)?;
        let counts = counts_of(arcs);
        let slots = copied_arcs(alloc, arcs)?.into_vec();
        Ok(IndexedArcs {
            slots,
            places,
            borders,
            counts,
            spare: counts.arcs + counts.points,
        })
    }

    /// The arcs alone, without those that are gone.
    pub fn into_list(self) -> List<BaseArc>
        ensures { result ≡ arcs_of self }
    {
        arcs_in(self.slots)
    }

    /// The points of the arc in a slot; none where it is gone, and where there is no slot of that number.
    pub fn points(&self, slot: usize) -> &[Point]
        ensures { result.now ≡ (arc_number self.now.slots slot).points }
    {
        match self.slots.get(slot) {
            Some(arc) => arc.points.as_slice(),
            None => &[],
        }
    }

    /// Whether some arc has the point.
    pub fn has_point(&self, point: &Point) -> bool
        ensures { result ≡ has_point point.now (arcs_of self.now) }
    {
        let listed = self.places.of_point(point);
        for at in 0..listed.count() {
            if has_point(self.points(listed.slot(at)), point) {
                return true;
            }
        }
        false
    }

    /// Whether the arc in this slot is there, and begins or ends at the point.
    fn ends_at(&self, slot: usize, point: &Point) -> bool
        ensures { result ≡ arc_passes (ends_there point.now) self.now.slots slot }
    {
        let points = self.points(slot);
        !points.is_empty() && is_end(points, point)
    }

    /// Whether some arc begins or ends at the point.
    pub fn is_node(&self, point: &Point) -> bool
        ensures { result ≡ is_node point.now (arcs_of self.now) }
    {
        let listed = self.places.of_point(point);
        for at in 0..listed.count() {
            if self.ends_at(listed.slot(at), point) {
                return true;
            }
        }
        false
    }

    /// Where the first of these stands: in the arc of the least number, at the least position.
    pub fn place_of(&self, sought: &Sought) -> Option<Place>
        ensures first { option_map (pair_of self.now.slots) result ≡ first_place (position sought.now) (arcs_of self.now) }
        ensures within { IfSome result (λ place. place.slot < length self.now.slots) }
        ensures found { IfSome result (λ place. position sought.now (arc_number self.now.slots place.slot).points ≡ Some place.at) }
    {
        let listed = self.places.of_point(sought.point());
        let mut first = None;
        for at in 0..listed.count() {
            let slot = listed.slot(at);
            first = earlier(first, slot, sought.position(self.points(slot)));
        }
        first
    }

    /// How many points the arcs have.
    pub fn count_points(&self) -> usize
        ensures { result ≡ count_points (arcs_of self.now) }
    {
        self.counts.points
    }

    /// Whether a map may have so many more arcs and points.
    pub fn has_room(&self, arcs: usize, points: usize) -> bool
        ensures { result ≡ has_more arcs points (arcs_of self.now) }
    {
        is_room(self.counts.arcs, arcs, MAX_ARCS) && is_room(self.counts.points, points, MAX_POINTS)
    }

    /// Whether some arc has one of the points.
    fn has_any(&self, points: &[Point]) -> bool
        ensures { result ≡ list_any (arcs_have (arcs_of self.now)) points.now }
    {
        points.iter().any(|point| self.has_point(point))
    }

    /// Whether the points of a new arc are all different, and the inner ones are no points of the arcs.
    pub fn are_free(&self, alloc: Global, points: &[Point]) -> Result<bool, Memory>
        requires { 2 ≤ length points.now }
        ensures { IfOk result (λ free. free ≡ are_free (arcs_of self.now) points.now) }
    {
        Ok(are_different(alloc, points)? && !self.has_any(inner_points(points)))
    }

    /// Whether the arc in this slot is there and between the two faces.
    fn is_between_at(&self, slot: usize, fusion: &Fusion) -> bool
        ensures { result ≡ is_taken fusion.now.kept fusion.now.gone (arc_number self.now.slots slot) }
    {
        match self.slots.get(slot) {
            Some(arc) => fusion.is_between(arc),
            None => false,
        }
    }

    /// Whether the arc in this slot is there, has this face as a side, and is not between the two faces.
    fn is_other_at(&self, slot: usize, fusion: &Fusion, face: u32) -> bool
        ensures { result ≡ is_other fusion.now.kept fusion.now.gone face (arc_number self.now.slots slot) }
    {
        match self.slots.get(slot) {
            Some(arc) => fusion.is_other(arc, face),
            None => false,
        }
    }

    /// Whether some arc is between the two faces.
    pub fn is_any_between(&self, fusion: &Fusion) -> bool
        ensures { result ≡ list_any (is_between fusion.now.kept fusion.now.gone) (arcs_of self.now) }
    {
        for slot in self.borders.of_face(fusion.gone) {
            if self.is_between_at(*slot, fusion) {
                return true;
            }
        }
        false
    }

    /// Whether some other arc has this face, which is one of the two, as a side.
    fn has_other(&self, fusion: &Fusion, face: u32) -> bool
        ensures { result ≡ list_any (is_other fusion.now.kept fusion.now.gone face) self.now.slots }
    {
        for slot in self.borders.of_face(face) {
            if self.is_other_at(*slot, fusion, face) {
                return true;
            }
        }
        false
    }

    /// Whether some other arc has one of the two faces as a side.
    pub fn is_any_left(&self, fusion: &Fusion) -> bool
        ensures { result ≡ list_any (λ a. borders_face fusion.now.kept a || borders_face fusion.now.gone a) (others fusion.now.kept fusion.now.gone (arcs_of self.now)) }
    {
        self.has_other(fusion, fusion.gone) || self.has_other(fusion, fusion.kept)
    }

    /// The sides that a cut of the face by an arc with these points takes over, by their slots.
    fn moved_sides(
        &self,
        alloc: Global,
        face: u32,
        points: &[Point],
    ) -> Result<List<SlotSide>, Or<u8>>
        requires lines { AreLines (arcs_of self.now) }
        requires spans { AreSpans (spans_of (arcs_of self.now)) }
        requires line { IsNewLine points.now }
        ensures { GivesWhole result (moved_slots self.now.slots face points.now) }
    {
        let table = SlotTable::of(alloc, &self.slots, &self.places, &self.borders)?;
        match cut_along(alloc, &table, face, points) {
            Ok(moved) => Ok(slots_of(alloc, &table, moved.as_slice())?),
            Err(cause) => Err(cause_of(cause)),
        }
    }

    /// The arcs with each point that is the old one moved to the new one, which no arc has.
    pub fn move_all(self, alloc: Global, old: &Point, new: Point) -> Result<IndexedArcs, Memory>
        requires there { has_point old.now (arcs_of self) ≡ true }
        requires free { has_point new (arcs_of self) ≡ false }
        ensures arcs { IfOk result (λ arcs. arcs_of arcs ≡ move_all old.now new (arcs_of self)) }
        ensures faces { IfOk result (λ arcs. arcs.faces ≡ self.faces) }
    {
        let IndexedArcs {
            mut slots,
            mut places,
            borders,
            counts,
            spare,
        } = self;
        move_listed(alloc, &mut slots, places.of_point(old), old, new);
        places.pass(alloc, old, new)?;
        Ok(IndexedArcs {
            slots,
            places,
            borders,
            counts,
            spare,
        })
    }

    /// The arcs with a new point, which no arc has, at this place.
    pub fn insert(self, alloc: Global, place: Place, new: Point) -> Result<IndexedArcs, Memory>
        requires slot { place.slot < length self.slots }
        requires at { place.at < length (arc_number self.slots place.slot).points }
        requires free { has_point new (arcs_of self) ≡ false }
        requires room { count_points (arcs_of self) < MAX_POINTS }
        ensures arcs { IfOk result (λ arcs. arcs_of arcs ≡ changed_at (number_of self.slots place.slot) (λ points. insert points place.at new) (arcs_of self)) }
        ensures faces { IfOk result (λ arcs. arcs.faces ≡ self.faces) }
    {
        let IndexedArcs {
            mut slots,
            mut places,
            borders,
            mut counts,
            spare,
        } = self;
        insert_in(alloc, &mut slots[place.slot], place.at, new)?;
        places.set(alloc, new, place.slot)?;
        counts.points += 1;
        Ok(IndexedArcs {
            slots,
            places,
            borders,
            counts,
            spare,
        })
    }

    /// The arcs without the point at this place, where their arc has others.
    pub fn remove(self, alloc: Global, place: Place) -> IndexedArcs
        requires slot { place.slot < length self.slots }
        requires some { 2 ≤ length (arc_number self.slots place.slot).points }
        requires at { place.at < length (arc_number self.slots place.slot).points }
        ensures arcs { arcs_of result ≡ changed_at (number_of self.slots place.slot) (λ points. remove points place.at) (arcs_of self) }
        ensures faces { result.faces ≡ self.faces }
    {
        let IndexedArcs {
            mut slots,
            places,
            borders,
            mut counts,
            spare,
        } = self;
        remove_in(alloc, &mut slots[place.slot], place.at);
        counts.points -= 1;
        IndexedArcs {
            slots,
            places,
            borders,
            counts,
            spare,
        }
    }

    /// The arcs with one more, which is last: that at this place keeps its points up to there, and the new one, with the same
    /// sides, has those from there on. Only the shorter part is listed anew, by its points.
    pub fn split(self, alloc: Global, place: Place) -> Result<IndexedArcs, Memory>
        requires slot { place.slot < length self.slots }
        requires at { place.at < length (arc_number self.slots place.slot).points }
        requires room { IsTrue (has_more 1 1 (arcs_of self)) }
        requires faces { HaveFaces self.faces (arcs_of self) }
        ensures arcs { IfOk result (λ arcs. arcs_of arcs ≡ split_at (arcs_of self) (pair_of self.slots place)) }
        ensures faces { IfOk result (λ arcs. arcs.faces ≡ self.faces) }
    {
        let IndexedArcs {
            mut slots,
            mut places,
            mut borders,
            mut counts,
            spare,
        } = self;
        let rest = split_off(alloc, &mut slots[place.slot], place.at)?;
        let front = slots[place.slot].points.as_slice();
        places.split(
            alloc,
            place.slot,
            slots.len(),
            front,
            rest.points.as_slice(),
        )?;
        borders.list_sides(slots.len(), &rest)?;
        counts.arcs += 1;
        counts.points += 1;
        slots.push(rest)?;
        Ok(IndexedArcs {
            slots,
            places,
            borders,
            counts,
            spare,
        })
    }

    /// The arcs without those between two faces, one of which is a part of the other then, with the numbers of the faces afterwards.
    pub fn fuse(self, alloc: Global, fusion: &Fusion) -> Result<IndexedArcs, Memory>
        requires apart { fusion.now.kept ≢ fusion.now.gone }
        requires kept { fusion.now.kept ≤ self.faces }
        requires gone { fusion.now.gone ≤ self.faces }
        requires count { fusion.now.faces ≡ self.faces }
        requires faces { HaveFaces self.faces (arcs_of self) }
        ensures arcs { IfOk result (λ arcs. arcs_of arcs ≡ fused_arcs self.faces fusion.now.kept fusion.now.gone (arcs_of self)) }
        ensures faces { IfOk result (λ arcs. arcs.faces + 1 ≡ self.faces) }
    {
        let IndexedArcs {
            mut slots,
            places,
            mut borders,
            mut counts,
            spare,
        } = self;
        fusion.apply(alloc, &mut slots, &borders, &mut counts);
        borders.fuse(alloc, fusion.kept, fusion.gone)?;
        Ok(IndexedArcs {
            slots,
            places,
            borders,
            counts,
            spare,
        })
    }

    /// The arcs with one more, which is last and cuts this face: at its left it has the new face, which is the last one, and at its
    /// right the face. So have the sides that go over to the new face.
    ///
    /// It is refused for the causes of `cut_along`.
    pub fn cut(
        self,
        alloc: Global,
        face: u32,
        new: u32,
        points: List<Point>,
    ) -> Result<IndexedArcs, Or<u8>>
        requires face { face ≤ self.faces }
        requires new { new ≡ self.faces + 1 }
        requires lines { AreLines (arcs_of self) }
        requires spans { AreSpans (spans_of (arcs_of self)) }
        requires line { IsNewLine points }
        requires room { IsTrue (has_more 1 (length points) (arcs_of self)) }
        ensures arcs { GivesArcs result (cut_arcs (arcs_of self) face new points) }
        ensures faces { IfOk result (λ arcs. arcs.faces ≡ self.faces + 1) }
    {
        let arcs = self.renewed(alloc, new as usize - 1)?;
        let moved = arcs.moved_sides(alloc, face, points.as_slice())?;
        let parted = arcs.part(alloc, new, moved.as_slice())?;
        let arc = BaseArc {
            left: new,
            right: face,
            points,
        };
        Ok(parted.push(alloc, arc)?)
    }

    /// The same arcs. Where cuts have listed as much as the map had when the arcs were indexed, they are indexed anew, in other
    /// slots. So what is gone takes no more room than what is there, and a cut that is taken back again and again costs the same.
    fn renewed(self, alloc: Global, faces: usize) -> Result<IndexedArcs, Memory>
        requires few { faces < 2 ^ 32 }
        requires count { faces ≡ self.faces }
        requires points { count_points (arcs_of self) ≤ MAX_POINTS }
        ensures arcs { IfOk result (λ arcs. arcs_of arcs ≡ arcs_of self) }
        ensures faces { IfOk result (λ arcs. arcs.faces ≡ self.faces) }
    {
        if self.spare > 0 {
            return Ok(self);
        }
        let arcs = self.into_list();
        IndexedArcs::of(alloc, arcs.as_slice(), faces)
    }

    /// The arcs with a new last face at these sides.
    fn part(self, alloc: Global, new: u32, moved: &[SlotSide]) -> Result<IndexedArcs, Memory>
        requires { new ≡ self.faces + 1 }
        ensures { IfOk result (λ arcs. arcs ≡ record { slots = passed_over new moved.now self.slots; faces = new }) }
    {
        let IndexedArcs {
            mut slots,
            places,
            mut borders,
            counts,
            mut spare,
        } = self;
        spare = spare.saturating_sub(moved.len());
        borders.add_face(alloc)?;
        pass_over(&mut slots, &mut borders, new, moved)?;
        Ok(IndexedArcs {
            slots,
            places,
            borders,
            counts,
            spare,
        })
    }

    /// The arcs with one more, which is last.
    fn push(self, alloc: Global, arc: BaseArc) -> Result<IndexedArcs, Memory>
        requires left { arc.left ≤ self.faces }
        requires right { arc.right ≤ self.faces }
        requires some { 1 ≤ length arc.points }
        requires room { IsTrue (has_more 1 (length arc.points) (arcs_of self)) }
        ensures { IfOk result (λ arcs. arcs ≡ record self { slots = self.slots ++ arc ∷ [] }) }
    {
        let IndexedArcs {
            mut slots,
            mut places,
            mut borders,
            mut counts,
            mut spare,
        } = self;
        counts.arcs += 1;
        counts.points += arc.points.len();
        spare = spare.saturating_sub(arc.points.len());
        places.list_points(alloc, slots.len(), arc.points.as_slice())?;
        borders.list_sides(slots.len(), &arc)?;
        slots.push(arc)?;
        Ok(IndexedArcs {
            slots,
            places,
            borders,
            counts,
            spare,
        })
    }
}
