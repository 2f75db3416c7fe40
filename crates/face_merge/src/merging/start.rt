//! A map before its first step.

ghost use Rattle.std.specs.Prelude.{◌≡◌, ◌≤◌, ◌<◌, ◌*◌, ◌+◌, ◌^◌, ℕ, map, length, slice_index, count_by, [], IfOk, IsTrue};
ghost use Rattle.std.specs.List.{All};
ghost use Rattle.tgap_model.specs.Base.{is_base};
ghost use Rattle.tgap_model.specs.History.{labelled};
ghost use Rattle.face_merge.specs.Links.{length_at};
ghost use Rattle.face_merge.specs.Linking.{link_of};
ghost use Rattle.face_merge.specs.Measures.{IsMeasured, measure_of};
ghost use Rattle.face_merge.specs.Merging.{AreAreas, begin, permits_in};
ghost use Rattle.face_merge.specs.Running.{IsRunning, IsQueueBelow};

use super::{Merging, importance, permits};
use crate::areas::areas_of;
use crate::links::{Link, Links};
use crate::measures::{Measure, labelled_arcs};
use crate::queue::Queue;
use std::alloc::Global;
use tgap_model::{Base, List, Memory, numbers_below};

/// The classes of the faces, with room for the face of each step: there are fewer steps than faces.
fn classes_with_room(alloc: Global, classes: &[u32]) -> Result<Vec<u32>, Memory>
    requires { 2 * length classes.now < 2 ^ 32 }
    ensures { IfOk result (λ found. found.items ≡ classes.now) }
{
    let mut found = Vec::with_capacity(alloc, 2 * classes.len())?;
    found.extend_from_slice(classes)?;
    Ok(found)
}

/// Whether a face of a base map permits another as its neighbour.
fn permits_face(base: &Base, face: u32, other: u32) -> bool
    requires face { 0 < face }
    requires below { face ≤ length base.now.classes }
    requires other { 0 < other }
    requires other_below { other ≤ length base.now.classes }
    ensures { result ≡ permits_in (begin base.now) face other }
{
    let classes = base.classes().as_slice();
    let class = classes[face as usize - 1];
    let other_class = classes[other as usize - 1];
    permits(base.rules(), class, other_class)
}

/// How many permitted neighbours a face of a base map has, by its links.
fn permitted_of(base: &Base, face: u32, links: &[Link]) -> usize
    requires face { 0 < face }
    requires below { face ≤ length base.now.classes }
    requires links { All (λ link. (0 < link.slot) × (link.slot ≤ length base.now.classes)) links.now }
    ensures { result ≡ count_by (λ link. permits_in (begin base.now) face link.slot) links.now }
{
    let mut count = 0;
    for link in links {
        count += usize::from(permits_face(base, face, link.slot));
    }
    count
}

/// The queue of the faces of a base map.
fn queue_of(alloc: Global, base: &Base, areas: &[i128], links: &Links) -> Result<Queue, Memory>
    requires areas { AreAreas (length base.now.classes) (map labelled base.now.arcs) areas.now }
    requires measured { All IsMeasured (map labelled base.now.arcs) }
    requires links { (s t : ℕ) → length_at links.now s t ≡ link_of (map labelled base.now.arcs) s t }
    ensures { IfOk result (λ queue. IsQueueBelow (begin base.now) (length base.now.classes + 1) (length base.now.classes + 1) queue) }
{
    let classes = base.classes().as_slice();
    let mut queue = Queue::new(alloc, areas.len())?;
    for slot in 1..areas.len() {
        let importance = importance(base.rules(), classes[slot - 1], areas[slot]);
        let face = slot as u32;
        let own = links.of(alloc, face)?;
        queue.set(importance, face, face, permitted_of(base, face, &own))?;
    }
    Ok(queue)
}

impl<'a> Merging<'a> {
    /// A base map before its first step.
    pub fn of(alloc: Global, base: &'a Base, measures: &[Measure]) -> Result<Merging<'a>, Memory>
        requires { measures.now ≡ map measure_of base.now.arcs }
        ensures running { IfOk result IsRunning }
        ensures base { IfOk result (λ merging. merging.base.now ≡ base.now) }
        ensures steps { IfOk result (λ merging. merging.steps ≡ []) }
        ensures holds { IfOk result (λ _. IsTrue (is_base base.now)) }
    {
        let classes = classes_with_room(alloc, base.classes().as_slice())?;
        let arcs = labelled_arcs(alloc, base.arcs().as_slice(), measures)?;
        let labelled = arcs.as_slice();
        let faces = classes.len();
        let areas = areas_of(alloc, faces, labelled)?;
        let links = Links::between(alloc, labelled)?;
        let queue = queue_of(alloc, base, areas.as_slice(), &links)?;
        let numbers = numbers_below(alloc, faces as u32 + 1)?;
        Ok(Merging {
            base,
            steps: List::new(alloc),
            classes,
            numbers,
            areas,
            links,
            queue,
        })
    }
}
