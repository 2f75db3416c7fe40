//! The links between faces in slots: which are neighbours, and the length that they share.

ghost use Rattle.std.specs.Prelude.{◌≡◌, ◌≢◌, ◌≤◌, ◌+◌, ◌<◌, ◌^◌, ℕ, Some, None, unwrap_or, if◌then◌else◌, IfOk, OnOk, is_some};
ghost use Rattle.std.specs.BTreeMap.{get};
ghost use Rattle.std.specs.Ordering.{is_eq};
ghost use Rattle.tgap_model.specs.Bounds.{max_arc_length};
ghost use Rattle.tgap_model.specs.History.{is_shared};
ghost use Rattle.face_merge.specs.Linking.{link_of};
ghost use Rattle.face_merge.specs.Measures.{total_length};
ghost use Rattle.face_merge.specs.Links.{AreLinksOf, AreOnce, pair_cmp, length_at, has_pair, with_length, without, with_arc, with_more, joined, ArePaired, Fit, IsPassed};

use std::alloc::Global;
use std::collections::BTreeMap;
use tgap_model::{LabelledArc, Memory};

/// Whether two different faces, neither of them the outside, have the arc between them.
fn shared(arc: &LabelledArc) -> bool
    ensures { result ≡ is_shared arc.now }
{
    arc.left != 0 && arc.right != 0 && arc.left != arc.right
}

/// A neighbour of a face: its slot, and the length that the two share.
#[derive(Clone, Copy, Drop)]
pub struct Link {
    pub slot: u32,
    pub length: u64,
}

/// Adds to the length at two slots, by one search.
fn add_at(
    lengths: &mut BTreeMap<(u32, u32), u64>,
    slots: (u32, u32),
    length: u64,
) -> Result<(), Memory>
    requires { unwrap_or (get pair_cmp lengths.old slots) 0 + length < 2 ^ 64 }
    ensures { OnOk result ((s : ℕ × ℕ) → get pair_cmp lengths.new s ≡ (if is_eq (pair_cmp slots s) then Some (unwrap_or (get pair_cmp lengths.old slots) 0 + length) else get pair_cmp lengths.old s)) }
{
    *lengths.entry(slots)?.or_insert(0) += length;
    Ok(())
}

/// The length that each face shares with each neighbour, by the slots of both.
#[derive(Drop)]
pub struct Links {
    lengths: BTreeMap<(u32, u32), u64>,
}

impl Links {
    /// No links.
    pub fn new(alloc: Global) -> Links
        ensures { (s t : ℕ) → length_at result s t ≡ None }
    {
        Links {
            lengths: BTreeMap::new(alloc),
        }
    }

    /// The links between the faces of a base map, each in the slot of its number.
    pub fn between(alloc: Global, arcs: &[LabelledArc]) -> Result<Links, Memory>
        requires { total_length arcs.now ≤ max_arc_length }
        ensures { IfOk result (λ links. (f g : ℕ) → length_at links f g ≡ link_of arcs.now f g) }
    {
        let mut links = Links::new(alloc);
        for arc in arcs {
            links.add_arc(arc)?;
        }
        Ok(links)
    }

    /// Adds an arc to the links of the two faces at its sides, where it is shared.
    fn add_arc(&mut self, arc: &LabelledArc) -> Result<(), Memory>
        requires paired { ArePaired (length_at self.old) }
        requires room { unwrap_or (length_at self.old arc.now.left arc.now.right) 0 + arc.now.extent < 2 ^ 64 }
        ensures { OnOk result ((s t : ℕ) → length_at self.new s t ≡ with_arc (length_at self.old) arc.now s t) }
    {
        if shared(arc) {
            self.add(arc.left, arc.right, arc.extent)?;
            self.add(arc.right, arc.left, arc.extent)?;
        }
        Ok(())
    }

    /// Adds to the length that a face shares with another, at the side of the first.
    pub fn add(&mut self, slot: u32, other: u32, length: u64) -> Result<(), Memory>
        requires { unwrap_or (length_at self.old slot other) 0 + length < 2 ^ 64 }
        ensures { OnOk result ((s t : ℕ) → length_at self.new s t ≡ with_more (length_at self.old) slot other length s t) }
    {
        add_at(&mut self.lengths, (slot, other), length)
    }

    /// Takes away the link of a face with another, at the side of the first, and gives its length, where there is one.
    fn remove(&mut self, slot: u32, other: u32) -> Option<u64>
        ensures length { result ≡ length_at self.old slot other }
        ensures others { (s t : ℕ) → length_at self.new s t ≡ without (length_at self.old) slot other s t }
    {
        self.lengths.remove(&(slot, other))
    }

    /// Moves the link of a face with this neighbour to another face, where it has one. A link of the two is lost.
    fn pass(&mut self, from: u32, to: u32, other: u32) -> Result<(), Memory>
        requires apart { from ≢ to }
        requires paired { ArePaired (length_at self.old) }
        requires fit { Fit (joined (length_at self.old) from to) }
        ensures { OnOk result (IsPassed from to other (length_at self.old) (length_at self.new)) }
    {
        let Some(length) = self.remove(from, other) else {
            return Ok(());
        };
        self.remove(other, from);
        if other != to {
            self.add(to, other, length)?;
            self.add(other, to, length)?;
        }
        Ok(())
    }

    /// Moves the links of a face, which are these, to another.
    pub fn join(&mut self, from: u32, to: u32, links: &[Link]) -> Result<(), Memory>
        requires apart { from ≢ to }
        requires links { AreLinksOf (length_at self.old) from links.now }
        requires paired { ArePaired (length_at self.old) }
        requires fit { Fit (joined (length_at self.old) from to) }
        ensures { OnOk result ((s t : ℕ) → length_at self.new s t ≡ joined (length_at self.old) from to s t) }
    {
        for link in links {
            self.pass(from, to, link.slot)?;
        }
        Ok(())
    }

    /// The links of a face.
    pub fn of(&self, alloc: Global, slot: u32) -> Result<Vec<Link>, Memory>
        requires { slot + 1 < 2 ^ 32 }
        ensures links { IfOk result (λ links. AreLinksOf (length_at self.now) slot links.items) }
        ensures once { IfOk result (λ links. AreOnce links.items) }
    {
        let mut links = Vec::new(alloc);
        for (slots, length) in self.lengths.range((slot, 0)..(slot + 1, 0)) {
            links.push(Link {
                slot: slots.1,
                length: *length,
            })?;
        }
        Ok(links)
    }

    /// Whether a face has a link with another.
    pub fn has(&self, slot: u32, other: u32) -> bool
        ensures { result ≡ is_some (length_at self.now slot other) }
    {
        self.lengths.contains_key(&(slot, other))
    }

    /// Whether a face has more links than this.
    pub fn exceed(&self, slot: u32, count: usize) -> bool
        requires { slot + 1 < 2 ^ 32 }
    {
        self.lengths
            .range((slot, 0)..(slot + 1, 0))
            .nth(count)
            .is_some()
    }
}
