//! The segments of edges that come and go, looked up by their boxes.

ghost use Rattle.std.specs.Prelude.{◌≡◌, ◌≢◌, ◌++◌, Contains, IsPermutation, All, AllPairs, IfOk, OnOk, OnErr};
ghost use Rattle.grid_index.specs.Live.{near_segments, keys, without_keys, AreLive, IsLiveEdge};

use crate::changes::{changed, keys_without, room_for};
use crate::edges::{by_key, keys_of};
use crate::entries::{boxes_of_keys, entries_laid, entries_of};
use crate::keys::ascending;
use crate::slots::Slots;
use std::alloc::Global;
use std::marker::Model;
use std::mem;
use tgap_model::{Edge, List, Memory, Window, copied_edges};

/// A segment of an edge: the key of the edge, and the place of the segment in it, from 0.
#[derive(Clone, Copy, PartialEq, Eq)]
pub struct SegmentPlace {
    pub key: u32,
    pub place: u32,
}

/// Edges by key, with a look-up of their segments. Contracts see the list of the edges.
#[derive(Drop)]
pub struct Live {
    edges: List<Edge>,
    slots: Slots,
}

impl Model for Live {
    ghost use Rattle.std.specs.Prelude.{List as Sequence};
    ghost use Rattle.tgap_model.specs.declared.slice.Edge.{Edge as Line};
    ghost use Rattle.grid_index.specs.Slots.{IsIndexed};

    ghost Value = { Sequence Line };

    ghost view = { λ l. l.edges };

    ghost invariant = { λ l. IsIndexed l.edges l.slots };
}

impl Live {
    /// The look-up of the segments of these edges.
    pub fn of(alloc: Global, edges: &List<Edge>) -> Result<Live, Memory>
        requires live { AreLive edges.now }
        ensures { IfOk result (λ live. live ≡ edges.now) }
    {
        let slots = Slots::of(alloc, entries_laid(alloc, edges.as_slice())?)?;
        Ok(Live {
            edges: copied_edges(alloc, edges.as_slice())?,
            slots,
        })
    }

    /// The edges, in order of key.
    pub fn edges(&self) -> &List<Edge>
        ensures value { result.now ≡ self.now }
        ensures live { AreLive self.now }
    {
        &self.edges
    }

    /// The segments whose boxes meet a closed window, each once, in order of key and place.
    pub fn near(&self, alloc: Global, area: Window) -> Result<List<SegmentPlace>, Memory>
        ensures { IfOk result (λ places. places ≡ near_segments area self.now) }
    {
        self.slots.near(alloc, &area)
    }

    /// Takes the edges with these keys out, and puts others in. The time is that of what goes and comes, and where a key goes
    /// for good also that of one pass over the list; a key that comes anew makes a new list.
    pub fn replace(
        &mut self,
        alloc: Global,
        gone: &List<u32>,
        come: List<Edge>,
    ) -> Result<(), Memory>
        requires there { All (Contains (keys self.old)) gone.now }
        requires apart { AllPairs (λ k l. k ≢ l) gone.now }
        requires fresh { All (λ e. ¬ (Contains (keys (without_keys gone.now self.old)) e.key)) come }
        requires distinct { AllPairs (λ e f. e.key ≢ f.key) come }
        requires live { All IsLiveEdge come }
        ensures ok { OnOk result (IsPermutation (without_keys gone.now self.old ++ come) self.new) }
        ensures err { OnErr result (self.new ≡ self.old) }
    {
        let gone = ascending(alloc, gone.as_slice())?;
        let come = by_key(come);
        let entries = entries_of(alloc, &come)?;
        let keys = keys_of(alloc, &come)?;
        let sought = boxes_of_keys(alloc, self.edges.as_slice(), &gone)?;
        let ended = keys_without(alloc, &gone, &keys)?;
        let room = room_for(alloc, self.edges.as_slice(), &keys)?;
        let count = self.edges.as_slice().len();
        self.slots.widen(alloc, count - gone.len() + come.len())?;
        self.slots.replace(alloc, &sought, &keys, entries)?;
        let edges = mem::replace(&mut self.edges, List::new(alloc));
        self.edges = changed(edges, &gone, &ended, come, room);
        Ok(())
    }
}
