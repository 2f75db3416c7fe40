//! The faces round a step: how many permitted neighbours each neighbour of the loser has after it, and the new face.

ghost use Rattle.std.specs.Prelude.{◌≡◌, ◌≢◌, ◌&&◌, not, count_by, IfOk};
ghost use Rattle.std.specs.List.{All};
ghost use Rattle.tgap_model.specs.History.{are_neighbours};
ghost use Rattle.face_merge.specs.Merging.{after, is_gained, permits_in, permitted_count};
ghost use Rattle.face_merge.specs.Running.{IsRunning, IsNextPair, IsFaceAt, IsLinkOf, IsNeighbourAfter, AreNeighboursAfter, state_of, step_of, number_in};

use super::{Face, Merging, Pair, permits};
use crate::links::Link;
use crate::queue::Place;
use std::alloc::Global;
use tgap_model::Memory;

/// Whether a neighbour is a new one, and permitted.
fn is_new(near: bool, permitted: bool) -> bool
    ensures { result ≡ (not near && permitted) }
{
    !near && permitted
}

impl Merging<'_> {
    /// Whether the face in a slot permits that in another as its neighbour.
    pub(super) fn permits(&self, slot: u32, face: Face, other_slot: u32, other: Face) -> bool
        requires running { IsRunning self.now }
        requires face { IsFaceAt self.now slot face }
        requires other { IsFaceAt self.now other_slot other }
        ensures { result ≡ permits_in (state_of self.now) (number_in self.now slot) (number_in self.now other_slot) }
    {
        permits(self.base.rules(), face.class, other.class)
    }

    /// Whether the faces in two slots are neighbours.
    fn near(&self, slot: u32, other: u32) -> bool
        requires { IsRunning self.now }
        ensures { result ≡ are_neighbours (state_of self.now).arcs (number_in self.now slot) (number_in self.now other) }
    {
        self.links.has(slot, other)
    }

    /// A neighbour of the loser after the step: it has the new face at its side, of the winner's class, in place of the
    /// loser and, where it has it there, of the winner.
    fn neighbour_after(&self, pair: &Pair, loser: Face, winner: Face, link: Link) -> Place
        requires running { IsRunning self.now }
        requires next { IsNextPair self.now pair.now }
        requires loser { IsFaceAt self.now pair.now.loser loser }
        requires winner { IsFaceAt self.now pair.now.winner winner }
        requires link { IsLinkOf self.now (number_in self.now pair.now.loser) link }
        requires other { link.slot ≢ pair.now.winner }
        ensures neighbour { IsNeighbourAfter self.now pair.now result }
        ensures slot { result.slot ≡ link.slot }
    {
        let face = self.face(link.slot);
        let lost = self.permits(link.slot, face, pair.loser, loser);
        let permitted = self.permits(link.slot, face, pair.winner, winner);
        let near = self.near(pair.winner, link.slot);
        let gained = is_new(near, permitted);
        let count = self.queue.count(link.slot);
        Place {
            importance: face.importance,
            number: face.number,
            slot: link.slot,
            permitted: count + usize::from(gained) - usize::from(lost),
        }
    }

    /// The neighbours of the loser after the step, which these links lead to, without the winner.
    pub(super) fn neighbours_after(
        &self,
        alloc: Global,
        pair: &Pair,
        loser: Face,
        winner: Face,
        links: &[Link],
    ) -> Result<Vec<Place>, Memory>
        requires running { IsRunning self.now }
        requires next { IsNextPair self.now pair.now }
        requires loser { IsFaceAt self.now pair.now.loser loser }
        requires winner { IsFaceAt self.now pair.now.winner winner }
        requires links { All (IsLinkOf self.now (number_in self.now pair.now.loser)) links.now }
        ensures { IfOk result (λ places. AreNeighboursAfter self.now pair.now links.now places.items) }
    {
        let mut places = Vec::new(alloc);
        for link in links {
            if link.slot != pair.winner {
                places.push(self.neighbour_after(pair, loser, winner, *link))?;
            }
        }
        Ok(places)
    }

    /// Whether a neighbour of the loser is one more permitted neighbour of the new face: it is none of the winner's, and
    /// the winner permits it.
    fn gains(&self, pair: &Pair, winner: Face, link: Link) -> bool
        requires running { IsRunning self.now }
        requires winner { IsFaceAt self.now pair.now.winner winner }
        requires link { IsLinkOf self.now (number_in self.now pair.now.loser) link }
        ensures { result ≡ is_gained (state_of self.now) (number_in self.now pair.now.winner) (number_in self.now link.slot) }
    {
        let face = self.face(link.slot);
        let permitted = self.permits(pair.winner, winner, link.slot, face);
        let near = self.near(pair.winner, link.slot);
        let new = is_new(near, permitted);
        link.slot != pair.winner && new
    }

    /// How many of the neighbours of the loser that these links lead to are such.
    fn gained(&self, pair: &Pair, winner: Face, links: &[Link]) -> usize
        requires running { IsRunning self.now }
        requires winner { IsFaceAt self.now pair.now.winner winner }
        requires links { All (IsLinkOf self.now (number_in self.now pair.now.loser)) links.now }
        ensures { result ≡ count_by (λ link. is_gained (state_of self.now) (number_in self.now pair.now.winner) (number_in self.now link.slot)) links.now }
    {
        let mut gained = 0;
        for link in links {
            gained += usize::from(self.gains(pair, winner, *link));
        }
        gained
    }

    /// How many permitted neighbours the new face has: those of the winner without the loser, and those that it gains.
    pub(super) fn permitted_of_made(&self, pair: &Pair, loser: Face, winner: Face) -> usize
        requires running { IsRunning self.now }
        requires next { IsNextPair self.now pair.now }
        requires loser { IsFaceAt self.now pair.now.loser loser }
        requires winner { IsFaceAt self.now pair.now.winner winner }
        ensures { result ≡ permitted_count (after (step_of self.now pair.now) (state_of self.now)) (step_of self.now pair.now).made }
    {
        let gained = self.gained(pair, winner, &pair.links);
        let lost = self.permits(pair.winner, winner, pair.loser, loser);
        self.queue.count(pair.winner) + gained - usize::from(lost)
    }
}
