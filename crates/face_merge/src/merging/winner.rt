//! The winner: the permitted neighbour of the loser that takes it best.

ghost use Rattle.std.specs.Prelude.{◌≡◌, ◌||◌, ◌&&◌, ◌==◌, nat_lt, MatchOption, IfSome, IsTrue};
ghost use Rattle.std.specs.List.{All};
ghost use Rattle.tgap_model.specs.History.{class_of};
ghost use Rattle.face_merge.specs.Merging.{score_of, permits_in};
ghost use Rattle.face_merge.specs.Running.{IsRunning, IsLive, IsFaceAt, IsLinkOf, IsPermitted, IsBestLink, IsBetterLink, AreBarred, state_of, number_in};

use super::{Face, Merging, compatibility};
use crate::links::Link;

/// Whether a face of this score and number wins before another: its score is greater, or the same with the smaller
/// number.
fn wins_first(score: u128, number: u32, other_score: u128, other_number: u32) -> bool
    ensures { result ≡ (nat_lt other_score score || ((score == other_score) && nat_lt number other_number)) }
{
    score > other_score || score == other_score && number < other_number
}

impl Merging<'_> {
    /// The score of a neighbour of the loser: their compatibility, the loser's class first, times the length they share.
    fn score(&self, loser: Face, link: Link) -> u128
        requires running { IsRunning self.now }
        requires loser { loser.class ≡ class_of (state_of self.now).classes loser.number }
        requires link { IsLinkOf self.now loser.number link }
        ensures { result ≡ score_of (state_of self.now) loser.number (number_in self.now link.slot) }
    {
        let winner = self.face(link.slot);
        let compatibility = compatibility(self.base.rules(), loser.class, winner.class);
        u128::from(compatibility) * u128::from(link.length)
    }

    /// Of the best link so far and one more link of the loser, the one whose face wins first.
    fn better(&self, loser: Face, best: Option<Link>, link: Link) -> Link
        requires running { IsRunning self.now }
        requires loser { loser.class ≡ class_of (state_of self.now).classes loser.number }
        requires link { IsLinkOf self.now loser.number link }
        requires best { IfSome best (IsLinkOf self.now loser.number) }
        ensures { IsBetterLink self.now loser.number best link result }
    {
        let Some(best) = best else { return link };
        let new = self.score(loser, link);
        let old = self.score(loser, best);
        let number = self.numbers[link.slot as usize];
        let best_number = self.numbers[best.slot as usize];
        let wins = wins_first(new, number, old, best_number);
        if wins { link } else { best }
    }

    /// Of the links of the loser to permitted neighbours, the one whose face has the greatest score, and of such the one
    /// with the least number.
    pub fn best_link(&self, loser: u32, links: &[Link]) -> Option<Link>
        requires running { IsRunning self.now }
        requires live { IsLive self.now loser }
        requires links { All (IsLinkOf self.now (number_in self.now loser)) links.now }
        ensures { MatchOption result (AreBarred self.now (number_in self.now loser) links.now) (IsBestLink self.now (number_in self.now loser) links.now) }
    {
        let face = self.face(loser);
        let mut best = None;
        for link in links {
            let neighbour = self.face(link.slot);
            if self.permits(loser, face, link.slot, neighbour) {
                best = Some(self.better(face, best, *link));
            }
        }
        best
    }
}
