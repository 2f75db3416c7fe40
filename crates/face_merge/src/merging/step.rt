//! A step: the loser and the winner become one face.

ghost use Rattle.std.specs.Prelude.{◌≡◌, ◌≢◌, ◌⊎◌, ◌<◌, ◌+◌, ◌^◌, ◌++◌, ◌∷◌, ℕ, [], IfOk};
ghost use Rattle.face_merge.specs.Links.{AreLinksOf, ArePaired, Fit, joined, length_at};
ghost use Rattle.face_merge.specs.Running.{AreEnds, IsNextPair, IsRunning, step_of};

use super::{Merging, Pair, importance};
use crate::links::Links;
use std::alloc::Global;
use tgap_model::{Memory, MergeStep};

/// The slots of two faces that have become one: the slot that is left, and that of the new face.
#[derive(Clone, Copy)]
struct Ends {
    from: u32,
    to: u32,
}

/// Moves the links of the face with fewer of them to the other.
fn join(alloc: Global, links: &mut Links, pair: &Pair) -> Result<Ends, Memory>
    requires winner { pair.now.winner + 1 < 2 ^ 32 }
    requires apart { pair.now.loser ≢ pair.now.winner }
    requires links { AreLinksOf (length_at links.old) pair.now.loser pair.now.links.items }
    requires paired { ArePaired (length_at links.old) }
    requires fit { Fit (joined (length_at links.old) pair.now.loser pair.now.winner) }
    requires fit_back { Fit (joined (length_at links.old) pair.now.winner pair.now.loser) }
    ensures ends { IfOk result (AreEnds pair.now) }
    ensures joined { IfOk result (λ ends. (s t : ℕ) → length_at links.new s t ≡ joined (length_at links.old) ends.from ends.to s t) }
{
    let Pair { loser, winner, .. } = *pair;
    if links.exceed(winner, pair.links.len()) {
        links.join(loser, winner, &pair.links)?;
        return Ok(Ends {
            from: loser,
            to: winner,
        });
    }
    let others = links.of(alloc, winner)?;
    links.join(winner, loser, &others)?;
    Ok(Ends {
        from: winner,
        to: loser,
    })
}

impl<'a> Merging<'a> {
    /// Takes the next step: the new face has the class of the winner, and the areas and the links of both faces. The
    /// neighbours of the loser see another class in its place, so each of them may come to wait, or wait no longer.
    pub fn take(self, alloc: Global, pair: Pair) -> Result<Merging<'a>, Memory>
        requires running { IsRunning self }
        requires next { IsNextPair self pair }
        ensures running { IfOk result IsRunning }
        ensures base { IfOk result (λ next. next.base.now ≡ self.entry.base.now) }
        ensures steps { IfOk result (λ next. next.steps ≡ self.entry.steps ++ step_of self.entry pair ∷ []) }
    {
        let loser = self.face(pair.loser);
        let winner = self.face(pair.winner);
        let neighbours = self.neighbours_after(alloc, &pair, loser, winner, &pair.links)?;
        let permitted = self.permitted_of_made(&pair, loser, winner);
        let made = self.classes.len() as u32 + 1;
        let area = loser.area + winner.area;
        let Merging {
            base,
            mut steps,
            mut classes,
            mut numbers,
            mut areas,
            mut links,
            mut queue,
        } = self;
        let importance = importance(base.rules(), winner.class, area);
        let ends = join(alloc, &mut links, &pair)?;
        queue.set(loser.importance, loser.number, pair.loser, 0)?;
        queue.set(winner.importance, winner.number, pair.winner, 0)?;
        queue.set(importance, made, ends.to, permitted)?;
        queue.set_all(&neighbours)?;
        numbers[ends.from as usize] = 0;
        numbers[ends.to as usize] = made;
        areas[ends.to as usize] = area;
        classes.push(winner.class)?;
        steps.push(MergeStep {
            loser: loser.number,
            winner: winner.number,
            made,
        })?;
        Ok(Merging {
            base,
            steps,
            classes,
            numbers,
            areas,
            links,
            queue,
        })
    }
}
