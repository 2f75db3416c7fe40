//! The merge history by its rules alone: all areas and lengths are summed afresh at each step.
use std::alloc::Global;
use tgap_model::{Base, BaseArc, List, Memory, MergeStep, Point};

/// What an arc adds to twice the area of the face at its left, and its length.
#[derive(Clone, Copy)]
struct Measure {
    twice: i128,
    length: i128,
}

/// An arc with its present labels, and its measure.
#[derive(Clone, Copy)]
struct Sided {
    left: u32,
    right: u32,
    measure: Measure,
}

/// A map after some steps: the classes of all faces so far, and the arcs that are not inside a face.
#[derive(Drop)]
struct Plain<'a> {
    base: &'a Base,
    classes: Vec<u32>,
    arcs: Vec<Sided>,
}

fn number_at(numbers: &[u32], at: usize) -> u32 {
    numbers.get(at).copied().unwrap_or(0)
}

fn sum_at(sums: &[i128], face: u32) -> i128 {
    sums.get(face as usize).copied().unwrap_or(0)
}

fn add(sums: &mut [i128], face: u32, part: i128) {
    if let Some(sum) = sums.get_mut(face as usize) {
        *sum = sum.wrapping_add(part);
    }
}

/// Whether two faces are neighbours at the arc.
fn is_shared(arc: &Sided) -> bool {
    arc.left != 0 && arc.right != 0 && arc.left != arc.right
}

/// The neighbour of the face at the arc, permitted or not, or 0.
fn neighbour(arc: &Sided, face: u32) -> u32 {
    if !is_shared(arc) {
        0
    } else if arc.left == face {
        arc.right
    } else if arc.right == face {
        arc.left
    } else {
        0
    }
}

impl<'a> Plain<'a> {
    /// The map before its first step.
    fn of(alloc: Global, base: &'a Base) -> Result<Plain<'a>, Memory> {
        let classes = Vec::from_slice(alloc, base.classes().as_slice())?;
        let arcs = labelled(alloc, base)?;
        Ok(Plain {
            base,
            classes,
            arcs,
        })
    }

    fn class(&self, face: u32) -> u32 {
        number_at(&self.classes, (face as usize).wrapping_sub(1))
    }

    /// A sum for each face, from 0 on.
    fn zeros(&self, alloc: Global) -> Result<Vec<i128>, Memory> {
        Ok(vec![in alloc; 0i128; self.classes.len().saturating_add(1)]?)
    }

    /// Twice the area of each face, times the weight of its class.
    fn importances(&self, alloc: Global) -> Result<Vec<i128>, Memory> {
        let mut sums = self.zeros(alloc)?;
        for arc in &self.arcs {
            add(&mut sums, arc.left, arc.measure.twice);
            add(&mut sums, arc.right, arc.measure.twice.wrapping_neg());
        }
        let mut face = 0;
        for sum in sums.iter_mut() {
            *sum = sum.wrapping_mul(self.weight(face));
            face = face.wrapping_add(1);
        }
        Ok(sums)
    }

    fn weight(&self, face: u32) -> i128 {
        let weights = self.base.rules().weights.as_slice();
        i128::from(number_at(weights, self.class(face) as usize))
    }

    /// The length that each face shares with this one.
    fn lengths(&self, alloc: Global, face: u32) -> Result<Vec<i128>, Memory> {
        let mut sums = self.zeros(alloc)?;
        for arc in &self.arcs {
            add(&mut sums, neighbour(arc, face), arc.measure.length);
        }
        Ok(sums)
    }

    /// The face that loses next, or 0.
    fn loser(&self, importances: &[i128]) -> u32 {
        let mut best = 0;
        for arc in &self.arcs {
            if is_shared(arc) {
                best = self.sooner_where_permitted(importances, best, arc.left, arc.right);
                best = self.sooner_where_permitted(importances, best, arc.right, arc.left);
            }
        }
        best
    }

    /// The one of two faces that loses first, where the second permits this neighbour.
    fn sooner_where_permitted(
        &self,
        importances: &[i128],
        best: u32,
        face: u32,
        other: u32,
    ) -> u32 {
        if self.suits(face, other) == 0 {
            return best;
        }
        sooner(importances, best, face)
    }

    /// The compatibility of a face's class with another's.
    fn suits(&self, face: u32, other: u32) -> u32 {
        let rules = self.base.rules();
        let row = (self.class(face) as usize).wrapping_mul(rules.weights.len());
        let place = row.wrapping_add(self.class(other) as usize);
        number_at(rules.compat.as_slice(), place)
    }

    fn score(&self, lengths: &[i128], loser: u32, face: u32) -> i128 {
        sum_at(lengths, face).wrapping_mul(i128::from(self.suits(loser, face)))
    }

    /// The one of two neighbours that wins. Face 0 is none.
    fn better(&self, lengths: &[i128], loser: u32, best: u32, face: u32) -> u32 {
        let (a, b) = (
            self.score(lengths, loser, best),
            self.score(lengths, loser, face),
        );
        if best == 0 || b > a || (b == a && face < best) {
            face
        } else {
            best
        }
    }

    /// The permitted neighbour that takes the loser, or 0.
    fn winner(&self, lengths: &[i128], loser: u32) -> u32 {
        let mut best = 0;
        for arc in &self.arcs {
            let face = neighbour(arc, loser);
            if face != 0 && self.suits(loser, face) != 0 {
                best = self.better(lengths, loser, best, face);
            }
        }
        best
    }

    /// The next step, if a face has a permitted neighbour.
    fn next(&self, alloc: Global) -> Result<Option<MergeStep>, Memory> {
        let loser = self.loser(&self.importances(alloc)?);
        if loser == 0 {
            return Ok(None);
        }
        let winner = self.winner(&self.lengths(alloc, loser)?, loser);
        let made = u32::try_from(self.classes.len())
            .unwrap_or(0)
            .wrapping_add(1);
        Ok(Some(MergeStep {
            loser,
            winner,
            made,
        }))
    }

    /// Makes the step.
    fn take(&mut self, alloc: Global, step: &MergeStep) -> Result<(), Memory> {
        let class = self.class(step.winner);
        self.classes.push(class)?;
        let mut arcs = Vec::with_capacity(alloc, self.arcs.len())?;
        for arc in &self.arcs {
            let after = relabelled(step, arc);
            if after.left != after.right {
                arcs.push(after)?;
            }
        }
        self.arcs = arcs;
        Ok(())
    }

    /// Makes the next step and puts it at the end of those before it. Whether there is one.
    fn advance(&mut self, alloc: Global, steps: &mut List<MergeStep>) -> Result<bool, Memory> {
        let Some(step) = self.next(alloc)? else {
            return Ok(false);
        };
        self.take(alloc, &step)?;
        steps.push(step)?;
        Ok(true)
    }
}

/// The one of two faces that loses first. Face 0 is none.
fn sooner(importances: &[i128], best: u32, face: u32) -> u32 {
    let (a, b) = (sum_at(importances, best), sum_at(importances, face));
    if best == 0 || b < a || (b == a && face < best) {
        face
    } else {
        best
    }
}

fn relabelled(step: &MergeStep, arc: &Sided) -> Sided {
    Sided {
        left: step.label_after(arc.left),
        right: step.label_after(arc.right),
        measure: arc.measure,
    }
}

/// The product of two coordinates.
fn product(a: i64, b: i64) -> i128 {
    i128::from(a).wrapping_mul(i128::from(b))
}

/// What the segment from `a` to `b` adds to a measure.
fn lengthened(measure: Measure, a: Point, b: Point) -> Measure {
    let twice = product(a.x, b.y).wrapping_sub(product(b.x, a.y));
    let length = i128::from(a.x.abs_diff(b.x)).wrapping_add(i128::from(a.y.abs_diff(b.y)));
    Measure {
        twice: measure.twice.wrapping_add(twice),
        length: measure.length.wrapping_add(length),
    }
}

/// The measure of an arc, from its points.
fn measure_of(arc: &BaseArc) -> Measure {
    let points = arc.points.as_slice();
    let mut measure = Measure {
        twice: 0,
        length: 0,
    };
    for i in 1..points.len() {
        measure = lengthened(measure, points[i - 1], points[i]);
    }
    measure
}

/// The arcs of a map, with its labels.
fn labelled(alloc: Global, base: &Base) -> Result<Vec<Sided>, Memory> {
    let mut arcs = Vec::new(alloc);
    for arc in base.arcs().as_slice() {
        arcs.push(Sided {
            left: arc.left,
            right: arc.right,
            measure: measure_of(arc),
        })?;
    }
    Ok(arcs)
}

/// The merge history of a map.
pub fn plain_history(alloc: Global, base: &Base) -> Result<List<MergeStep>, Memory> {
    let mut map = Plain::of(alloc, base)?;
    let mut steps = List::new(alloc);
    for _step in 0..base.classes().len() {
        if !map.advance(alloc, &mut steps)? {
            break;
        }
    }
    Ok(steps)
}
