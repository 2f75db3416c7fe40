//! Labels of faces. An edge holds the labels of its two faces, and a face that takes the place of another takes its label,
//! so that the edges stay as they are.

ghost use Rattle.std.specs.Prelude.{◌≡◌, ℕ, None, Some, IfOk, OnOk};
ghost use Rattle.tgap_model.specs.Records.{in_place_of};
ghost use Rattle.client_replay.specs.Labels.{face_of, label_of, AreExact, IsLabel, AreRelabelled};

use std::alloc::Global;
use std::collections::BTreeMap;
use tgap_model::Memory;

/// The face of each label, and the label of each face that has one.
#[derive(Drop)]
pub struct Labels {
    faces: Vec<u32>,
    labels: BTreeMap<u32, usize>,
}

impl Labels {
    /// No labels.
    pub fn new(alloc: Global) -> Labels
        ensures { AreExact result }
    {
        Labels {
            faces: Vec::new(alloc),
            labels: BTreeMap::new(alloc),
        }
    }

    /// The face of a label, or 0 where there is no such label.
    pub fn face(&self, label: usize) -> u32
        ensures { result ≡ face_of self.now label }
    {
        self.faces.get(label).copied().unwrap_or(0)
    }

    /// The label of a face, where it has one.
    pub fn label(&self, face: u32) -> Option<usize>
        ensures { result ≡ label_of self.now face }
    {
        self.labels.get(&face).copied()
    }

    /// The label of a face, which gets one where it has none.
    pub fn label_for(&mut self, face: u32) -> Result<usize, Memory>
        requires { AreExact self.old }
        ensures exact { OnOk result (AreExact self.new) }
        ensures label { IfOk result (λ i. IsLabel self.new i) }
        ensures face { IfOk result (λ i. face_of self.new i ≡ face) }
        ensures kept { OnOk result (AreRelabelled (λ n. n) self.old self.new) }
    {
        if let Some(label) = self.label(face) {
            return Ok(label);
        }
        let label = self.faces.len();
        self.faces.push(face)?;
        self.labels.insert(face, label)?;
        Ok(label)
    }

    /// Gives the label of a face to another, which has none.
    pub fn pass_on(&mut self, label: usize, made: u32, winner: u32) -> Result<(), Memory>
        requires exact { AreExact self.old }
        requires made { label_of self.old made ≡ Some label }
        requires winner { label_of self.old winner ≡ None }
        ensures exact { OnOk result (AreExact self.new) }
        ensures passed { OnOk result (AreRelabelled (in_place_of made winner) self.old self.new) }
    {
        self.labels.insert(winner, label)?;
        self.labels.remove(&made);
        self.faces[label] = winner;
        Ok(())
    }
}
