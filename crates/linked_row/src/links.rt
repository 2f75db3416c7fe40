//! A row of different numbers, each linked to its neighbours.

ghost use Rattle.std.specs.Prelude.{◌≡◌, ℕ, ◌<◌, ◌≤◌, ◌↔◌, [], length, get_or, slice_set, IfOk, IsTrue, Contains};
ghost use Rattle.std.specs.List.{insert, remove};
ghost use Rattle.linked_row.specs.Linked.{IsNode, uppers, lowers, aboves, belows};

use std::alloc::Global;
use std::marker::Model;
use tgap_model::Memory;

/// Different numbers below a count, in a row. Contracts see the count and the list of the numbers. One more node closes the
/// row to a circle: the end, whose number is the count. `nodes` has an entry for each number and for the end. A number that is
/// not in the row stands below itself, and keeps what stood above it last.
#[derive(Drop)]
pub struct Links {
    nodes: Vec<Node>,
    len: usize,
}

/// The two neighbours of a node, side by side, so that one look in memory finds both.
#[derive(Clone, Copy)]
struct Node {
    above: u32,
    below: u32,
}

impl Model for Links {
    ghost use Rattle.linked_row.specs.Linked.{Linked, AreLinks, linked_by, aboves, belows};

    ghost Value = { Linked };

    ghost view = { λ l. linked_by (belows l.nodes.items) l.len };

    ghost invariant = { λ l. AreLinks (aboves l.nodes.items) (belows l.nodes.items) (linked_by (belows l.nodes.items) l.len) };
}

/// Makes two nodes neighbours.
fn join(nodes: &mut Vec<Node>, upper: u32, lower: u32)
    requires upper { upper < length nodes.old.items }
    requires lower { lower < length nodes.old.items }
    ensures above { aboves nodes.new.items ≡ slice_set (aboves nodes.old.items) lower upper }
    ensures below { belows nodes.new.items ≡ slice_set (belows nodes.old.items) upper lower }
{
    nodes[lower as usize].above = upper;
    nodes[upper as usize].below = lower;
}

impl Links {
    /// The empty row of numbers below a count. It takes eight bytes for each of them, and is refused on want of memory and
    /// where the count is the greatest number of 32 bits.
    pub fn of(alloc: Global, count: u32) -> Result<Links, Memory>
        ensures { IfOk result (λ links. links ≡ record { count = count; row = [] }) }
    {
        let entries = count.checked_add(1).ok_or(Memory)?;
        let mut nodes = Vec::with_capacity(alloc, entries as usize)?;
        for number in 0..entries {
            nodes.push_reserved(Node {
                above: count,
                below: number,
            });
        }
        Ok(Links { nodes, len: 0 })
    }

    /// The end: above the first number of the row and below the last one.
    pub fn end(&self) -> u32
        ensures { result ≡ self.now.count }
    {
        (self.nodes.len() - 1) as u32
    }

    /// Whether a number is in the row.
    pub fn has(&self, number: u32) -> bool
        ensures { IsTrue result ↔ Contains self.now.row number }
    {
        number < self.end() && self.nodes[number as usize].below != number
    }

    /// What stands below a number of the row, or below the end.
    pub fn below(&self, number: u32) -> u32
        requires { IsNode self.now number }
        ensures next { (k : ℕ) → k ≤ length self.now.row → get_or (uppers self.now) k 0 ≡ number → result ≡ get_or (lowers self.now) k 0 }
        ensures node { IsNode self.now result }
    {
        self.nodes[number as usize].below
    }

    /// What stands above a number of the row, or above the end.
    pub fn above(&self, number: u32) -> u32
        requires { IsNode self.now number }
        ensures next { (k : ℕ) → k ≤ length self.now.row → get_or (lowers self.now) k 0 ≡ number → result ≡ get_or (uppers self.now) k 0 }
        ensures node { IsNode self.now result }
    {
        self.nodes[number as usize].above
    }

    /// What stood above a number when it was last in the row; the end where it never was. A hint: it may have left since.
    pub fn last_above(&self, number: u32) -> u32
        requires { number ≤ self.now.count }
        ensures { result ≤ self.now.count }
    {
        self.nodes[number as usize].above
    }

    /// Puts a number in, below a node.
    pub fn insert_below(&mut self, upper: u32, number: u32)
        requires node { IsNode self.old upper }
        requires known { number < self.old.count }
        requires new { Contains self.old.row number → ⊥ }
        ensures count { self.new.count ≡ self.old.count }
        ensures placed { (k : ℕ) × (k ≤ length self.old.row) × (get_or (uppers self.old) k 0 ≡ upper) × (self.new.row ≡ insert self.old.row k number) }
    {
        let lower = self.nodes[upper as usize].below;
        join(&mut self.nodes, upper, number);
        join(&mut self.nodes, number, lower);
        self.len += 1;
    }

    /// Takes a number out.
    pub fn remove(&mut self, number: u32)
        requires { Contains self.old.row number }
        ensures count { self.new.count ≡ self.old.count }
        ensures removed { (k : ℕ) × (k < length self.old.row) × (get_or self.old.row k 0 ≡ number) × (self.new.row ≡ remove self.old.row k) }
    {
        let entry = number as usize;
        let Node {
            above: upper,
            below: lower,
        } = self.nodes[entry];
        join(&mut self.nodes, upper, lower);
        self.nodes[entry].below = number;
        self.len -= 1;
    }
}
