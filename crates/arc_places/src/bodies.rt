//! Bodies: what is listed for a point is bodies, and each body stands in a slot. So what is listed goes over to another slot at one
//! stroke.

ghost use Rattle.std.specs.Prelude.{◌≡◌, ◌<◌, ℕ, [], OnOk, length, map, slice_index};
ghost use Rattle.arc_places.specs.Bodies.{exchanged, image};

use std::alloc::Global;
use std::marker::Model;
use tgap_model::Memory;

/// The slots that are listed. Contracts see them in their order; one may stand there more than once.
#[derive(Drop)]
pub struct ListedSlots<'a> {
    bodies: &'a [usize],
    slots: &'a [usize],
}

impl<'a> Model for ListedSlots<'a> {
    ghost use Rattle.std.specs.Prelude.{ℕ, List as Sequence, map};
    ghost use Rattle.arc_places.specs.Bodies.{image};

    ghost Value = { Sequence ℕ };

    ghost view = { λ l. map (image l.slots.now) l.bodies.now };
}

impl<'a> ListedSlots<'a> {
    /// These slots.
    pub fn plain(slots: &'a [usize]) -> ListedSlots<'a>
        ensures { result ≡ slots.now }
    {
        ListedSlots {
            bodies: slots,
            slots: &[],
        }
    }

    /// How many they are.
    pub fn count(&self) -> usize
        ensures { result ≡ length self.now }
    {
        self.bodies.len()
    }

    /// One of them, by its place among them.
    pub fn slot(&self, at: usize) -> usize
        requires { at < length self.now }
        ensures { result ≡ slice_index self.now at }
    {
        image(self.slots, self.bodies[at])
    }
}

/// The number that stands at a place. Past the end each number stands at its own place.
fn image(numbers: &[usize], at: usize) -> usize
    ensures { result ≡ image numbers.now at }
{
    match numbers.get(at) {
        Some(number) => *number,
        None => at,
    }
}

/// Makes the numbers so many that there is one at this place, and leaves all images as they are.
fn reach(numbers: &mut Vec<usize>, last: usize) -> Result<(), Memory>
    ensures long { OnOk result (last < length numbers.new.items) }
    ensures same { (i : ℕ) → image numbers.new.items i ≡ image numbers.old.items i }
{
    while numbers.len() <= last {
        numbers.push(numbers.len())?;
    }
    Ok(())
}

/// For each body its slot, and for each slot the body that stands in it, one to one. Contracts see the slots of the bodies.
#[derive(Drop)]
pub struct Bodies {
    slots: Vec<usize>,
    bodies: Vec<usize>,
}

impl Model for Bodies {
    ghost use Rattle.std.specs.Prelude.{ℕ, List as Sequence};
    ghost use Rattle.arc_places.specs.Bodies.{AreInverse};

    ghost Value = { Sequence ℕ };

    ghost view = { λ b. b.slots.items };

    ghost invariant = { λ b. AreInverse b.slots.items b.bodies.items };
}

impl Bodies {
    /// In each slot the body with its number. It takes no memory.
    pub fn new(alloc: Global) -> Bodies
        ensures { result ≡ [] }
    {
        Bodies {
            slots: Vec::new(alloc),
            bodies: Vec::new(alloc),
        }
    }

    /// The slots of these bodies.
    pub fn slots_of<'a>(&'a self, bodies: &'a [usize]) -> ListedSlots<'a>
        ensures { result ≡ map (image self.now) bodies.now }
    {
        ListedSlots {
            bodies,
            slots: self.slots.as_slice(),
        }
    }

    /// The body in a slot.
    pub fn body(&self, slot: usize) -> usize
        ensures { image self.now result ≡ slot }
    {
        image(&self.bodies, slot)
    }

    /// Lets the bodies of two slots change places.
    pub fn exchange(&mut self, first: usize, second: usize) -> Result<(), Memory>
        ensures { OnOk result ((b : ℕ) → image self.new b ≡ exchanged first second (image self.old b)) }
    {
        let last = first.max(second);
        reach(&mut self.slots, last)?;
        reach(&mut self.bodies, last)?;
        let one = self.bodies[first];
        let other = self.bodies[second];
        self.bodies[first] = other;
        self.bodies[second] = one;
        self.slots[other] = first;
        self.slots[one] = second;
        Ok(())
    }
}
