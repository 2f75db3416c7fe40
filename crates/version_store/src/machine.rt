//! The machine of versions.

ghost use Rattle.std.specs.Prelude.{◌≡◌, ◌<◌, ◌≤◌, ◌-◌, ◌++◌, [], ◌∷◌, map, None, length, replicate, AllPairs, All, IfOk, OnErr, IsOk};
ghost use Rattle.version_store.specs.declared.event.Event.TheVariants as event;
ghost use Rattle.version_store.specs.Machine.{newest, pin_of, with_pin, step, run};
ghost use Rattle.version_store.specs.Versions.{IsPin};
ghost use Rattle.version_store.specs.Runs.{states, turns, published_maps, IsPublishedRight, ReadsRight, KeepsPins};

use crate::event::{Event, Outcome};
use std::alloc::Global;
use std::marker::Model;
use tgap_model::{Base, List, Memory};

/// The versions of a map, and the version that each actor has pinned. A version is a base map; its number is its place in the
/// history, which only grows.
#[derive(Drop)]
pub struct Machine {
    history: Vec<Base>,
    limit: u64,
    pins: Vec<Option<u64>>,
}

impl Model for Machine {
    ghost use Rattle.std.specs.Prelude.{◌≤◌};
    ghost use Rattle.std.specs.Vec.{vec_capacity};
    ghost use Rattle.version_store.specs.Machine.{Versions};
    ghost use Rattle.version_store.specs.Versions.{AreVersions};

    ghost Value = { Versions };

    ghost view = { λ m. record { history = m.history.items; limit = m.limit; pins = m.pins.items } };

    ghost invariant = { λ m. AreVersions (record { history = m.history.items; limit = m.limit; pins = m.pins.items }) × (m.limit ≤ vec_capacity m.history) };
}

impl Machine {
    /// One version, and this many actors without a pin. `limit` is how many versions there may be at all.
    pub fn new(alloc: Global, first: Base, limit: u64, actors: u32) -> Result<Machine, Memory>
        requires some { 1 ≤ limit }
        requires limit { limit ≤ 64 }
        requires actor { 1 ≤ actors }
        requires actors { actors ≤ 16 }
        ensures { IfOk result (λ machine. machine ≡ record { history = first ∷ []; limit = limit; pins = replicate actors None }) }
    {
        let mut history = Vec::with_capacity(alloc, limit as usize)?;
        let pins = Vec::from_elem(alloc, None, actors as usize)?;
        history.push_reserved(first);
        Ok(Machine {
            history,
            limit,
            pins,
        })
    }

    /// The number of the newest version.
    fn newest(&self) -> u64
        ensures { result ≡ newest self.now }
    {
        self.history.len() as u64 - 1
    }

    /// The version that an actor has pinned, if it is one and has pinned one.
    fn pin_of(&self, actor: u32) -> Option<u64>
        ensures { result ≡ pin_of self.now actor }
    {
        match self.pins.get(actor as usize) {
            Some(pin) => *pin,
            None => None,
        }
    }

    /// Gives an actor this pin, or none.
    fn set_pin(&mut self, actor: u32, pin: Option<u64>)
        requires actor { actor < length self.old.pins }
        requires pin { IsPin (length self.old.history) pin }
        ensures { self.new ≡ with_pin self.old actor pin }
    {
        self.pins[actor as usize] = pin;
    }

    /// The version from which an actor begins an edit.
    fn begin(&self, actor: u32) -> Outcome
        ensures { (self.now, result) ≡ step self.now (event.Begin actor) }
    {
        match self.pin_of(actor) {
            Some(pin) => Outcome::Began(pin),
            None => Outcome::Idle,
        }
    }

    /// The version that an actor reads.
    fn read(&self, actor: u32) -> Outcome
        ensures { (self.now, result) ≡ step self.now (event.Read actor) }
    {
        match self.pin_of(actor) {
            Some(pin) => Outcome::At(pin),
            None => Outcome::Idle,
        }
    }

    /// Gives an actor the newest version as its pin.
    fn pin(&mut self, actor: u32) -> Outcome
        ensures { (self.new, result) ≡ step self.old (event.Pin actor) }
    {
        if self.pins.len() <= actor as usize {
            return Outcome::Idle;
        }
        let newest = self.newest();
        self.set_pin(actor, Some(newest));
        Outcome::Pinned(newest)
    }

    /// Takes an actor's pin away.
    fn leave(&mut self, actor: u32) -> Outcome
        ensures { (self.new, result) ≡ step self.old (event.Leave actor) }
    {
        if self.pin_of(actor).is_none() {
            return Outcome::Idle;
        }
        self.set_pin(actor, None);
        Outcome::Left
    }

    /// Publishes a map that an actor has made of the version that it has pinned, or tells why not.
    fn commit(&mut self, actor: u32, base: Base) -> Outcome
        ensures { (self.new, result) ≡ step self.old (event.Commit actor base) }
    {
        let Some(pin) = self.pin_of(actor) else {
            return Outcome::Idle;
        };
        let newest = self.newest();
        let number = newest + 1;
        if pin != newest {
            return Outcome::Stale(newest);
        }
        if number == self.limit {
            return Outcome::Full(number);
        }
        self.history.push_reserved(base);
        self.set_pin(actor, Some(number));
        Outcome::Published(number)
    }

    /// Takes an event, and tells what comes of it.
    fn take(&mut self, event: Event) -> Outcome
        ensures { (self.new, result) ≡ step self.old event }
    {
        match event {
            Event::Begin(actor) => self.begin(actor),
            Event::Commit(actor, base) => self.commit(actor, base),
            Event::Pin(actor) => self.pin(actor),
            Event::Read(actor) => self.read(actor),
            Event::Leave(actor) => self.leave(actor),
        }
    }

    /// Takes an event, and tells what comes of it: `Idle`, where its actor is none or has no pin, and then nothing changes.
    ///
    /// The room for all versions was taken when the machine was made, so it takes no memory.
    pub fn step(&mut self, _alloc: Global, event: Event) -> Result<Outcome, Memory>
        ensures exact { IfOk result (λ outcome. (self.new, outcome) ≡ step self.old event) }
        ensures taken { IsOk result }
    {
        Ok(self.take(event))
    }

    /// Takes events, one after the other, and tells what comes of each. On want of memory nothing has changed.
    pub fn run(&mut self, alloc: Global, events: List<Event>) -> Result<List<Outcome>, Memory>
        ensures exact { IfOk result (λ outcomes. (self.new, outcomes) ≡ run self.old events) }
        ensures kept { OnErr result (self.new ≡ self.old) }
        // What comes of each event is what its turn says.
        ensures told { IfOk result (λ outcomes. outcomes ≡ map (λ t. t.outcome) (turns self.old events)) }
        // The history only grows, by the map of each commit that is published.
        ensures grows { IfOk result (λ outcomes. self.new.history ≡ self.old.history ++ published_maps (turns self.old events)) }
        // A commit becomes a version exactly where its actor has pinned the newest one and there is room.
        ensures published { All IsPublishedRight (turns self.old events) }
        // A read is answered from the version that its actor pinned last.
        ensures read { ReadsRight self.old (turns self.old events) }
        // The pins of an actor never fall, also across a time without one.
        ensures pins { AllPairs KeepsPins (states self.old events) }
    {
        // What is known of the versions is read off a field.
        let _ = &self.history;
        let mut outcomes = Vec::with_capacity(alloc, events.len())?;
        for event in events.into_vec() {
            outcomes.push_reserved(self.take(event));
        }
        Ok(List::from(outcomes))
    }
}
