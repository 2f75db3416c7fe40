//! The replies that were asked for last, which are kept for who asks for them again.

ghost use Rattle.std.specs.Prelude.{◌≡◌, ◌⊎◌, ◌≤◌, ◌<◌, ◌+◌, [], All, length, drop, sum_by, IfSome, IsTrue};
ghost use Rattle.std.specs.List.{Contains, HoldsAt};
ghost use Rattle.session.specs.KeptTexts.{size_of, IsFor};
ghost use Rattle.session.specs.declared.kept_texts.TheConstants.{KEPT_BYTES, KEPT_TEXTS};

use crate::sending::Sending;
use crate::shared_text::SharedText;
use http_face::Route;
use std::alloc::Global;
use std::marker::Model;
use tgap_model::Text;

/// How many bytes the texts that are kept have at most, together.
pub const KEPT_BYTES: usize = 8_388_608;

/// How many texts are kept at most. They are few, so that a text is found by looking at one after the other.
pub const KEPT_TEXTS: usize = 128;

/// What a reply is kept for: what is asked of the version of a number, and whether the connection ends after the reply.
#[derive(Clone, Copy)]
pub(crate) struct ReplyKey {
    pub number: u64,
    pub asked: Route,
    pub close: bool,
}

/// A text that is kept: the bytes of the whole reply to what is asked.
#[derive(Drop)]
pub(crate) struct KeptText {
    pub key: ReplyKey,
    pub text: SharedText,
}

impl KeptText {
    /// Whether it is the reply to this.
    fn is_for(&self, key: ReplyKey) -> bool
        ensures { IsTrue result → IsFor key self.now }
    {
        self.key.number == key.number
            && self.key.close == key.close
            && is_same(self.key.asked, key.asked)
    }
}

/// Whether both ask for the numbers of the version, or for the same slice, packet or topology.
fn is_same(a: Route, b: Route) -> bool
    ensures { IsTrue result → a ≡ b }
{
    match a {
        Route::Info => matches!(b, Route::Info),
        Route::Slice(step) => matches!(b, Route::Slice(other) if step == other),
        Route::Packet(from, to) =>
            matches!(b, Route::Packet(other, last) if from == other && to == last),
        Route::Topo(step) => matches!(b, Route::Topo(other) if step == other),
        Route::Window(_, _) | Route::WindowPacket(_, _, _) => false,
        Route::BadNumber | Route::WrongMethod(_) | Route::NoRoute => false,
        Route::Pin | Route::PinSeen(_) | Route::Edit => false,
    }
}

/// The texts that are kept, in the order of their last use.
#[derive(Drop)]
pub(crate) struct KeptTexts {
    texts: Vec<KeptText>,
}

impl Model for KeptTexts {
    ghost use Rattle.std.specs.Prelude.{List, ◌≤◌, sum_by};
    ghost use Rattle.session.specs.KeptTexts.{size_of};
    ghost use Rattle.session.specs.declared.kept_texts.KeptText.{KeptText};
    ghost use Rattle.session.specs.declared.kept_texts.TheConstants.{KEPT_BYTES};

    ghost Value = { List KeptText };

    ghost view = { λ kept. kept.texts.items };

    ghost invariant = { λ kept. sum_by size_of kept.texts.items ≤ KEPT_BYTES };
}

/// Where the text stands that is kept for this. The one that was used last is looked at first.
#[tactic(auto, using(std::proofs::lemmas::List::Elements::at_read))]
fn place_of(texts: &[KeptText], key: ReplyKey) -> Option<usize>
    ensures { IfSome result (λ place. (place < length texts.now) × HoldsAt (IsFor key) texts.now place) }
{
    for passed in 0..texts.len() {
        let place = texts.len() - 1 - passed;
        if texts[place].is_for(key) {
            return Some(place);
        }
    }
    None
}

/// The place of the first of those texts that may stay: as many of the last ones as have at most so many bytes together
/// and are at most so many.
fn first_that_stays(texts: &[KeptText], bytes: usize, count: usize) -> usize
    ensures place { result ≤ length texts.now }
    ensures bytes { sum_by size_of (drop result texts.now) ≤ bytes }
    ensures count { length (drop result texts.now) ≤ count }
{
    let mut room = bytes;
    for passed in 0..texts.len() {
        let place = texts.len() - 1 - passed;
        let size = texts[place].text.len();
        if passed == count || room < size {
            return place + 1;
        }
        room -= size;
    }
    0
}

/// Lets go the first texts, so many.
#[tactic(auto, using(crate::proofs::KeptLists::take_rotated))]
fn drop_first(texts: &mut Vec<KeptText>, count: usize)
    requires { count ≤ length texts.old.items }
    ensures { texts.new.items ≡ drop count texts.old.items }
{
    let rest = texts.len() - count;
    texts.rotate_left(count);
    texts.truncate(rest);
}

impl KeptTexts {
    /// None is kept. It takes no memory.
    pub(crate) fn new(alloc: Global) -> KeptTexts
        ensures { result ≡ [] }
    {
        KeptTexts {
            texts: Vec::new(alloc),
        }
    }

    /// The text that is kept for this, if there is one. It is the one that was used last from then on.
    pub(crate) fn find(&mut self, key: ReplyKey) -> Option<SharedText>
        ensures found { IfSome result (λ text. Contains self.old (record { key = key; text = text })) }
        // No text is kept that was not.
        ensures texts { All (Contains self.old) self.new }
    {
        let place = place_of(self.texts.as_slice(), key)?;
        let text = self.texts[place].text.share()?;
        self.use_last(place);
        Some(text)
    }

    /// The text of this place is the one that was used last.
    fn use_last(&mut self, place: usize)
        requires { place < length self.old }
        ensures { All (Contains self.old) self.new }
    {
        let kept = self.texts.remove(place);
        self.texts.push_reserved(kept);
    }

    /// Keeps the bytes of the reply to this, and gives them to be put. Those go that were not used for the longest
    /// time, as many as must. A text of more than [`KEPT_BYTES`] is not kept, nor is one where memory is wanting.
    pub(crate) fn keep(&mut self, alloc: Global, key: ReplyKey, text: Text) -> Sending
        ensures reply { result ≡ text }
        // No text is kept but those that were, and this one.
        ensures texts { All (λ kept. Contains self.old kept ⊎ (kept ≡ record { key = key; text = text })) self.new }
    {
        if text.len() > KEPT_BYTES {
            return Sending::whole(text);
        }
        match SharedText::new(alloc, text) {
            Ok(text) => {
                self.keep_shared(key, &text);
                Sending::kept(text)
            }
            Err(text) => Sending::whole(text),
        }
    }

    /// Keeps a text that is shared, of at most [`KEPT_BYTES`].
    fn keep_shared(&mut self, key: ReplyKey, text: &SharedText)
        requires { length text.now ≤ KEPT_BYTES }
        ensures { All (λ kept. Contains self.old kept ⊎ (kept ≡ record { key = key; text = text.now })) self.new }
    {
        if let Some(text) = text.share() {
            self.make_room(text.len());
            self.add(KeptText { key, text });
        }
    }

    /// Lets go those that were not used for the longest time, until there is room for one of this size.
    fn make_room(&mut self, size: usize)
        requires { size ≤ KEPT_BYTES }
        ensures texts { All (Contains self.old) self.new }
        ensures bytes { sum_by size_of self.new + size ≤ KEPT_BYTES }
        ensures count { length self.new < KEPT_TEXTS }
    {
        let first = first_that_stays(self.texts.as_slice(), KEPT_BYTES - size, KEPT_TEXTS - 1);
        drop_first(&mut self.texts, first);
    }

    /// Adds a text, for which there is room, as the one that was used last; where memory is wanting it is let go.
    fn add(&mut self, kept: KeptText)
        requires { sum_by size_of self.old + size_of kept ≤ KEPT_BYTES }
        ensures { All (λ text. Contains self.old text ⊎ (text ≡ kept)) self.new }
    {
        match self.texts.push(kept) {
            Ok(()) => {}
            Err(_) => {}
        }
    }
}
