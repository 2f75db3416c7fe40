//! What a worker keeps from one connection to the next.

ghost use Rattle.std.specs.Prelude.{◌≡◌, [], IfOk};
ghost use Rattle.session.specs.Keeping.{IsDeskOf};
ghost use Rattle.session.specs.Versions.{Seen};

use crate::kept_texts::KeptTexts;
use crate::room::Room;
use http_face::{Routes, routes};
use std::alloc::Global;
use std::marker::Model;
use tgap_model::Memory;

/// What a connection wants to have before it begins, and what the next one takes over: where memory comes from, room
/// for what comes in, the table of routes, and the texts that are kept.
#[derive(Drop)]
pub(crate) struct Fittings {
    pub alloc: Global,
    pub room: Room,
    pub routes: Routes,
    pub kept: KeptTexts,
}

impl Fittings {
    /// Room that holds no byte, the table, and no text.
    fn new(alloc: Global) -> Result<Fittings, Memory>
        ensures { IfOk result (λ fittings. fittings.kept ≡ []) }
    {
        Ok(Fittings {
            alloc,
            room: Room::new(alloc)?,
            routes: routes(alloc)?,
            kept: KeptTexts::new(alloc),
        })
    }
}

/// What a worker keeps from one connection to the next: room for what comes in, the table of routes, and the replies
/// that were asked for last, 8,388,608 bytes at most. It is seen as those replies.
#[derive(Drop)]
pub struct Desk {
    alloc: Global,
    pub(crate) fittings: Option<Fittings>,
}

impl Model for Desk {
    ghost use Rattle.std.specs.Prelude.{List};
    ghost use Rattle.session.specs.Desks.{texts_of};
    ghost use Rattle.session.specs.declared.kept_texts.KeptText.{KeptText};

    ghost Value = { List KeptText };

    ghost view = { λ desk. texts_of desk.fittings };
}

impl Desk {
    /// A desk at which nothing is kept yet. It takes no memory; the first connection takes what it wants.
    pub fn new(alloc: Global) -> Desk
        ensures { (seen : Seen) → IsDeskOf seen result }
    {
        Desk {
            alloc,
            fittings: None,
        }
    }

    /// Makes what a connection wants to have before it begins, where it is not there yet. Without memory it is still
    /// not there.
    pub(crate) fn furnish(&mut self)
        ensures { self.new ≡ self.old }
    {
        if self.fittings.is_none() {
            self.fittings = Fittings::new(self.alloc).ok();
        }
    }
}
