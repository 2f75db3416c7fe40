//! The arcs of a base map, which several base maps may hold at once.

ghost use Rattle.std.specs.Prelude.{◌≡◌, IfOk};

use crate::base::BaseArc;
use crate::copies::copied_arcs;
use crate::failure::Memory;
use crate::list::List;
use std::alloc::Global;
use std::marker::Model;
use std::sync::Arc;

/// Who holds the arcs: one base map, or several.
#[derive(Drop)]
enum Holding {
    Alone(List<BaseArc>),
    Together(Arc<List<BaseArc>>),
}

/// The arcs of a base map. Contracts see the list of them.
#[derive(Drop)]
pub(crate) struct HeldArcs {
    holding: Holding,
}

impl Model for HeldArcs {
    ghost use Rattle.std.specs.Prelude.{List as Sequence};
    ghost use Rattle.tgap_model.specs.declared.base.BaseArc.{BaseArc as Line};
    ghost use Rattle.tgap_model.specs.Held.{arcs_of};

    ghost Value = { Sequence Line };

    ghost view = { λ held. arcs_of held.holding };
}

impl HeldArcs {
    /// Arcs that one base map holds. It takes no memory.
    pub(crate) fn of(arcs: List<BaseArc>) -> HeldArcs
        ensures { result ≡ arcs }
    {
        HeldArcs {
            holding: Holding::Alone(arcs),
        }
    }

    /// The arcs, by number from 0.
    pub(crate) fn list(&self) -> &List<BaseArc>
        ensures { result.now ≡ self.now }
    {
        match &self.holding {
            Holding::Alone(arcs) => arcs,
            Holding::Together(arcs) => arcs,
        }
    }

    /// The same arcs, so that others can hold them too from then on.
    pub(crate) fn into_shared(self, alloc: Global) -> Result<HeldArcs, Memory>
        ensures { IfOk result (λ held. held ≡ self) }
    {
        let arcs = match self.holding {
            Holding::Alone(arcs) => Arc::new(alloc, arcs)?,
            Holding::Together(arcs) => arcs,
        };
        Ok(HeldArcs {
            holding: Holding::Together(arcs),
        })
    }

    /// The same arcs once more: held together with these where these may be, or else copied.
    pub(crate) fn share(&self, alloc: Global) -> Result<HeldArcs, Memory>
        ensures { IfOk result (λ held. held ≡ self.now) }
    {
        if let Holding::Together(arcs) = &self.holding {
            if let Ok(arcs) = Arc::try_clone(arcs) {
                return Ok(HeldArcs {
                    holding: Holding::Together(arcs),
                });
            }
        }
        Ok(HeldArcs::of(copied_arcs(alloc, self.list().as_slice())?))
    }
}
