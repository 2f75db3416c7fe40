//! What is looked for among boxes.

ghost use Rattle.std.specs.Prelude.{◌≡◌, Bool, true};
ghost use Rattle.tgap_model.specs.declared.geometry.Window.{Window as Area};
ghost use Rattle.grid_index.specs.Boxes.{meets, Covers};
ghost use Rattle.grid_index.specs.Wider.{meets_wider};

use crate::window::meets;
use tgap_model::Window;

/// A test of boxes. What holds a box that passes it passes it too, so that a box which fails need not be opened.
pub trait Probe {
    /// Whether a box passes.
    ghost hits: { Self → Area → Bool };

    /// Whether the box passes.
    fn is_hit(&self, area: &Window) -> bool
        ensures { result ≡ hits self.now area.now };

    /// What holds a box that passes does too.
    ghost wider: { (probe : Self) (up down : Area) → Covers up down → hits probe down ≡ true → hits probe up ≡ true };
}

/// The boxes that have a point in common with the window pass.
impl Probe for Window {
    ghost hits = { meets };

    ghost wider = { meets_wider };

    fn is_hit(&self, area: &Window) -> bool {
        meets(self, area)
    }
}
