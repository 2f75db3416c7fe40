//! A text that several hold.

ghost use Rattle.std.specs.Prelude.{◌≡◌, length, IfSome, IfOk, IfErr};

use std::alloc::Global;
use std::marker::Model;
use std::sync::Arc;
use tgap_model::Text;

/// A text that several may hold at once. Contracts see its bytes.
#[derive(Drop)]
pub(crate) struct SharedText {
    text: Arc<Text>,
}

impl Model for SharedText {
    ghost use Rattle.std.specs.Prelude.{List, ℕ};
    ghost use Rattle.std.specs.Arc.{arc_value};

    ghost Value = { List ℕ };

    ghost view = { λ shared. arc_value shared.text };
}

impl SharedText {
    /// The text, to be shared from then on; where memory is wanting it is given back.
    pub(crate) fn new(alloc: Global, text: Text) -> Result<SharedText, Text>
        ensures shared { IfOk result (λ shared. shared ≡ text) }
        ensures back { IfErr result (λ back. back ≡ text) }
    {
        match Arc::new(alloc, text) {
            Ok(text) => Ok(SharedText { text }),
            Err(failed) => Err(failed.value),
        }
    }

    /// The same bytes once more, without a copy of them; or None, where as many hold them as may.
    pub(crate) fn share(&self) -> Option<SharedText>
        ensures { IfSome result (λ shared. shared ≡ self.now) }
    {
        match Arc::try_clone(&self.text) {
            Ok(text) => Some(SharedText { text }),
            Err(_) => None,
        }
    }

    /// The bytes, in order.
    pub(crate) fn as_slice(&self) -> &[u8]
        ensures { result.now ≡ self.now }
    {
        self.text.as_slice()
    }

    /// How many bytes it has.
    pub(crate) fn len(&self) -> usize
        ensures { result ≡ length self.now }
    {
        self.text.len()
    }
}
