//! Files in memory that never fail.

ghost use Rattle.std.specs.Prelude.{◌≡◌, ℕ, List};
ghost use Rattle.plain_io.specs.Loads.{Holds};
ghost use Rattle.plain_io.specs.Held.{text_of};

use super::{Files, LoadFail, Which, copy};
use std::alloc::Global;
use tgap_model::Text;

/// The text of each kind of file.
#[derive(Drop)]
pub struct FileTexts {
    pub map: Text,
    pub rules: Text,
    pub slice: Text,
    pub packet: Text,
}

/// Files in memory that never fail: a load of a kind gives the text of that kind, whatever the name. They tell their
/// bytes.
#[derive(Drop)]
pub struct SureFiles {
    texts: FileTexts,
}

impl SureFiles {
    /// Files with these texts.
    pub fn new(texts: FileTexts) -> Self
        ensures { (which : Which) (name : List ℕ)
            → ⟦<SureFiles as Files>⟧.told result which name ≡ Holds (text_of texts which) }
    {
        SureFiles { texts }
    }
}

impl Files for SureFiles {
    ghost told = { λ f which name. Holds (text_of f.texts which) };

    ghost faults = { λ f which. 0 };

    fn load(
        &mut self,
        alloc: Global,
        which: Which,
        _name: &str,
        max: u64,
    ) -> Result<Text, LoadFail> {
        let text = match which {
            Which::Map => &self.texts.map,
            Which::Rules => &self.texts.rules,
            Which::Slice => &self.texts.slice,
            Which::Packet => &self.texts.packet,
        };
        copy(alloc, text.as_slice(), max)
    }
}
