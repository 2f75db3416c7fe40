//! Mends by their keys.

ghost use Rattle.std.specs.Prelude.{◌≡◌, ◌==◌, IsTrue};
ghost use Rattle.std.specs.List.{list_any};
ghost use Rattle.client_replay.specs.Rules.{mends_in_order};

use tgap_model::Mend;

/// Whether there is a mend of the edge with this key.
pub fn has_mend(mends: &[Mend], key: u32) -> bool
    requires { IsTrue (mends_in_order mends.now) }
    ensures { result ≡ list_any (λ m. m.key == key) mends.now }
{
    mends.binary_search_by_key(&key, |mend| mend.key).is_ok()
}
