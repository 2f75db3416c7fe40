//! Lists that are kept for long.

ghost use Rattle.std.specs.Prelude.{◌≡◌};

use tgap_model::List;

/// The same list, without room for more.
pub fn trimmed<T>(list: List<T>) -> List<T>
    ensures { result ≡ list }
{
    let mut items = list.into_vec();
    items.shrink_to_fit();
    List::from(items)
}
