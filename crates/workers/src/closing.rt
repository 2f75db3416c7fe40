//! The end of serving.

ghost use Rattle.std.specs.Prelude.{◌≡◌, map, length, All};
ghost use Rattle.tgap_model.specs.Faults.{Rose};
ghost use Rattle.version_store.specs.Growth.{IsPrefix};
ghost use Rattle.version_store.specs.Publishers.{numbers_of};
ghost use Rattle.version_store.specs.Store.{seat_versions, seat_number, seat_numbers, press_versions, press_publishers, press_keeper, KeepsPublishers};
ghost use Rattle.workers.specs.Closing.{MayTakeBack, TakesAllBack, CountsAllBack, OneFailed, NoneFailed};

use crate::post::PostOf;
use plain_io::Harbour;
use tgap_model::{Holds, Keep};
use version_store::{Press, Seat, StoreName};

/// Ends the posts: the press gathers each seat, and each door goes back to its harbour.
pub fn close_posts<V: Holds + Drop, N: StoreName, K: Keep, H: Harbour>(
    posts: Vec<PostOf<H::Gate, Seat<V, N>>>,
    press: &mut Press<V, N, K>,
    harbour: &mut H,
)
    requires { MayTakeBack (length posts.items) (H.told harbour.old) }
    // All doors came back, in their order.
    ensures back { TakesAllBack (H.told harbour.old) (H.told harbour.new) (map (λ post. post.door) posts.items) }
    // The harbour's count rises where a door has failed, and else it stays.
    ensures failed { OneFailed (map (λ post. H.Gate.faults post.door) posts.items) → Rose (H.faults harbour.old) (H.faults harbour.new) }
    ensures sound { NoneFailed (map (λ post. H.Gate.faults post.door) posts.items) → H.faults harbour.new ≡ H.faults harbour.old }
    // What a seat has seen begins the list of the press, which stays.
    ensures gathered { All (λ post. IsPrefix (seat_versions post.seat) (press_versions press.new)) posts.items }
    ensures kept { press_versions press.new ≡ press_versions press.old }
    // The versions that it has published are those of which the press knows it as the publisher.
    ensures numbers { All (λ post. seat_numbers post.seat ≡ numbers_of (seat_number post.seat) (press_publishers press.new)) posts.items }
    ensures publishers { KeepsPublishers press.old press.new }
    // The keeper stays.
    ensures keeper { press_keeper press.new ≡ press_keeper press.old }
{
    for post in posts {
        let PostOf { door, seat } = post;
        press.gather(seat);
        harbour.back(door);
    }
}
