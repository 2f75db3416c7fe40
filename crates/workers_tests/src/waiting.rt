//! Two workers, of which the first waits for what the second puts.

ghost use Rattle.plain_io.specs.Links.{IsNew};

use plain_io::{ConnectionEnd, EndKind, Flag, HeldLink, Link, SureDoor};
use std::alloc::Global;
use std::sync::Wait;
use std::test::Fail;
use std::thread::Threads;
use tgap_model::{List, Memory, Text};
use workers::{Attend, PostOf, ServeEnd, serve_posts};

/// Puts back what it takes, until there is no more.
#[derive(Drop)]
struct Echo;

impl Attend<Global> for Echo {
    ghost use Rattle.std.specs.Prelude.{⊤};

    type Desk = ();

    ghost served = { λ before now talks. ⊤ };

    ghost ready = { λ now desk. ⊤ };

    fn desk(&self, _alloc: &Global) {}

    fn leave(&self, _desk: ()) {}

    fn attend<L: Link, R: Threads + Wait + Sync>(
        &mut self,
        _rt: &R,
        alloc: &Global,
        link: &mut L,
        _desk: &mut (),
    ) -> ConnectionEnd {
        ConnectionEnd {
            how: give_back(link),
            first: 0,
            last: 0,
            numbers: List::new(*alloc),
            rows: List::new(*alloc),
        }
    }

    ghost served_none = { λ now. tt };
}

/// Puts back what it takes, a few times at most.
fn give_back<L: Link>(link: &mut L) -> EndKind {
    let mut buf = [0u8; 8];
    for _ in 0..8 {
        match link.take(&mut buf) {
            Ok(0) => return EndKind::Closed,
            Ok(count) => {
                if link.put(&buf[..count]).is_err() {
                    return EndKind::WriteFault;
                }
            }
            Err(_) => return EndKind::ReadFault,
        }
    }
    EndKind::Spent
}

/// A door that gives one link.
fn door(alloc: Global, link: HeldLink) -> Result<SureDoor<HeldLink>, Memory>
    requires { IsNew (⟦<HeldLink as Link>⟧.taken link) (⟦<HeldLink as Link>⟧.told link) (⟦<HeldLink as Link>⟧.take_faults link) (⟦<HeldLink as Link>⟧.put_faults link) (⟦<HeldLink as Link>⟧.ended link) }
{
    let mut links = List::new(alloc);
    links.push(link)?;
    SureDoor::new(alloc, links)
}

/// A door whose link gives `late` when this flag is raised.
fn waiting_door(alloc: Global, flag: Flag) -> Result<SureDoor<HeldLink>, Memory> {
    let mut link = HeldLink::new(alloc, 8)?;
    link.add_piece(b"late", Some(flag))?;
    door(alloc, link)
}

/// A door whose link gives `soon`, and raises this flag by the put that follows.
fn ready_door(alloc: Global, flag: Flag) -> Result<SureDoor<HeldLink>, Memory> {
    let mut link = HeldLink::new(alloc, 8)?;
    link.add_piece(b"soon", None)?;
    link.add_flag(flag)?;
    door(alloc, link)
}

type Post = PostOf<SureDoor<HeldLink>, Echo>;

/// Two posts, of which the first waits for a put of the second.
fn two_posts(alloc: Global) -> Result<Vec<Post>, Memory> {
    let flag = Flag::new(alloc)?;
    let waiting = waiting_door(alloc, flag.share()?)?;
    let ready = ready_door(alloc, flag)?;
    let mut posts = Vec::new(alloc);
    posts.push(PostOf {
        door: waiting,
        seat: Echo,
    })?;
    posts.push(PostOf {
        door: ready,
        seat: Echo,
    })?;
    Ok(posts)
}

/// What was put to the links of these posts, each of which has ended in good order.
fn put_to_all(alloc: Global, posts: &[Post]) -> Result<Text, Memory> {
    let mut put = Text::new(alloc);
    for post in posts {
        for (link, end) in post.door.handed_back() {
            if end.how == EndKind::Closed {
                put.push_slice(link.bytes())?;
            }
        }
    }
    Ok(put)
}

#[test]
fn a_worker_that_waits_holds_up_no_other(rt: HostRuntime) -> Result<(), Fail> {
    let mut posts = two_posts(rt.alloc())?;
    let end = serve_posts(&rt, &rt.alloc(), posts.as_mut_slice());
    assert_eq!(rt; end, ServeEnd::Closed);
    let put = put_to_all(rt.alloc(), posts.as_slice())?;
    assert_eq!(rt; put.as_slice(), b"latesoon".as_slice());
    Ok(())
}
