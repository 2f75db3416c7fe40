//! A batch of edits.

ghost use Rattle.std.specs.Prelude.{◌≡◌, ◌<◌, ◌+◌, [], ◌∷◌, IfOk, OnErr, Ok, None, codes};
ghost use Rattle.std.specs.Arc.{arc_value};
ghost use Rattle.line_forms.specs.Texts.{line};
ghost use Rattle.edit_laws.specs.Edits.{edited};
ghost use Rattle.tgap_model.specs.Partition.{map_fault};
ghost use Rattle.http_face.specs.declared.request.Route.TheVariants.{Edit as EditRoute};
ghost use Rattle.session.specs.Answers.{IsAnswer, plain, said, numbered, edit_fault_words};
ghost use Rattle.session.specs.Outcomes.{sent};
ghost use Rattle.session.specs.Items.{Route as RouteAsked};
ghost use Rattle.session.specs.Versions.{Continues, IsPin};
ghost use Rattle.session.specs.Turns.{IsTurned, CountsTurn, CountsTold, IsCommitRefused, IsNeverLost, AreReplies};
ghost use Rattle.version_store.specs.Keepers.{ComesOfList};
ghost use Rattle.version_store.specs.declared.press.fail.PublishFail.TheVariants.{Stale as StaleFail, VersionsFull as FullFail};
ghost use Rattle.session.specs.declared.row.Row.TheVariants.{Refused as RowRefused};
ghost use Rattle.line_forms.specs.Texts.{fault_text};

use crate::answer::{line, numbered_line, plain, sent};
use crate::row::Row;
use crate::sending::Sending;
use crate::turn::Turned;
use crate::versions::Versions;
use map_version::{EditFault, RebuildFail, Version, revised, successor};
use plain_io::{put_count, put_field};
use std::alloc::Global;
use std::sync::{Arc, Wait};
use std::thread::Threads;
use tgap_model::{Checked, MAX_TEXT_BYTES, MapFault, Memory, Text};
use version_store::{Pin, PublishFail};
use wire_text::fault_text;

/// The line of a batch at fault.
fn edit_fault_line(alloc: Global, fault: &EditFault) -> Result<Text, Memory>
    ensures { IfOk result (λ text. text ≡ line (edit_fault_words (fault.now.line, fault.now.cause))) }
{
    let mut text = Text::from_slice(alloc, b"edit line")?;
    put_count(alloc, &mut text, fault.line)?;
    text.push_slice(b" cause")?;
    put_field(alloc, &mut text, i128::from(fault.cause))?;
    text.push_slice(b"\n")?;
    Ok(text)
}

/// A reply that refuses an edit; the version that is pinned stays.
fn refused(
    alloc: Global,
    pin: &Pin<Version>,
    number: u64,
    row: Row,
    status: u16,
    body: Text,
    close: bool,
) -> Result<Turned, Memory>
    requires { IsAnswer (plain status body) }
    ensures { IfOk result (λ t. t ≡ record { number = number; row = row; reply = sent pin.now.number close (plain status body) }) }
{
    Ok(Turned {
        number,
        row,
        reply: sent(alloc, plain(status, body), pin.number, close)?,
    })
}

/// The reply to an edit of a version that is no longer the newest; the version that is pinned stays.
fn refuse_stale(
    alloc: Global,
    pin: &Pin<Version>,
    newest: u64,
    close: bool,
) -> Result<Turned, Memory>
    ensures { IfOk result (IsCommitRefused pin.now.number close (StaleFail newest)) }
{
    let body = numbered_line(alloc, b"stale", newest)?;
    refused(alloc, pin, newest, Row::Stale, 409, body, close)
}

/// The reply to an edit for which there is no room among the versions; the version that is pinned stays.
fn refuse_full(alloc: Global, pin: &Pin<Version>, limit: u64, close: bool) -> Result<Turned, Memory>
    ensures { IfOk result (IsCommitRefused pin.now.number close (FullFail limit)) }
{
    let body = numbered_line(alloc, b"versions full", limit)?;
    refused(alloc, pin, limit, Row::Full, 507, body, close)
}

/// The reply to an edit that the list of versions refuses.
fn refuse_commit(
    alloc: Global,
    pin: &Pin<Version>,
    fail: PublishFail,
    close: bool,
) -> Result<Turned, Memory>
    requires { ComesOfList fail }
    ensures { IfOk result (IsCommitRefused pin.now.number close fail) }
{
    match fail {
        PublishFail::Stale { newest } => refuse_stale(alloc, pin, newest, close),
        PublishFail::VersionsFull { limit } => refuse_full(alloc, pin, limit, close),
        PublishFail::Unkept | PublishFail::KeeperFull { .. } | PublishFail::Memory => {
            unreachable!()
        }
    }
}

/// The reply where the batch is at fault.
fn refuse_batch(
    alloc: Global,
    pin: &Pin<Version>,
    fault: &EditFault,
    close: bool,
) -> Result<Turned, Memory>
    ensures { IfOk result (λ t. t ≡ record {
      number = pin.now.number;
      row = RowRefused;
      reply = sent pin.now.number close (plain 422 (line (edit_fault_words (fault.now.line, fault.now.cause))));
    }) }
{
    let body = edit_fault_line(alloc, fault)?;
    refused(alloc, pin, pin.number, Row::Refused, 422, body, close)
}

/// The reply where the edited map is at fault.
fn refuse_map(
    alloc: Global,
    pin: &Pin<Version>,
    fault: &MapFault,
    close: bool,
) -> Result<Turned, Memory>
    ensures { IfOk result (λ t. t ≡ record {
      number = pin.now.number;
      row = RowRefused;
      reply = sent pin.now.number close (plain 422 (fault_text fault.now));
    }) }
{
    let body = fault_text(alloc, fault)?;
    refused(alloc, pin, pin.number, Row::Refused, 422, body, close)
}

/// The replies to an edit that is good, by what may become of it once the press is asked to publish it.
#[derive(Drop)]
pub(crate) struct Replies {
    pub published: Sending,
    pub unkept: Sending,
    pub keeper_full: Sending,
}

/// The reply to an edit that was published as the version of this number, which is pinned then.
fn published_reply(alloc: Global, number: u64, close: bool) -> Result<Sending, Memory>
    ensures { IfOk result (λ reply. reply ≡ sent number close (said 200 (numbered (codes "published") number))) }
{
    let body = numbered_line(alloc, b"published", number)?;
    sent(alloc, plain(200, body), number, close)
}

/// The reply to an edit whose batch the keeper failed to keep.
fn unkept_reply(alloc: Global, pin: u64, close: bool) -> Result<Sending, Memory>
    ensures { IfOk result (λ reply. reply ≡ sent pin close (said 500 (codes "journal fault" ∷ []))) }
{
    let body = line(alloc, b"journal fault")?;
    sent(alloc, plain(500, body), pin, close)
}

/// The reply to an edit for whose batch the keeper has no room.
fn keeper_full_reply(alloc: Global, pin: u64, close: bool) -> Result<Sending, Memory>
    ensures { IfOk result (λ reply. reply ≡ sent pin close (said 507 (numbered (codes "journal full") 67108864))) }
{
    let body = numbered_line(alloc, b"journal full", MAX_TEXT_BYTES)?;
    sent(alloc, plain(507, body), pin, close)
}

/// The replies to a good edit of the version of this number.
fn replies_to(alloc: Global, named: u64, close: bool) -> Result<Replies, Memory>
    requires { named < 64 }
    ensures { IfOk result (AreReplies named close) }
{
    Ok(Replies {
        published: published_reply(alloc, named + 1, close)?,
        unkept: unkept_reply(alloc, named, close)?,
        keeper_full: keeper_full_reply(alloc, named, close)?,
    })
}

/// What becomes of an edit that the press did not publish. What the keeper refused is told by a reply that was made before, so that no want
/// of memory hides it.
fn refuse_publish(
    alloc: Global,
    pin: &Pin<Version>,
    fail: PublishFail,
    replies: Replies,
    close: bool,
) -> Result<Turned, Memory>
    requires { AreReplies pin.now.number close replies }
    ensures refused { IfOk result (IsCommitRefused pin.now.number close fail) }
    ensures never_lost { IsNeverLost fail result }
{
    let Replies {
        published: _,
        unkept,
        keeper_full,
    } = replies;
    match fail {
        PublishFail::Stale { newest } => refuse_stale(alloc, pin, newest, close),
        PublishFail::VersionsFull { limit } => refuse_full(alloc, pin, limit, close),
        PublishFail::Unkept => Ok(Turned {
            number: pin.number,
            row: Row::Unkept,
            reply: unkept,
        }),
        PublishFail::KeeperFull { .. } => Ok(Turned {
            number: pin.number,
            row: Row::KeeperFull,
            reply: keeper_full,
        }),
        PublishFail::Memory => Err(Memory),
    }
}

/// Publishes a version that was made of the one that is pinned, and pins it. The replies that tell that it was published, or that the keeper
/// refused it, are made before that, so that nothing is wanted for them afterwards.
fn commit<R: Wait, P, V: Versions<P>>(
    rt: &R,
    alloc: Global,
    versions: &mut V,
    press: &P,
    pin: &mut Pin<Version>,
    next: Version,
    close: bool,
) -> Result<Turned, Memory>
    requires pin { IsPin (V.seen versions.old).history pin.old }
    requires number { next.number ≡ pin.old.number + 1 }
    requires sound { map_fault next.built ≡ None }
    ensures turned { IfOk result (λ t. edited (arc_value pin.old.held).built next.batch ≡ Ok next.built
        → IsTurned (V.seen versions.old) (V.seen versions.new) pin.old.number pin.new.number (RouteAsked EditRoute next.batch) close t) }
    ensures pin { IsPin (V.seen versions.new).history pin.new }
    ensures kept { OnErr result (pin.new ≡ pin.old) }
    ensures continues { Continues (V.seen versions.old) (V.seen versions.new) }
    ensures counts { CountsTurn (V.seen versions.old) (V.seen versions.new) result }
    ensures told { CountsTold (V.seen versions.old) (V.seen versions.new) result }
{
    let named = pin.number;
    let next = Arc::new(alloc, next)?;
    let held = Arc::try_clone(&next)?;
    let number = named + 1;
    let replies = replies_to(alloc, named, close)?;
    match versions.publish(rt, alloc, press, named, next) {
        Ok(_) => {
            *pin = Pin { number, held };
            Ok(Turned {
                number,
                row: Row::Published,
                reply: replies.published,
            })
        }
        Err(fail) => refuse_publish(alloc, pin, fail, replies, close),
    }
}

/// What a batch made, checked, and whether the connection ends after the reply to it.
#[derive(Drop)]
struct Revision {
    map: Checked,
    close: bool,
}

/// Builds the version of a checked map that a batch made of the one that is pinned, and publishes it.
fn publish_built<R: Threads + Wait + Sync, P, V: Versions<P>>(
    rt: &R,
    alloc: Global,
    versions: &mut V,
    press: &P,
    pin: &mut Pin<Version>,
    revision: Revision,
    batch: &[u8],
) -> Result<Turned, Memory>
    requires pin { IsPin (V.seen versions.old).history pin.old }
    requires sound { map_fault revision.map ≡ None }
    ensures turned { IfOk result (λ t. edited (arc_value pin.old.held).built batch.now ≡ Ok revision.map
        → IsTurned (V.seen versions.old) (V.seen versions.new) pin.old.number pin.new.number (RouteAsked EditRoute batch.now) revision.close t) }
    ensures pin { IsPin (V.seen versions.new).history pin.new }
    ensures kept { OnErr result (pin.new ≡ pin.old) }
    ensures continues { Continues (V.seen versions.old) (V.seen versions.new) }
    ensures counts { CountsTurn (V.seen versions.old) (V.seen versions.new) result }
    ensures told { CountsTold (V.seen versions.old) (V.seen versions.new) result }
{
    let Revision { map, close } = revision;
    let next = successor(rt, alloc, &pin.held, map, batch)?;
    commit(rt, alloc, versions, press, pin, next, close)
}

/// Publishes what is built of a checked map that a batch made of the version that is pinned. The press is asked before, so that
/// nothing is built for a version that is stale by then or for which there is no room.
fn advance<R: Threads + Wait + Sync, P, V: Versions<P>>(
    rt: &R,
    alloc: Global,
    versions: &mut V,
    press: &P,
    pin: &mut Pin<Version>,
    revision: Revision,
    batch: &[u8],
) -> Result<Turned, Memory>
    requires pin { IsPin (V.seen versions.old).history pin.old }
    requires sound { map_fault revision.map ≡ None }
    ensures turned { IfOk result (λ t. edited (arc_value pin.old.held).built batch.now ≡ Ok revision.map
        → IsTurned (V.seen versions.old) (V.seen versions.new) pin.old.number pin.new.number (RouteAsked EditRoute batch.now) revision.close t) }
    ensures pin { IsPin (V.seen versions.new).history pin.new }
    ensures kept { OnErr result (pin.new ≡ pin.old) }
    ensures continues { Continues (V.seen versions.old) (V.seen versions.new) }
    ensures counts { CountsTurn (V.seen versions.old) (V.seen versions.new) result }
    ensures told { CountsTold (V.seen versions.old) (V.seen versions.new) result }
{
    match versions.ready(rt, press, pin.number) {
        Ok(()) => publish_built(rt, alloc, versions, press, pin, revision, batch),
        Err(fail) => refuse_commit(alloc, pin, fail, revision.close),
    }
}

/// Edits the version that is pinned by a batch, and publishes what comes of it. It is edited and checked before the press is asked
/// whether there is room for it, and built after that.
pub(crate) fn edit<R: Threads + Wait + Sync, P, V: Versions<P>>(
    rt: &R,
    alloc: Global,
    versions: &mut V,
    press: &P,
    pin: &mut Pin<Version>,
    batch: &[u8],
    close: bool,
) -> Result<Turned, Memory>
    requires pin { IsPin (V.seen versions.old).history pin.old }
    ensures turned { IfOk result
        (IsTurned (V.seen versions.old) (V.seen versions.new) pin.old.number pin.new.number (RouteAsked EditRoute batch.now) close) }
    ensures pin { IsPin (V.seen versions.new).history pin.new }
    ensures kept { OnErr result (pin.new ≡ pin.old) }
    ensures continues { Continues (V.seen versions.old) (V.seen versions.new) }
    ensures counts { CountsTurn (V.seen versions.old) (V.seen versions.new) result }
    ensures told { CountsTold (V.seen versions.old) (V.seen versions.new) result }
{
    match revised(rt, alloc, &pin.held, batch) {
        Ok(map) => {
            let revision = Revision { map, close };
            advance(rt, alloc, versions, press, pin, revision, batch)
        }
        Err(RebuildFail::Edit(fault)) => refuse_batch(alloc, pin, &fault, close),
        Err(RebuildFail::Map(fault)) => refuse_map(alloc, pin, &fault, close),
        Err(RebuildFail::Memory) => Err(Memory),
    }
}
