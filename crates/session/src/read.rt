//! What is read from a version.

ghost use Rattle.std.specs.Prelude.{◌≡◌, ◌⊎◌, ◌<◌, ◌≤ℤ◌, ◌↔◌, ◌++◌, ◌∷◌, ℕ, [], List, All, Some, Err, IfSome, IfOk, OnOk, decimal, codes, length};
ghost use Rattle.std.specs.List.{Contains};
ghost use Rattle.std.specs.Arc.{arc_value};
ghost use Rattle.tgap_model.specs.Base.{BaseMap, count_points};
ghost use Rattle.line_forms.specs.Texts.{line};
ghost use Rattle.tgap_model.specs.Slice.{slice, window_of};
ghost use Rattle.tgap_model.specs.Merged.{merged};
ghost use Rattle.tgap_model.specs.Records.{packet_of};
ghost use Rattle.wire_text.specs.SliceTexts.{slice_text, window_text, packet_text};
ghost use Rattle.plain_io.specs.Fields.{fields};
ghost use Rattle.http_face.specs.Replies.{IsReply, reply_text};
ghost use Rattle.session.specs.declared.answer.Answer.{Answer};
ghost use Rattle.session.specs.Outcomes.{sent};
ghost use Rattle.session.specs.Keeping.{AreKept};
ghost use Rattle.session.specs.Versions.{IsPin};
ghost use Rattle.session.specs.Answers.{IsAnswer, plain, info_words, not_coarser_words, route_answer, packet_answer, window_answer, at_step};
ghost use Rattle.session.specs.Turns.{Reads};

use crate::answer::{Answer, bad_number, line, plain, reply_of};
use crate::kept_texts::{KEPT_BYTES, KeptTexts, ReplyKey};
use crate::sending::Sending;
use crate::topology::topology_answer;
use crate::window_packet::window_packet_answer;
use built_text::{packet_text_at, slice_text_at};
use http_face::{Reply, Route, is_ordered, reply_bytes};
use map_version::Version;
use plain_io::{put_count, put_field, put_size};
use refine_packets::PacketFail;
use slice_read::{ReadFail, window_at};
use std::alloc::Global;
use tgap_build::Built;
use tgap_model::{Memory, Text, Window};
use version_store::Pin;
use wire_text::{step_too_high_text, window_text};

/// Appends how many faces, arcs and points the base map of a version has.
fn put_counts(alloc: Global, out: &mut Text, built: &Built) -> Result<(), Memory>
    ensures { OnOk result (out.new ≡ out.old ++ fields (codes "faces" ∷ decimal (length built.now.classes)
        ∷ codes "arcs" ∷ decimal (length built.now.arcs) ∷ codes "points" ∷ decimal (count_points built.now.arcs) ∷ [])) }
{
    let base = built.base();
    out.push_slice(b" faces")?;
    put_size(alloc, out, base.classes().len())?;
    out.push_slice(b" arcs")?;
    put_size(alloc, out, base.arcs().len())?;
    out.push_slice(b" points")?;
    put_size(alloc, out, built.points())
}

/// The line of the numbers of a version.
fn info_line(alloc: Global, number: u64, built: &Built) -> Result<Text, Memory>
    ensures { IfOk result (λ text. text ≡ line (info_words number built.now)) }
{
    let mut text = Text::from_slice(alloc, b"version")?;
    put_field(alloc, &mut text, i128::from(number))?;
    text.push_slice(b" steps")?;
    put_count(alloc, &mut text, built.steps())?;
    put_counts(alloc, &mut text, built)?;
    text.push_slice(b"\n")?;
    Ok(text)
}

/// The line of two steps of which the first is below the second.
pub(crate) fn not_coarser_line(alloc: Global, from: u32, to: u32) -> Result<Text, Memory>
    ensures { IfOk result (λ text. text ≡ line (not_coarser_words from to)) }
{
    let mut text = Text::from_slice(alloc, b"not coarser")?;
    put_count(alloc, &mut text, from)?;
    put_count(alloc, &mut text, to)?;
    text.push_slice(b"\n")?;
    Ok(text)
}

/// The answer for a slice.
fn slice_answer(alloc: Global, built: &Built, step: u32) -> Result<Answer, Memory>
    ensures exact { IfOk result (λ a. a ≡ at_step built.now step (slice_text (slice built.now step))) }
    ensures sendable { IfOk result IsAnswer }
{
    match slice_text_at(alloc, built, step) {
        Ok(text) => Ok(plain(200, text)),
        Err(ReadFail::StepTooHigh { steps }) => {
            Ok(plain(400, step_too_high_text(alloc, steps)?))
        }
        Err(ReadFail::Memory) => Err(Memory),
    }
}

/// The answer for a window of a slice.
fn ordered_window_answer(
    alloc: Global,
    built: &Built,
    step: u32,
    area: Window,
) -> Result<Answer, Memory>
    requires across { area.x0 ≤ℤ area.x1 }
    requires up { area.y0 ≤ℤ area.y1 }
    ensures exact { IfOk result (λ a. a ≡ at_step built.now step (window_text area (window_of area (slice built.now step)))) }
    ensures sendable { IfOk result IsAnswer }
{
    match window_at(alloc, built, step, area) {
        Ok(slice) => Ok(plain(200, window_text(alloc, &slice, area)?)),
        Err(ReadFail::StepTooHigh { steps }) => {
            Ok(plain(400, step_too_high_text(alloc, steps)?))
        }
        Err(ReadFail::Memory) => Err(Memory),
    }
}

/// The answer for a window of a slice, where its ends are in order.
fn window_answer(alloc: Global, built: &Built, step: u32, area: Window) -> Result<Answer, Memory>
    ensures exact { IfOk result (λ a. a ≡ window_answer built.now step area) }
    ensures sendable { IfOk result IsAnswer }
{
    if is_ordered(area) {
        ordered_window_answer(alloc, built, step, area)
    } else {
        bad_number(alloc)
    }
}

/// The answer for a packet.
fn packet_answer(alloc: Global, built: &Built, from: u32, to: u32) -> Result<Answer, Memory>
    ensures exact { IfOk result (λ a. a ≡ packet_answer built.now from to) }
    ensures sendable { IfOk result IsAnswer }
{
    match packet_text_at(alloc, built, from, to) {
        Ok(text) => Ok(plain(200, text)),
        Err(PacketFail::NotCoarser) => Ok(plain(400, not_coarser_line(alloc, from, to)?)),
        Err(PacketFail::StepTooHigh { steps }) => {
            Ok(plain(400, step_too_high_text(alloc, steps)?))
        }
        Err(PacketFail::Memory) => Err(Memory),
    }
}

/// The answer to what only reads the version of this number.
pub(crate) fn route_answer(
    alloc: Global,
    number: u64,
    built: &Built,
    asked: Route,
) -> Result<Answer, Memory>
    requires { Reads asked }
    ensures exact { IfOk result (λ a. route_answer number built.now asked ≡ Some a) }
    ensures sendable { IfOk result IsAnswer }
{
    match asked {
        Route::Info => Ok(plain(200, info_line(alloc, number, built)?)),
        Route::Slice(step) => slice_answer(alloc, built, step),
        Route::Packet(from, to) => packet_answer(alloc, built, from, to),
        Route::Window(step, area) => window_answer(alloc, built, step, area),
        Route::Topo(step) => topology_answer(alloc, built, step),
        Route::WindowPacket(from, to, area) => window_packet_answer(alloc, built, from, to, area),
        Route::BadNumber => bad_number(alloc),
        Route::WrongMethod(allow) => Ok(Answer {
            status: 405,
            allow: Some(allow),
            body: line(alloc, b"wrong method")?,
        }),
        Route::NoRoute => Ok(plain(404, line(alloc, b"no route")?)),
        Route::Pin | Route::PinSeen(_) | Route::Edit => unreachable!(),
    }
}

/// Whether the replies to this are kept for who asks again: the numbers of the version, slices, packets and topologies.
fn is_kept(asked: Route) -> bool {
    match asked {
        Route::Info | Route::Slice(_) | Route::Packet(_, _) | Route::Topo(_) => true,
        Route::Window(_, _) | Route::WindowPacket(_, _, _) => false,
        Route::BadNumber | Route::WrongMethod(_) | Route::NoRoute => false,
        Route::Pin | Route::PinSeen(_) | Route::Edit => false,
    }
}

/// The reply that is kept for this, if one is.
fn find_reply(kept: &mut KeptTexts, key: ReplyKey) -> Option<Sending>
    ensures found { IfSome result (λ reply. Contains kept.old (record { key = key; text = reply })) }
    ensures texts { All (Contains kept.old) kept.new }
{
    if !is_kept(key.asked) {
        return None;
    }
    Some(Sending::kept(kept.find(key)?))
}

/// The bytes of the reply to this, which are kept where it is of status 200 and one of those that are. For that they
/// are laid out in one text; where memory is wanting for it, or the body is too long, they are put as they are.
fn keep_reply(
    alloc: Global,
    kept: &mut KeptTexts,
    key: ReplyKey,
    reply: Reply,
) -> Result<Sending, Memory>
    requires { IsReply reply }
    ensures reply { IfOk result (λ sending. sending ≡ reply_text reply) }
    ensures texts { All (λ text. Contains kept.old text ⊎ (text ≡ record { key = key; text = reply_text reply })) kept.new }
{
    if is_kept(key.asked) && reply.status == 200 && reply.body.len() <= KEPT_BYTES {
        if let Ok(text) = reply_bytes(alloc, &reply) {
            return Ok(kept.keep(alloc, key, text));
        }
    }
    Sending::of(alloc, reply)
}

/// The reply to what only reads the version that is pinned. One that is kept is not made again, and one that is made
/// may be kept.
pub(crate) fn pinned_reply(
    alloc: Global,
    pin: &Pin<Version>,
    kept: &mut KeptTexts,
    asked: Route,
    close: bool,
) -> Result<Sending, Memory>
    requires { Reads asked }
    ensures exact { IfOk result (λ reply. (history : List BaseMap) → IsPin history pin.now → AreKept history kept.old
        → (answer : Answer) × (route_answer pin.now.number (arc_value pin.now.held).built asked ≡ Some answer)
        × (reply ≡ sent pin.now.number close answer)) }
    ensures texts { (history : List BaseMap) → IsPin history pin.now → AreKept history kept.old → AreKept history kept.new }
{
    let key = ReplyKey {
        number: pin.number,
        asked,
        close,
    };
    if let Some(reply) = find_reply(kept, key) {
        return Ok(reply);
    }
    let answer = route_answer(alloc, pin.number, &pin.held.built, asked)?;
    keep_reply(alloc, kept, key, reply_of(answer, pin.number, close))
}
