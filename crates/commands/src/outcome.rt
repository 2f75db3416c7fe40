//! What comes of a command: its status, and the text that goes with it.

ghost use Rattle.std.specs.Prelude.{◌≡◌, ◌⊎◌, [], ◌∷◌, ◌++◌, decimal, IfOk, OnErr};
ghost use Rattle.commands.specs.declared.outcome.Outcome.TheVariants as outcome;
ghost use Rattle.commands.specs.declared.outcome.Misfit.TheVariants as misfit;
ghost use Rattle.commands.specs.Outcomes.{TakesMemory, status_of, text_of, load_fault_text, not_coarser_text, misfit_text, journal_entry_text, journal_long_text, bytes_of};
ghost use Rattle.commands.specs.Delivery.{Delivers, DeliversText};

use client_replay::Unfit;
use plain_io::{HarbourFail, Sink, Which, put_count, put_field};
use slice_read::ReadFail;
use std::alloc::Global;
use tgap_model::{MapFault, Memory, Or, Text};
use wire_text::{fault_text, step_too_high_text};

const USAGE: &[u8] =
    b"usage: borders MAP STEP | check MAP [OBJECT RULES] | slice MAP STEP [OBJECT RULES] | packet MAP FROM TO [OBJECT RULES] | replay SLICE PACKET | grid N | serve MAP PORT WORKERS VERSIONS [OBJECT RULES] | keep MAP JOURNAL PORT WORKERS VERSIONS [OBJECT RULES]\n";

/// The status where the text could not be put.
pub const SINK_FAULT: u8 = 6;

/// Why a record is not replayed: a text is none, by its first bad line, or a record breaks a rule.
#[derive(Clone, Copy, Debug, PartialEq, Eq)]
pub enum Misfit {
    SliceLine { line: u32 },
    PacketLine { line: u32 },
    Rule { step: u32, rule: u8 },
}

/// What comes of a command, one variant for each row of the table of statuses in docs/formats.md.
#[derive(Debug, Drop)]
pub enum Outcome {
    /// The command was done; the text is what was asked for.
    Done(Text),
    /// The words are no command.
    Usage,
    /// A file of this kind could not be loaded.
    LoadFault(Which),
    /// The map is refused for this fault.
    Refused(MapFault),
    /// The step is above the last one, which is this.
    StepTooHigh { steps: u32 },
    /// The step to go to is above the step to go from.
    NotCoarser { from: u32, to: u32 },
    /// An allocation was refused.
    OutOfMemory,
    /// The port could not be opened, or a door failed.
    PortFault,
    /// A text of a replay is none, or a record does not fit.
    Unfit(Misfit),
    /// The journal could not be opened, read or written.
    JournalFault,
    /// The entry at this place of the journal, counted from 0, does not follow those before it, or its batch makes no map.
    BadEntry { place: u64 },
    /// The journal comes to this many batches, which are more than there may be versions for.
    LongJournal { batches: u64 },
}

impl From<Memory> for Outcome {
    ghost use Rattle.std.specs.Prelude.{◌≡◌};
    ghost use Rattle.commands.specs.declared.outcome.Outcome.TheVariants.{OutOfMemory};

    ghost from_gives = { λ _ o. o ≡ OutOfMemory };

    fn from(_refused: Memory) -> Outcome {
        Outcome::OutOfMemory
    }
}

impl From<Or<MapFault>> for Outcome {
    ghost use Rattle.std.specs.Prelude.{◌≡◌};
    ghost use Rattle.commands.specs.Outcomes.{refusal};

    ghost from_gives = { λ e o. o ≡ refusal e };

    fn from(refused: Or<MapFault>) -> Outcome {
        match refused {
            Or::Fault(fault) => Outcome::Refused(fault),
            Or::Memory => Outcome::OutOfMemory,
        }
    }
}

impl From<ReadFail> for Outcome {
    ghost use Rattle.std.specs.Prelude.{◌≡◌};
    ghost use Rattle.commands.specs.Outcomes.{read_refusal};

    ghost from_gives = { λ e o. o ≡ read_refusal e };

    fn from(refused: ReadFail) -> Outcome {
        match refused {
            ReadFail::StepTooHigh { steps } => Outcome::StepTooHigh { steps },
            ReadFail::Memory => Outcome::OutOfMemory,
        }
    }
}

impl From<Or<Unfit>> for Outcome {
    ghost use Rattle.std.specs.Prelude.{◌≡◌};
    ghost use Rattle.commands.specs.Outcomes.{replay_refusal};

    ghost from_gives = { λ e o. o ≡ replay_refusal e };

    fn from(refused: Or<Unfit>) -> Outcome {
        match refused {
            Or::Fault(Unfit { step, rule }) => Outcome::Unfit(Misfit::Rule { step, rule }),
            Or::Memory => Outcome::OutOfMemory,
        }
    }
}

impl From<HarbourFail> for Outcome {
    ghost use Rattle.std.specs.Prelude.{◌≡◌};
    ghost use Rattle.commands.specs.Outcomes.{harbour_refusal};

    ghost from_gives = { λ e o. o ≡ harbour_refusal e };

    fn from(refused: HarbourFail) -> Outcome {
        match refused {
            HarbourFail::Failed => Outcome::PortFault,
            HarbourFail::Memory => Outcome::OutOfMemory,
        }
    }
}

/// A text that is always there, or one that was made.
#[derive(Drop)]
enum Line {
    Fixed(&'static [u8]),
    Made(Text),
}

impl Line {
    /// Its bytes.
    fn as_slice(&self) -> &[u8]
        ensures { result.now ≡ bytes_of self.now }
    {
        match self {
            Line::Fixed(bytes) => bytes,
            Line::Made(text) => text.as_slice(),
        }
    }
}

impl Outcome {
    /// The exit status.
    fn status(&self) -> u8
        ensures { result ≡ status_of self.now }
    {
        match self {
            Outcome::Done(_) => 0,
            Outcome::Usage => 2,
            Outcome::LoadFault(_) | Outcome::JournalFault => 3,
            Outcome::Refused(_) | Outcome::BadEntry { .. } | Outcome::LongJournal { .. } => 4,
            Outcome::StepTooHigh { .. } | Outcome::NotCoarser { .. } => 5,
            Outcome::OutOfMemory => 7,
            Outcome::PortFault => 8,
            Outcome::Unfit(_) => 9,
        }
    }

    /// The text that goes with the status. It takes memory where it is not always the same.
    fn into_text(self, alloc: Global) -> Result<Line, Memory>
        ensures text { IfOk result (λ text. bytes_of text ≡ text_of self) }
        ensures memory { OnErr result (TakesMemory self) }
    {
        Ok(match self {
            Outcome::Done(text) => Line::Made(text),
            Outcome::Usage => Line::Fixed(USAGE),
            Outcome::LoadFault(which) => Line::Fixed(load_fault_text(which)),
            Outcome::Refused(fault) => Line::Made(fault_text(alloc, &fault)?),
            Outcome::StepTooHigh { steps } => Line::Made(step_too_high_text(alloc, steps)?),
            Outcome::NotCoarser { from, to } => Line::Made(not_coarser_text(alloc, from, to)?),
            Outcome::OutOfMemory => Line::Fixed(b"memory\n"),
            Outcome::PortFault => Line::Fixed(b"port fault\n"),
            Outcome::Unfit(misfit) => Line::Made(misfit_text(alloc, misfit)?),
            Outcome::JournalFault => Line::Fixed(b"load fault journal\n"),
            Outcome::BadEntry { place } => Line::Made(journal_entry_text(alloc, place)?),
            Outcome::LongJournal { batches } => Line::Made(journal_long_text(alloc, batches)?),
        })
    }

    /// Puts the text, at once, and gives the status: that of the outcome, or that of a put that failed. Where memory is
    /// wanting for the text, the outcome is that memory is wanting.
    pub fn put<K: Sink>(self, alloc: Global, out: &mut K) -> u8
        ensures { Delivers self (K.told out.old) (K.told out.new) (K.faults out.old) (K.faults out.new) result
            ⊎ (TakesMemory self
            × Delivers outcome.OutOfMemory (K.told out.old) (K.told out.new) (K.faults out.old) (K.faults out.new) result) }
    {
        let status = self.status();
        match self.into_text(alloc) {
            Ok(text) => deliver(text.as_slice(), status, out),
            Err(Memory) => deliver(b"memory\n", Outcome::OutOfMemory.status(), out),
        }
    }
}

/// Puts a text, and gives this status, or that of a put that failed.
fn deliver<K: Sink>(text: &[u8], status: u8, out: &mut K) -> u8
    ensures { DeliversText text.now status (K.told out.old) (K.told out.new) (K.faults out.old) (K.faults out.new) result }
{
    match out.put(text) {
        Ok(()) => status,
        Err(_) => SINK_FAULT,
    }
}

/// The line that tells that a file of this kind could not be loaded.
fn load_fault_text(which: Which) -> &'static [u8]
    ensures { result.now ≡ load_fault_text which }
{
    match which {
        Which::Map => b"load fault map\n",
        Which::Rules => b"load fault rules\n",
        Which::Slice => b"load fault slice\n",
        Which::Packet => b"load fault packet\n",
    }
}

/// The line that tells why a record is not replayed.
fn misfit_text(alloc: Global, misfit: Misfit) -> Result<Text, Memory>
    ensures { IfOk result (λ text. text ≡ misfit_text misfit) }
{
    match misfit {
        Misfit::SliceLine { line } => numbered_text(alloc, b"unfit slice line", line.into()),
        Misfit::PacketLine { line } => numbered_text(alloc, b"unfit packet line", line.into()),
        Misfit::Rule { step, rule } => broken_rule_text(alloc, step, rule),
    }
}

/// A line of these words and a number.
fn numbered_text(alloc: Global, words: &[u8], number: u64) -> Result<Text, Memory>
    ensures { IfOk result (λ text. text ≡ words.now ++ 32 ∷ decimal number ++ 10 ∷ []) }
{
    let mut text = Text::from_slice(alloc, words)?;
    put_field(alloc, &mut text, number.into())?;
    text.push_slice(b"\n")?;
    Ok(text)
}

/// The line that tells which rule the record of a step breaks.
fn broken_rule_text(alloc: Global, step: u32, rule: u8) -> Result<Text, Memory>
    ensures { IfOk result (λ text. text ≡ misfit_text (misfit.Rule step rule)) }
{
    let mut text = Text::from_slice(alloc, b"unfit step")?;
    put_count(alloc, &mut text, step)?;
    text.push_slice(b" rule")?;
    put_count(alloc, &mut text, rule.into())?;
    text.push_slice(b"\n")?;
    Ok(text)
}

/// The line that tells that one step is not above another.
fn not_coarser_text(alloc: Global, from: u32, to: u32) -> Result<Text, Memory>
    ensures { IfOk result (λ text. text ≡ not_coarser_text from to) }
{
    let mut text = Text::from_slice(alloc, b"not coarser")?;
    put_count(alloc, &mut text, from)?;
    put_count(alloc, &mut text, to)?;
    text.push_slice(b"\n")?;
    Ok(text)
}

/// The line that tells that the entry at this place of a journal cannot be taken.
fn journal_entry_text(alloc: Global, place: u64) -> Result<Text, Memory>
    ensures { IfOk result (λ text. text ≡ journal_entry_text place) }
{
    numbered_text(alloc, b"refused 22 journal-entry", place)
}

/// The line that tells that a journal comes to this many batches, and these are too many.
fn journal_long_text(alloc: Global, batches: u64) -> Result<Text, Memory>
    ensures { IfOk result (λ text. text ≡ journal_long_text batches) }
{
    numbered_text(alloc, b"refused 23 journal-long", batches)
}
