//! The top call.

ghost use Rattle.std.specs.Prelude.{◌≡◌, ◌≢◌, ◌⊎◌, ◌++◌, ◌∷◌, [], true, ℕ, List, length, All, map, string_bytes, Some, None, IfSome};
ghost use Rattle.tgap_model.specs.Base.{BaseMap};
ghost use Rattle.tgap_model.specs.Faults.{Rises, Rose};
ghost use Rattle.plain_io.specs.Puts.{Appends};
ghost use Rattle.plain_io.specs.declared.files.Which.{Which as Kind};
ghost use Rattle.commands.specs.declared.outcome.Outcome.{Outcome as AnOutcome};
ghost use Rattle.commands.specs.declared.outcome.Outcome.TheVariants as outcome;
ghost use Rattle.commands.specs.Outcomes.{text_of, load_fault_text, not_coarser};
ghost use Rattle.commands.specs.Delivery.{Delivers, PutsWhole};
ghost use Rattle.commands.specs.Command as spec;
ghost use Rattle.commands.specs.MapFile.{Contents, FileName, files_of_map};
ghost use Rattle.commands.specs.Commands.{command, files_of, outcome_of};
ghost use Rattle.commands.specs.Answers.{Answers, Failed, IsReached, LeavesKind, MayHold, MissesOne, PutsAnswer, files_for};
ghost use Rattle.serving.specs.Serving.{ServeCommand, CameBack, HasNoDoors, IsLoaded, IsSoundMap, PutsFront, PutsOne, serve_words, serving_text};
ghost use Rattle.serving.specs.Journals.{IsServed, RefusesServing};

use commands::execute;
use edit_journal::Disks;
use plain_io::{Door, Files, Harbour, Sink};
use serving::{parse_serve, run_serve};
use std::alloc::Global;
use std::sync::Wait;
use std::thread::Threads;

/// Does what the words of a command line ask for, without the name of the program among them: loads the files that they
/// name, puts one text to the sink, at once, and gives the exit status.
///
/// | Status | Comes where | Text |
/// |---|---|---|
/// | 0 | the command was done | the borders text or the slice text of the step, the packet text of the two steps, the text of the slice that a replay reaches, `ok` with the numbers of faces, arcs and points, or the line of a generated map; or the map was served until the doors closed: `serving` and the port |
/// | 2 | the words are no command | the usage line |
/// | 3 | a file that the command reads could not be loaded, the first of them in its order; the count of faults of its kind rose, and no other; or the disk of the journal failed, whose count rose | `load fault` and the kind, or `load fault journal` |
/// | 4 | a file is too long, or the map file is the listing of no base map, or the two files are no topology and rules that make one, or the map is no planar partition, which `borders` does not ask; or the journal is too long, has an entry that does not follow or that the map refuses, or more batches than there may be versions after the first | the first fault |
/// | 5 | the step is above the last one; or the step to go to is above the step to go from, which is told first | `step too high` with that step, or `not coarser` with the two |
/// | 6 | the text could not be put; the count of faults of the sink rose | a front of the text |
/// | 7 | memory is wanting | `memory` |
/// | 8 | the port could not be opened, or a door failed; the count of faults of the harbour rose | `port fault`, after the line that tells the port where there were doors |
/// | 9 | a text of a replay is none, or a record does not fit | the first line that is not of its form, or the record's step and the least rule that it breaks |
pub fn run<R: Threads + Wait + Sync, F: Files, K: Sink, H: Harbour, D: Disks>(
    rt: &R,
    alloc: Global,
    words: &[String],
    files: &mut F,
    out: &mut K,
    harbour: &mut H,
    disks: &mut D,
) -> u8
where
    <H::Gate as Door>::Line: Send,
    // The outcome is one that the words and the files allow, and it is put whole, or else the status is 6.
    ensures answered { serve_words (map string_bytes words.now) ≡ None → (o : AnOutcome)
        × Answers (map string_bytes words.now) (F.told files.old) (Failed (F.faults files.old) (F.faults files.new)) o
        × Delivers o (K.told out.old) (K.told out.new) (K.faults out.old) (K.faults out.new) result }
    // But for statuses 3, 6 and 7, status and text are those that the contents of the files give.
    ensures exact { serve_words (map string_bytes words.now) ≡ None → (c : spec.Command) → command (map string_bytes words.now) ≡ Some c
        → result ≢ 3 → result ≢ 6 → result ≢ 7
        → (contents : Contents) × MayHold (F.told files.old) (files_of c) contents
        × PutsWhole (outcome_of c contents) (K.told out.old) (K.told out.new) result }
    // For a slice this says: the map is a planar partition, and what is put is the text of its slice by the definition, whose
    // edges are chains of its arcs less the listed vertices. The slice is a planar partition again; outside the triangles of
    // the listed vertices each face is the union of the base faces that the history made it of, and two are adjacent exactly
    // where base faces of theirs are. For a packet: what is put is the text of the packet by the definition, each of whose records
    // fits the slice that those before it leave, and which leads from the slice at the one step to the slice at the other. For a
    // replay: the files are the texts of a slice and of a packet whose records fit, and what is put is the text of the slice that
    // is reached. For a generated map, which is a planar partition: what is put counts the map, the steps of its history and the
    // vertices that they remove, its last slice, and the slice to which the packet of all steps leads from there.
    ensures done { serve_words (map string_bytes words.now) ≡ None → result ≡ 0
        → PutsAnswer (map string_bytes words.now) (F.told files.old) (K.told out.old) (K.told out.new) outcome.Done }
    ensures usage { result ≡ 2 → (command (map string_bytes words.now) ≡ None) × (serve_words (map string_bytes words.now) ≡ None) }
    ensures no_command { command (map string_bytes words.now) ≡ None → serve_words (map string_bytes words.now) ≡ None → (result ≡ 2) ⊎ (result ≡ 6) }
    ensures load_fault { serve_words (map string_bytes words.now) ≡ None → result ≡ 3 → (c : spec.Command) × (command (map string_bytes words.now) ≡ Some c)
        × ((n : FileName) × IsReached (F.told files.old) (files_of c) n × Failed (F.faults files.old) (F.faults files.new) n.which
        × Appends (K.told out.old) (K.told out.new) (load_fault_text n.which)) }
    ensures missing { serve_words (map string_bytes words.now) ≡ None → (c : spec.Command) → command (map string_bytes words.now) ≡ Some c
        → MissesOne (F.told files.old) (files_of c) → (result ≡ 3) ⊎ ((result ≡ 6) ⊎ (result ≡ 7)) }
    // The counts of the files stay but where status 3 tells of it, and those of the kinds that are not read always do.
    ensures loads_kept { result ≢ 3 → result ≢ 6 → (kind : Kind) → F.faults files.new kind ≡ F.faults files.old kind }
    ensures kinds_kept { serve_words (map string_bytes words.now) ≡ None → (kind : Kind) → LeavesKind (files_for (command (map string_bytes words.now))) kind
        → F.faults files.new kind ≡ F.faults files.old kind }
    ensures refused { serve_words (map string_bytes words.now) ≡ None → result ≡ 4
        → PutsAnswer (map string_bytes words.now) (F.told files.old) (K.told out.old) (K.told out.new) outcome.Refused }
    ensures too_high { serve_words (map string_bytes words.now) ≡ None → result ≡ 5
        → PutsAnswer (map string_bytes words.now) (F.told files.old) (K.told out.old) (K.told out.new) outcome.StepTooHigh
        ⊎ PutsAnswer (map string_bytes words.now) (F.told files.old) (K.told out.old) (K.told out.new) not_coarser }
    ensures unfit { serve_words (map string_bytes words.now) ≡ None → result ≡ 9
        → PutsAnswer (map string_bytes words.now) (F.told files.old) (K.told out.old) (K.told out.new) outcome.Unfit }
    // Where the map is to be served, status 0 and 8 come of a map that is a planar partition, and each other status but 6 as of its check,
    // as of its journal, or where memory is wanting.
    ensures serve_sound { (c : ServeCommand) → serve_words (map string_bytes words.now) ≡ Some c → (result ≡ 0) ⊎ (result ≡ 8)
        → IsSoundMap c.source (F.told files.old) }
    ensures serve_refused { (c : ServeCommand) → serve_words (map string_bytes words.now) ≡ Some c → result ≢ 0 → result ≢ 6 → result ≢ 8
        → PutsOne (RefusesServing c (F.told files.old) (Failed (F.faults files.old) (F.faults files.new)) (D.told disks.old) (D.held disks.old)
        (Rose (D.faults disks.old) (D.faults disks.new))) (K.told out.old) (K.told out.new) result }
    ensures serve_kinds_kept { (c : ServeCommand) → serve_words (map string_bytes words.now) ≡ Some c → (kind : Kind) → LeavesKind (files_of_map c.source) kind
        → F.faults files.new kind ≡ F.faults files.old kind }
    // The line that tells the port is put, and after it that a door failed; or there are no doors, and the port's fault alone is told.
    ensures serve_line { (c : ServeCommand) → serve_words (map string_bytes words.now) ≡ Some c → result ≡ 0
        → Appends (K.told out.old) (K.told out.new) (serving_text c.port) }
    ensures serve_fault_line { (c : ServeCommand) → serve_words (map string_bytes words.now) ≡ Some c → result ≡ 8
        → Appends (K.told out.old) (K.told out.new) (text_of outcome.PortFault)
        ⊎ Appends (K.told out.old) (K.told out.new) (serving_text c.port ++ text_of outcome.PortFault) }
    // Status 6: a front was put of what the check refuses the map with, or of the port's fault, and no doors were given; or a front of the
    // line, and no door has failed; or the line and a front of the port's fault, after connections were served.
    ensures serve_front { (c : ServeCommand) → serve_words (map string_bytes words.now) ≡ Some c → result ≡ 6
        → PutsFront (serving_text c.port) (CameBack (H.told harbour.old) (H.told harbour.new))
        ((m : BaseMap) × IsLoaded c.source (F.told files.old) m
        × IsServed H.Gate.closed H.Gate.faults H.Gate.told H.Gate.Line.Link (CameBack (H.told harbour.old) (H.told harbour.new))
        c D.One.Disk (D.told disks.old) (D.held disks.old) (D.returned disks.new) m result)
        (RefusesServing c (F.told files.old) (Failed (F.faults files.old) (F.faults files.new)) (D.told disks.old) (D.held disks.old)
        (Rose (D.faults disks.old) (D.faults disks.new)))
        (H.faults harbour.old) (H.faults harbour.new) (K.told out.old) (K.told out.new) }
    // All doors that the harbour gave came back. With status 0 there are as many as workers, each closed and none with a fault.
    ensures doors { (c : ServeCommand) → serve_words (map string_bytes words.now) ≡ Some c
        → (doors : List H.Gate) × CameBack (H.told harbour.old) (H.told harbour.new) doors
        × (result ≡ 0 → (length doors ≡ c.workers) × All (λ door. (H.Gate.closed door ≡ true) × (H.Gate.faults door ≡ 0)) doors) }
    // Status 0 and 8 come where connections were served; or it is 8, and no doors could be given. Where they were served, as many doors
    // as workers came back, each closed or with a fault, and the status is 0 exactly where each is closed and none has a fault. There
    // is one list of maps, which begins with the map that was loaded. It has no more maps than versions may be kept, and each of them is a
    // planar partition. Over it each connection of each door is right; no connection begins with a version that is older than one that
    // was pinned or told before at its door; and each link that came was handed back.
    ensures connections { (c : ServeCommand) → serve_words (map string_bytes words.now) ≡ Some c → (result ≡ 0) ⊎ (result ≡ 8)
        → ((result ≡ 8) × HasNoDoors (CameBack (H.told harbour.old) (H.told harbour.new)) (K.told out.old) (K.told out.new))
        ⊎ ((result ≡ 8 → Appends (K.told out.old) (K.told out.new) (serving_text c.port ++ text_of outcome.PortFault))
        × ((m : BaseMap) × IsLoaded c.source (F.told files.old) m
        × IsServed H.Gate.closed H.Gate.faults H.Gate.told H.Gate.Line.Link (CameBack (H.told harbour.old) (H.told harbour.new))
        c D.One.Disk (D.told disks.old) (D.held disks.old) (D.returned disks.new) m result)) }
    // Status 8 comes only where the count of the harbour rose. It stays but where status 8 or 6 tells of it.
    ensures port_fault { result ≡ 8 → Rose (H.faults harbour.old) (H.faults harbour.new) }
    ensures port_kept { result ≢ 6 → result ≢ 8 → H.faults harbour.new ≡ H.faults harbour.old }
    ensures harbour_kept { serve_words (map string_bytes words.now) ≡ None → H.told harbour.new ≡ H.told harbour.old }
    // Where nothing is served no disk is asked for, nor where no journal is named. The count of the disks stays where a map or its journal is
    // refused.
    ensures no_disk { IfSome (serve_words (map string_bytes words.now)) (λ c. c.journal ≡ None)
        → (D.returned disks.new ≡ D.returned disks.old) × (D.faults disks.new ≡ D.faults disks.old) }
    ensures disks_kept { result ≡ 4 → D.faults disks.new ≡ D.faults disks.old }
    ensures sink_fault { result ≡ 6 → Rises (K.faults out.old) (K.faults out.new) }
    ensures sink_kept { result ≢ 6 → K.faults out.new ≡ K.faults out.old }
{
    match parse_serve(words) {
        Some(serving) => run_serve(rt, alloc, serving, files, out, harbour, disks),
        None => execute(rt, alloc, words, files).put(alloc, out),
    }
}
