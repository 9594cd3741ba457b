//! What the program answers to words, a source and a sink, over disks and data servers.
ghost use Rattle.std.specs.Prelude.{◌≡◌, ◌≤◌, ◌⊎◌, ◌↔◌, ℕ, Bool, List, [], IfOk, drop, length, map, string_bytes};
ghost use Rattle.cam_base.specs.Causes.{Rose};
ghost use Rattle.cam_base.specs.Told.{IfTold};
ghost use Rattle.cam_args.specs.declared.Command.{Command as Commands};
ghost use Rattle.cam_args.specs.declared.Command.TheVariants.{Gen, Storm as StormWords};
ghost use Rattle.cam_args.specs.Forms.{IsForm as IsFormOf};
ghost use Rattle.cam_cluster.specs.HandedBack.{AreHandedBack};
ghost use Rattle.cam_headline.specs.Headline.{HasHaltedRun};
ghost use Rattle.cam_image.specs.Laws.{UpgradeIsMigration, UpgradeIsOnce};
ghost use Rattle.cam_runs.specs.Halts.{Halting};
ghost use Rattle.cam_script.specs.Grammar.{read_script};
ghost use Rattle.cam_timed.specs.TimedGrammar.{read_timed};
ghost use Rattle.cam_timed.specs.TimedHeadline.{HasTimedRun};
ghost use Rattle.cam_run.specs.declared.status.Status.TheVariants as statuses;
ghost use Rattle.cam_run.specs.Status.{number};
ghost use Rattle.cam_run.specs.Told.{IsTelling, MayAnswer};
ghost use Rattle.cam_run.specs.Commands.{IsForm, Reads, UsesDisks, storm_of};
ghost use Rattle.cam_run.specs.Disks.{FailedAt, OneFailed, disks_left};
ghost use Rattle.cam_run.specs.Answer.{IsAnswer, IsOfStorm, IsWritten, command_status, nodes_for};
ghost use Rattle.cam_run.specs.Storm.{KeepStorm, StormsKeepPromises};

use crate::alone::obey;
use crate::answer::{Answer, usage};
use crate::status::Status;
use crate::storm::{asked_storm, of_storm};
use cam_args::{ArgsFault, read_words};
use cam_base::NoMemory;
use cam_cluster::Servers;
use cam_disk::TellingDisk;
use cam_io::{Sink, Source, write_all};
use cam_type::DataType;
use std::alloc::Global;
use std::sync::Wait;
use std::thread::Threads;

/// Does what the words say, and writes its text to the sink. `run`, `trace`, `witness NAME` and `why EVENT` read a script from the
/// source and tell of its run; `gen SEED SIZE` reads nothing, and tells of the run of the script that is made from the seed. Such a run
/// is over the first of the disks, one for each node of the script, which are formatted; the others stay as they are. `timed` reads a
/// script by time, and reports its run, which has no disks. `inspect` and `upgrade` read the image of a log: the one tells its records, the
/// other writes the image of the same log in version 2. `storm SEED ACTIONS THREADS MODE` reads nothing: it runs four nodes over the first four
/// of the disks, with so many threads for each, and reports the run that is gathered from them.
///
/// The answer is the status of the program: 0 the text of the command was written; 2 the words are no form; 3 the script or the image was
/// refused; 4 the source failed; 5 the sink failed, and a prefix of the text was written; 6 a disk failed by itself: while it was
/// formatted, in a run in which a restart of its node then failed, or in a storm; 7 out of
/// memory, and nothing was written; 8 the run has no such action, or no such stop. The text is made whole before the first write. What
/// the run of each accepted script owes, and that of a storm, is told in `docs/HEADLINE.md`, and the rules of runs by time in `docs/RUNS-BY-TIME.md`.
#[tactic(auto, using(cam_headline::proofs::Whole::halted_headline, cam_timed::proofs::TimedWhole::timed_headline_holds, cam_image::proofs::Again::upgrade_is_migration, cam_image::proofs::Again::upgrade_is_once))]
pub fn camelot<
    T: Threads + Wait + Sync,
    S: Source,
    K: Sink,
    D: TellingDisk + Send,
    R: DataType,
    Q: DataType,
    C: DataType,
>(
    rt: &T,
    alloc: Global,
    words: &[String],
    source: &mut S,
    sink: &mut K,
    disks: &mut Vec<D>,
    servers: &mut Servers<R, Q, C>,
) -> u8
    // As many disks as a script may have nodes, and a server of each kind.
    requires eight { 8 ≤ length disks.old.items }

    // Which statuses there are, and when each comes.
    ensures statuses { (result ≡ 0) ⊎ ((result ≡ 2) ⊎ ((result ≡ 3) ⊎ ((result ≡ 4)
        ⊎ ((result ≡ 5) ⊎ ((result ≡ 6) ⊎ ((result ≡ 7) ⊎ (result ≡ 8))))))) }
    ensures usage { result ≡ 2 → ¬ (IsForm (map string_bytes words.now)) }
    ensures no_form { ¬ (IsForm (map string_bytes words.now))
        → (result ≡ 2) ⊎ ((result ≡ 5) ⊎ (result ≡ 7)) }
    ensures read_fault { result ≡ 4 → Rose (S.faults source.old) (S.faults source.new) }
    ensures write_fault { result ≡ 5 → Rose (K.faults sink.old) (K.faults sink.new) }
    ensures disk_fault { result ≡ 6
        → OneFailed 8 (FailedAt D.faults disks.old.items disks.new.items) }

    // What was written. Of a script there is one run, with one list of halts, that the text tells of and the disks of its nodes keep: whatever
    // a crash now leaves of one is a log; what may be recovered of a node that is not halted at the end is what the node kept, and of one
    // that is halted it is that, or what the node would have kept with the event at which it halted. So it is where the sink failed, too,
    // since the text is made before the first write. And nothing else keeps an accepted or a refused script from its answer.
    ensures written { IfTold (S.left source.old) (S.left source.new) (λ input _.
        IsWritten (IsAnswer (map string_bytes words.now) (record {
          source_failed = Rose (S.faults source.old) (S.faults source.new);
          disks = disks_left D.tells D.faults D.moment D.left_since
              disks.old.items disks.new.items;
        }) input)
        result (K.written sink.old) (K.written sink.new)) }
    ensures complete { IfTold (S.left source.old) (S.left source.new) (λ input _.
        (command : Commands) → IsFormOf (map string_bytes words.now) command
        → ¬ (Rose (S.faults source.old) (S.faults source.new))
        → ¬ (Rose (K.faults sink.old) (K.faults sink.new))
        → ¬ (OneFailed (nodes_for command input)
        (FailedAt D.faults disks.old.items disks.new.items))
        → (result ≡ command_status command input) ⊎ (result ≡ 7)) }
    // The script that is made from a seed is never refused.
    ensures generated { (seed size : ℕ) → IsFormOf (map string_bytes words.now) (Gen seed size)
        → (result ≡ 0) ⊎ ((result ≡ 5) ⊎ ((result ≡ 6) ⊎ (result ≡ 7))) }

    // Of every script that is accepted, and whichever inputs are halts: the run that is told of is the run of the step rules with these
    // halts; each action in it, orphan or not, has its view in a legal execution in which it is no orphan; committed top actions replay
    // serially in commit order, in a list that has each answer of an action that has committed with all its ancestors; no two nodes hold
    // different outcomes; and a log that keeps a node's history gives what the node keeps over a restart.
    ensures headline { (input : List ℕ)
        → IfOk (read_script input) (λ script. (halts : Halting) → HasHaltedRun script halts) }

    // Of every script by time that is accepted: its run keeps the rules of runs by time; each action in it, whatever became of its
    // ancestors, has its view in a legal execution in which it is no orphan; committed top actions replay serially in commit order, in a
    // list that has each answer of an action that has committed with all its ancestors; and no two nodes were informed of different
    // outcomes of an action.
    ensures headline_by_time { (input : List ℕ) → IfOk (read_timed input) HasTimedRun }

    // Of a storm, whatever the source tells: there is one run of it, settled unless a node has all the events that it can have, whose report
    // the text is, and which the disks keep; if a disk failed, the line that names it stands in the place of the report. If the sink failed,
    // a prefix of that was written, and the disks keep the run still.
    ensures storm { (seed actions threads : ℕ) (calm : Bool)
        → IsFormOf (map string_bytes words.now) (StormWords seed actions threads calm)
        → IsWritten (IsOfStorm (storm_of seed actions calm)
        (FailedAt D.faults disks.old.items disks.new.items)
        (KeepStorm D.tells D.moment D.left_since disks.new.items (storm_of seed actions calm)))
        result (K.written sink.old) (K.written sink.new) }
    // Of each run of a storm: each action in it, orphan or not, has its view in a legal execution in which it is no orphan; committed top
    // actions replay serially in commit order; no two nodes hold different outcomes; and logs give what nodes keep.
    ensures headline_of_storms { StormsKeepPromises }

    // Of every image that is upgraded: what is written is the migrated log, of which just that is recovered which was recovered of the
    // image; and upgraded again it is left as it is, unless it is then longer than an image may be.
    ensures upgrade { UpgradeIsMigration }
    ensures upgrade_again { UpgradeIsOnce }

    // The source: read to its end for what is told of its script or image, and not at all by words that ask for no such thing.
    ensures read { Reads (map string_bytes words.now) → (result ≡ 0) ⊎ (result ≡ 8)
        → IfTold (S.left source.old) (S.left source.new) (λ _ rest. rest ≡ []) }
    ensures unread { ¬ (Reads (map string_bytes words.now)) → source.new ≡ source.old }

    // The disks: each is back at its place, and has not failed less often; those that serve no node of the script are as they were, and
    // so are all where the words run no script, or the script is refused or the source failed.
    ensures back { AreHandedBack D.tells D.faults disks.old.items disks.new.items }
    ensures others { IfTold (S.left source.old) (S.left source.new) (λ input _.
        (command : Commands) → IsFormOf (map string_bytes words.now) command
        → drop (nodes_for command input) disks.new.items
        ≡ drop (nodes_for command input) disks.old.items) }
    ensures idle { ¬ (UsesDisks (map string_bytes words.now)) → disks.new ≡ disks.old }
    ensures untouched { (result ≡ 3) ⊎ (result ≡ 4) → disks.new ≡ disks.old }
{
    let Ok(answer) = answer_to(rt, alloc, words, source, disks, servers) else {
        return Status::NoMemory.number();
    };
    match write_all(sink, &answer.text) {
        Ok(()) => answer.status.number(),
        Err(_) => Status::WriteFault.number(),
    }
}

/// The answer to the words and the input.
#[tactic(auto, using(crate::proofs::FirstDisks::as_they_were))]
fn answer_to<
    T: Threads + Wait + Sync,
    S: Source,
    D: TellingDisk + Send,
    R: DataType,
    Q: DataType,
    C: DataType,
>(
    rt: &T,
    alloc: Global,
    words: &[String],
    source: &mut S,
    disks: &mut Vec<D>,
    servers: &mut Servers<R, Q, C>,
) -> Result<Answer, NoMemory>
    requires eight { 8 ≤ length disks.old.items }
    ensures answer { IfTold (S.left source.old) (S.left source.new) (λ input _.
        IfOk result (λ a. IsAnswer (map string_bytes words.now) (record {
          source_failed = Rose (S.faults source.old) (S.faults source.new);
          disks = disks_left D.tells D.faults D.moment D.left_since
              disks.old.items disks.new.items;
        })
        input (number a.status) a.text.items)) }
    ensures storm { (seed actions threads : ℕ) (calm : Bool)
        → IsFormOf (map string_bytes words.now) (StormWords seed actions threads calm)
        → IfOk result (λ a. IsOfStorm (storm_of seed actions calm)
        (FailedAt D.faults disks.old.items disks.new.items)
        (KeepStorm D.tells D.moment D.left_since disks.new.items (storm_of seed actions calm))
        (number a.status) a.text.items) }
    ensures complete { IfTold (S.left source.old) (S.left source.new) (λ input _.
        (command : Commands) → IsFormOf (map string_bytes words.now) command
        → IfOk result (λ a. ¬ (Rose (S.faults source.old) (S.faults source.new))
        → ¬ (OneFailed (nodes_for command input)
        (FailedAt D.faults disks.old.items disks.new.items))
        → number a.status ≡ command_status command input)) }
    ensures generated { (seed size : ℕ) → IsFormOf (map string_bytes words.now) (Gen seed size)
        → IfOk result (λ a. (number a.status ≡ 0) ⊎ (number a.status ≡ 6)) }
    ensures statuses { IfOk result (λ a. MayAnswer a.status) }
    ensures usage { IfOk result
        (λ a. (a.status ≡ statuses.Usage) ↔ (¬ (IsForm (map string_bytes words.now)))) }
    ensures read_fault { IfOk result
        (λ a. a.status ≡ statuses.ReadFault → Rose (S.faults source.old) (S.faults source.new)) }
    ensures disk_fault { IfOk result (λ a. a.status ≡ statuses.DiskFault
        → OneFailed 8 (FailedAt D.faults disks.old.items disks.new.items)) }
    ensures read { Reads (map string_bytes words.now)
        → IfTold (S.left source.old) (S.left source.new)
        (λ _ rest. IfOk result (λ a. IsTelling a.status → rest ≡ [])) }
    ensures unread { ¬ (Reads (map string_bytes words.now)) → source.new ≡ source.old }
    ensures back { AreHandedBack D.tells D.faults disks.old.items disks.new.items }
    ensures others { IfTold (S.left source.old) (S.left source.new) (λ input _.
        (command : Commands) → IsFormOf (map string_bytes words.now) command
        → drop (nodes_for command input) disks.new.items
        ≡ drop (nodes_for command input) disks.old.items) }
    ensures idle { ¬ (UsesDisks (map string_bytes words.now)) → disks.new ≡ disks.old }
    ensures untouched { IfOk result (λ a. (a.status ≡ statuses.Refused)
        ⊎ (a.status ≡ statuses.ReadFault) → disks.new ≡ disks.old) }
{
    match read_words(alloc, words) {
        Ok(command) => match asked_storm(&command) {
            Some(asked) => of_storm(rt, alloc, &asked.storm, asked.threads, disks),
            None => obey(alloc, &command, source, disks, servers),
        },
        Err(ArgsFault::Usage) => usage(alloc),
        Err(ArgsFault::NoMemory) => Err(NoMemory),
    }
}
