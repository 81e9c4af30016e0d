ghost use Rattle.std.specs.Prelude.{ℕ, ◌≡◌, [], ◌∷◌, Some, None};
ghost use Rattle.fx_amounts.specs.OutOfMemory.{refused};
ghost use Rattle.fx_rules.specs.Lists.{Among};
ghost use Rattle.net_settle.specs.declared.form.Form.{Form};
ghost use Rattle.fx_cli.specs.Answered.{Answered, asked};
ghost use Rattle.program_calls.specs.Headline.{IsHeadline, IsSerial};
ghost use Rattle.program_calls.specs.Check.{Checked, SaysYes};
ghost use Rattle.program_calls.specs.Clients.{IsClientsTextOf};
ghost use Rattle.program_calls.specs.Load.{Loaded};
ghost use Rattle.program_calls.specs.Payments.{IsPaymentsOf};
ghost use Rattle.fx_cli.specs.KeptCall.{AnsweredTop};
ghost use Rattle.program_calls.specs.Run.{Ran};
ghost use Rattle.program_calls.specs.TopCall.{IsOutputOf, ToldErr};
ghost use Rattle.program_calls.specs.Watch.{IsWatchedOf};
ghost use Rattle.fx_cli.specs.inside.TopCall.{Refused};

use fx_disk::Disk;
use fx_edges::{Sink, SinkFault, Source};
use fx_rules::Gate;
use program_calls::{
    Status, Task, WordsFault, check, clients, follow_kept, kept_task, load, payments, read_words,
    run, serial, watch,
};
use std::alloc::Global;
use std::sync::Wait;
use std::thread::Threads;

/// Does what the words ask for, over the streams that it is handed, and answers how it ended.
///
/// - `run`, `run --workers N`: runs the session of the source's bytes, of which at most 2^26 are taken, in N threads at
///   most (1 to 64, 4 where it is not said), round by round: each is run before more bytes are asked for. The gate is
///   called before and after each command. With one worker it runs as `serial` does, and calls no gate.
/// - `serial`: runs it in the order of its lines, round by round too.
/// - `check`: takes the source's bytes to its end, of which there have to be fewer than 2^28, and writes `YES` where they
///   are the output of a legal history, else `NO` and the offset at which they are not.
/// - `load SEED BANKS PAIRS COMMANDS`, also followed by `--workers N`: makes a session from a number, runs it both ways and
///   writes a summary. It reads nothing.
/// - `clients`: runs a session as `serial` does, where clients trade in their banks' names, and writes behind its output what each
///   client has and was told.
/// - `payments bilateral`, `payments net`: reads an output as `check` does, and writes what the banks pay by its history; where
///   the bytes are no output, it writes what `check` does.
/// - `watch`: runs a session as `run` does, and writes behind its output what a reader saw of it meanwhile.
///
/// Refusals come in the order `Usage`; `Header`; the first of `ReadFault`, `Cut` and `TooMuch` that the reading meets. Where
/// START was read by then, `run`, `serial`, `clients` and `watch` write the output of the whole lines so far, with a last line that names the
/// refusal; else nothing. `WriteFault` takes the place of `Done`, `Differs` and of these three where it comes while the
/// output is written, and `Memory` that of any. With `run`, `load` and `watch` it may wait;
/// `serial`, `check`, `clients` and `payments` are handed nothing by which they could.
pub fn fx_main<R: AllocGlobal + Threads + Wait + Sync, S: Source, K: Sink, E: Sink, G: Gate + Sync>(
    rt: &R,
    words: &[String],
    source: &mut S,
    out: &mut K,
    err: &mut E,
    gate: &G,
) -> Status
    ensures answered { Answered S.left S.faults K.written K.faults E.written E.faults words.now source.old source.new out.old out.new err.old err.new result }
{
    let status = follow(rt, words, source, out, gate);
    tell(rt.alloc(), status, err)
}

/// Does what the words ask for, over a disk too, and answers how it ended. `main` calls it.
///
/// - `keep`: runs a new session as `run` does, in 4 threads, and keeps it in the journal file on the disk. Each round is written once it is
///   kept: its notices, each behind its sender's name, and after the last round the output from its line `BOOKS` on.
/// - `restart`: goes on with the session that the journal file holds. The source has command lines alone, up to END.
/// - All other words are those of `fx_main`, and the disk is not touched.
///
/// With `keep` and `restart` refusals come in the order `Usage`; `DiskFault`, where the file can't be opened; `Kept` with `keep`, and with
/// `restart` `Empty`, `Damaged` and `Full`; then those of `run`. A `DiskFault`, a `WriteFault` or `Memory` behind these ends the call at
/// once: what was written is a prefix of the text then, and each round of which a byte was written is kept. It may wait.
pub fn fx_top<
    R: AllocGlobal + Threads + Wait + Sync,
    S: Source,
    K: Sink,
    E: Sink,
    G: Gate + Sync,
    D: Disk,
>(
    rt: &R,
    words: &[String],
    source: &mut S,
    out: &mut K,
    err: &mut E,
    gate: &G,
    disk: &mut D,
) -> Status
    ensures answered { AnsweredTop D.bytes D.may_leave D.moment D.left_since D.faults S.left S.faults K.written K.faults E.written E.faults words.now disk.old disk.new source.old source.new out.old out.new err.old err.new result }
{
    match kept_task(words) {
        Some(task) => {
            let status = follow_kept(rt, task, source, out, gate, disk);
            tell(rt.alloc(), status, err)
        }
        None => fx_main(rt, words, source, out, err, gate),
    }
}

/// Does what the words ask for, but for standard error.
fn follow<R: AllocGlobal + Threads + Wait + Sync, S: Source, K: Sink, G: Gate + Sync>(
    rt: &R,
    words: &[String],
    source: &mut S,
    out: &mut K,
    gate: &G,
) -> Status
    ensures run { (workers : ℕ) → asked words.now ≡ Some (Task.Run workers) → Ran (IsOutputOf IsHeadline) S.left S.faults K.written K.faults source.old source.new out.old out.new result }
    ensures serial { asked words.now ≡ Some Task.Serial → Ran (IsOutputOf IsSerial) S.left S.faults K.written K.faults source.old source.new out.old out.new result }
    ensures check { asked words.now ≡ Some Task.Check → Checked SaysYes S.left S.faults K.written K.faults source.old source.new out.old out.new result }
    ensures load { (seed banks pairs commands workers : ℕ) → asked words.now ≡ Some (Task.Load seed banks pairs commands workers) → Loaded K.written K.faults out.old out.new seed banks pairs commands result }
    ensures clients { asked words.now ≡ Some Task.Clients → Ran IsClientsTextOf S.left S.faults K.written K.faults source.old source.new out.old out.new result }
    ensures payments { (form : Form) → asked words.now ≡ Some (Task.Payments form) → Checked (IsPaymentsOf form) S.left S.faults K.written K.faults source.old source.new out.old out.new result }
    ensures watch { asked words.now ≡ Some Task.Watch → Ran IsWatchedOf S.left S.faults K.written K.faults source.old source.new out.old out.new result }
    ensures unread { (seed banks pairs commands workers : ℕ) → asked words.now ≡ Some (Task.Load seed banks pairs commands workers) → source.new ≡ source.old }
    ensures other { asked words.now ≡ None → Refused source.old source.new out.old out.new result }
    ensures usage { result ≡ Status.Usage → asked words.now ≡ None }
{
    match read_words(rt.alloc(), words) {
        Ok(Task::Run { workers }) => run(rt, workers, source, out, gate),
        Ok(Task::Serial) => serial(rt.alloc(), source, out),
        Ok(Task::Check) => check(rt.alloc(), source, out),
        Ok(
            Task::Load {
                seed,
                banks,
                pairs,
                commands,
                workers,
            },
        ) => load(rt, seed, banks, pairs, commands, workers, out, gate),
        Ok(Task::Clients) => clients(rt.alloc(), source, out),
        Ok(Task::Payments { form }) => payments(rt.alloc(), form, source, out),
        Ok(Task::Watch) => watch(rt, source, out, gate),
        Err(WordsFault::Usage) => Status::Usage,
        Err(WordsFault::Memory(memory)) => Status::Memory(memory),
    }
}

/// Writes the status' line on standard error. Out of memory takes the status' place; a write that fails doesn't.
fn tell<E: Sink>(alloc: Global, status: Status, err: &mut E) -> Status
    ensures same { Among result (status ∷ Status.Memory refused ∷ []) }
    ensures err { ToldErr E.written E.faults err.old err.new result }
{
    match status.write_line(alloc, err) {
        Err(SinkFault::Memory(memory)) => Status::Memory(memory),
        _ => status,
    }
}
