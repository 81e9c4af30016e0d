ghost use Rattle.std.specs.Prelude.{◌≡◌, ◌≢◌, IfErr, IfOk, drop};
ghost use Rattle.std.specs.IoError.{error_kind};
ghost use Rattle.std.specs.declared.io.ErrorKind.TheVariants.{OutOfMemory};
ghost use Rattle.std.specs.Process.{exit_status};
ghost use Rattle.std.specs.Vec.Iter.{into_iter_items};
ghost use Rattle.fx_amounts.specs.OutOfMemory.{refused};
ghost use Rattle.fx_cli.specs.Process.{EndsBy, EndsUnread};

use crate::top::fx_top;
use fx_amounts::Memory;
use fx_disk::Disk;
use fx_edges::{Sink, Source};
use fx_rules::OpenGate;
use program_calls::Status;
use std::alloc::Global;
use std::env::Args;
use std::io;
use std::process::ExitCode;
use std::sync::Wait;
use std::thread::Threads;

/// Does all that the process does, over its arguments as they were read, its streams and its disk, and answers what it ends with.
///
/// Where the arguments could not be read, nothing is read or written, and the disk is not touched: the exit status is that of `Memory` where memory was
/// refused, and else that of `Usage`.
pub fn serve<R: AllocGlobal + Threads + Wait + Sync, S: Source, K: Sink, E: Sink, D: Disk>(
    rt: &R,
    arguments: io::Result<Args>,
    source: &mut S,
    out: &mut K,
    err: &mut E,
    disk: &mut D,
) -> ExitCode
    // The words are the arguments behind the program's name.
    ensures ends { IfOk arguments (λ all. EndsBy D.bytes D.may_leave D.moment D.left_since D.faults S.left S.faults K.written K.faults E.written E.faults (drop 1 (into_iter_items all)) disk.old disk.new source.old source.new out.old out.new err.old err.new (exit_status result)) }
    ensures unread { IfErr arguments (λ fault. EndsUnread (error_kind fault) disk.old disk.new source.old source.new out.old out.new err.old err.new (exit_status result)) }
{
    let status = match arguments {
        Ok(all) => match words_of(rt.alloc(), all) {
            Ok(words) => fx_top(rt, &words, source, out, err, &OpenGate, disk),
            Err(memory) => Status::Memory(memory),
        },
        Err(fault) => unread_status(&fault),
    };
    ExitCode::from(status.code())
}

/// The arguments without the program's name.
fn words_of(alloc: Global, mut arguments: Args) -> Result<Vec<String>, Memory>
    ensures words { IfOk result (λ words. words.items ≡ drop 1 (into_iter_items arguments)) }
{
    let _name = arguments.next();
    let mut words = Vec::new(alloc);
    while let Some(word) = arguments.next() {
        words.push(word)?;
    }
    Ok(words)
}

/// The status at which the process ends where its arguments can't be read.
fn unread_status(fault: &io::Error) -> Status
    ensures memory { error_kind fault.now ≡ OutOfMemory → result ≡ Status.Memory refused }
    ensures other { error_kind fault.now ≢ OutOfMemory → result ≡ Status.Usage }
{
    match Memory::told_by(fault.kind()) {
        Some(memory) => Status::Memory(memory),
        None => Status::Usage,
    }
}
