//! A program to be killed: it appends numbered blocks to `fx.journal` and prints each number once its block is kept.
//!
//! `append COUNT DOTS` appends blocks of the next COUNT numbers, each its digits and as many dots. `count DOTS` opens the
//! file, and prints how many blocks it has and whether they are those of 1, 2, 3 and so on. Status 1: other words; 2: a fault of
//! the disk, of standard output where it got a number, or of memory; 3: one of standard output where it got the count.
//!
//! Its tests do the same over disks and sinks that fail, and over a real file, and read kept histories back.
#![tactic(auto)]

#[cfg(test)]
mod faults;
#[cfg(test)]
mod files;
#[cfg(test)]
mod histories;
mod keeping;
mod numbers;

use fx_disk::FileDisk;
use fx_edges::StdSink;
use keep_disk::RunFault;
use keeping::{append, count};
use std::env::{self, Args};
use std::process::ExitCode;

/// What the words ask for.
enum Task {
    Append { numbers: u64, dots: usize },
    Count { dots: usize },
}

/// What the program has to say.
enum Answer {
    Appended,
    Counted { blocks: usize, in_order: bool },
}

fn number(words: &mut Args) -> Option<u64> {
    let word = words.next()?;
    word.as_str().parse::<u64>().ok()
}

fn task_of(mut words: Args) -> Option<Task> {
    let _name = words.next();
    let word = words.next()?;
    let first = number(&mut words)?;
    if word.as_str() == "count" {
        return Some(Task::Count {
            dots: first as usize,
        });
    }
    if word.as_str() != "append" {
        return None;
    }
    let dots = number(&mut words)? as usize;
    Some(Task::Append {
        numbers: first,
        dots,
    })
}

fn carry_out(rt: &HostRuntime, task: Task) -> Result<Answer, RunFault> {
    let mut disk = FileDisk::new(rt);
    match task {
        Task::Append { numbers, dots } => {
            let mut out = StdSink::new(rt.stdout());
            append(rt.alloc(), &mut disk, &mut out, numbers, dots)?;
            Ok(Answer::Appended)
        }
        Task::Count { dots } => {
            let (blocks, in_order) = count(rt.alloc(), &mut disk, dots)?;
            Ok(Answer::Counted { blocks, in_order })
        }
    }
}

fn main(rt: HostRuntime) -> ExitCode {
    let Ok(words) = env::args(&rt) else {
        return ExitCode::from(1);
    };
    let Some(task) = task_of(words) else {
        return ExitCode::from(1);
    };
    let told = match carry_out(&rt, task) {
        Ok(Answer::Appended) => Ok(()),
        Ok(Answer::Counted { blocks, in_order }) => {
            let order = if in_order { "in order" } else { "out of order" };
            println!(rt; "{blocks} blocks, {order}")
        }
        Err(_) => return ExitCode::from(2),
    };
    match told {
        Ok(()) => ExitCode::SUCCESS,
        Err(_) => ExitCode::from(3),
    }
}
