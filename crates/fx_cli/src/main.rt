//! The program: sessions of the market from bytes to bytes.
#![tactic(auto)]

mod process;
mod top;

use fx_disk::FileDisk;
use fx_edges::{StdSink, StdSource};
use process::serve;
pub use program_calls::Status;
use std::env;
use std::process::ExitCode;
pub use top::{fx_main, fx_top};

fn main(rt: HostRuntime) -> ExitCode {
    let mut source = StdSource::new(rt.stdin());
    let mut out = StdSink::new(rt.stdout());
    let mut err = StdSink::new(rt.stderr());
    let mut disk = FileDisk::new(&rt);
    serve(
        &rt,
        env::args(&rt),
        &mut source,
        &mut out,
        &mut err,
        &mut disk,
    )
}

#[cfg(test)]
mod tests;
