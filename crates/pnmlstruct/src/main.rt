//! The program: its arguments, standard input, output and error, and the exit status of the run.
#![tactic(auto)]

mod arguments;

use arguments::words;
use pnml_source::{StdSink, StdSource};
use std::process::ExitCode;
use struct_core::run;

// The status where memory is refused before the run.
const OUT_OF_MEMORY: u8 = 10;

fn main(rt: HostRuntime) -> ExitCode {
    let Ok(words) = words(&rt) else {
        return ExitCode::from(OUT_OF_MEMORY);
    };
    let mut source = StdSource::new(rt.stdin());
    let mut out = StdSink::new(rt.stdout());
    let mut err = StdSink::new(rt.stderr());
    ExitCode::from(run(rt.alloc(), &words, &mut source, &mut out, &mut err))
}
