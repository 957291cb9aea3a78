//! Packs boxes into bins: reads commands from standard input, a line each, and prints to standard
//! output.
#![tactic(auto)]

use packrun_lines::run::{end_without_memory, run_buffered};
use packrun_lines::stop::status;
use std::io::BufWriter;
use std::process::ExitCode;

fn main(rt: HostRuntime) -> ExitCode {
    let ended = match BufWriter::new(rt.alloc(), rt.stdout()) {
        Ok(mut writer) => {
            let ended = run_buffered(rt.alloc(), &mut rt.stdin(), &mut writer);
            // Not dropped: a drop would write again what could not be written.
            let _ = writer.into_parts();
            ended
        }
        Err(_) => end_without_memory(&mut rt.stdout()),
    };
    ExitCode::from(status(ended))
}
