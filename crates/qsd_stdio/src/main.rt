//! Serves one NBD client on standard input and output over a raw image file.
//!
//! `qsd_stdio [--transmission] [--read-only] [--align N] IMAGE`: the input is what the client sends, the output
//! what answers it.
#![tactic(auto)]

mod opening;
mod stray;
mod telling;

use opening::disks_of;
use qs_host::{About, Ended, Reading, StartFault, Writing, asked, exit_of, report, tell, words};
use qs_outside::MemClock;
use qs_stdio::run_stdio;
use std::fs::File;
use std::io::{Stdin, Stdout};
use std::process::ExitCode;
use std::rt::Files;
use std::sync::Wait;
use telling::{HELP, Served, Unserved, VERSION, image_of};

/// The program's name.
const NAME: &str = "qsd_stdio";

/// Serves the client that stands at standard input and output.
fn serve<R: Files<File = File> + AllocGlobal + Wait + Copy>(
    rt: &R,
    input: Stdin,
    output: Stdout,
    words: &[String],
) -> Result<Ended, StartFault> {
    let mut disks = disks_of(rt, rt.alloc(), words)?;
    let mut input = Reading::new(input);
    let mut output = Writing::new(output);
    let status = run_stdio(
        rt.alloc(),
        words,
        &mut input,
        &mut output,
        &mut disks,
        &MemClock::new(0),
    );
    Ok(Ended::of(status, &input, &output))
}

/// Serves, tells how it ended, and answers the exit status.
fn run<R: Files<File = File> + AllocGlobal + Eprint + Wait + Copy>(
    rt: &R,
    input: Stdin,
    output: Stdout,
    words: &[String],
) -> u8 {
    match serve(rt, input, output, words) {
        Ok(ended) => report(rt, NAME, exit_of(ended.status), &Served { ended, words }),
        Err(fault) => {
            let image = image_of(words);
            report(rt, NAME, fault.exit(), &Unserved { fault, image })
        }
    }
}

fn main(rt: HostRuntime) -> ExitCode {
    let words = match words(&rt) {
        Ok(words) => words,
        Err(fault) => {
            let image = "";
            let exit = report(&rt, NAME, fault.exit(), &Unserved { fault, image });
            return ExitCode::from(exit);
        }
    };
    let exit = match asked(words.as_slice()) {
        Some(About::Help) => tell(&rt, NAME, HELP),
        Some(About::Version) => tell(&rt, NAME, VERSION),
        None => run(&rt, rt.stdin(), rt.stdout(), words.as_slice()),
    };
    ExitCode::from(exit)
}
