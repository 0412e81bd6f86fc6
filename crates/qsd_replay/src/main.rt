//! Replays a script of events against the core over an image in memory.
//!
//! `qsd_replay [--blocks N] [--align N] [--generate N]`: the script is on standard input, and what comes
//! of its lines is on standard output. With `--generate` a run is made up from the seed N instead, and one
//! line tells what it came to.
#![tactic(auto)]

mod stray;
mod telling;

use qs_host::{About, Ended, Reading, StartFault, Writing, asked, exit_of, report, tell, words};
use qs_replay::{memory_disks, run_replay};
use std::alloc::Global;
use std::io::{Stdin, Stdout};
use std::process::ExitCode;
use telling::{HELP, Replayed, VERSION};

/// The program's name.
const NAME: &str = "qsd_replay";

/// Replays the script that stands at standard input, or makes up a run.
fn replay(
    alloc: Global,
    input: Stdin,
    output: Stdout,
    words: &[String],
) -> Result<Ended, StartFault> {
    let Ok(mut disks) = memory_disks(alloc, words) else {
        return Err(StartFault::Memory);
    };
    let mut input = Reading::new(input);
    let mut output = Writing::new(output);
    let status = run_replay(alloc, words, &mut input, &mut output, &mut disks);
    Ok(Ended::of(status, &input, &output))
}

/// Replays, tells how it ended, and answers the exit status.
fn run(rt: &HostRuntime, words: &[String]) -> u8 {
    match replay(rt.alloc(), rt.stdin(), rt.stdout(), words) {
        Ok(ended) => report(rt, NAME, exit_of(ended.status), &Replayed { ended, words }),
        Err(fault) => report(rt, NAME, fault.exit(), &fault),
    }
}

fn main(rt: HostRuntime) -> ExitCode {
    let words = match words(&rt) {
        Ok(words) => words,
        Err(fault) => return ExitCode::from(report(&rt, NAME, fault.exit(), &fault)),
    };
    let exit = match asked(words.as_slice()) {
        Some(About::Help) => tell(&rt, NAME, HELP),
        Some(About::Version) => tell(&rt, NAME, VERSION),
        None => run(&rt, words.as_slice()),
    };
    ExitCode::from(exit)
}
