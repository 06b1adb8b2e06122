// soak SEED ROUNDS: draws calls by document 01's generator, makes each on the code and on the model, and compares every
// answer. The report is a function of the two arguments.
#![tactic(auto)]

mod arguments;
mod both;
mod longest;
mod play;

use arguments::Arguments;
use both::{Bench, LOG};
use model::memory::MEMORY;
use std::env::Env;
use std::io;
use std::io::ErrorKind;
use std::process::ExitCode;
use tally::frames::WHOLE;
use tally::notes::{NOTES, ROUNDS, SEED, STATE, put};

// The status that a shell reports of a filter that nobody reads any more, which SIGPIPE ends. It stands in schedule too: the
// two programs share no crate of their own.
const NOBODY_READS: u8 = 141;

// A line on standard error, every few seconds of a long run.
fn tell_progress(rt: &impl Eprint, tally: &[u64], left: u64) {
    if left % 16777216 == 16777215 {
        tally::report::tell_progress(rt, tally, left);
    }
}

// The calls before any make, the drawn ones, and those of the longest total; then the report.
fn soak(rt: &(impl Print + Eprint), bench: &mut Bench, given: Arguments) -> io::Result<()> {
    put(&mut bench.tally, SEED, given.seed);
    put(&mut bench.tally, ROUNDS, given.rounds);
    put(&mut bench.tally, STATE, given.seed);
    for left in (0..play::calls_in_all(given.rounds)).rev() {
        let call = bench.call_at(given.rounds, left);
        bench.both(rt, call)?;
        tell_progress(rt, &bench.tally, left);
    }
    tally::report::report(rt, &bench.tally)
}

fn run(rt: &(impl Print + Eprint), given: Arguments) -> io::Result<()> {
    let mut bench = Bench {
        words: [0; WHOLE],
        memory: [0; MEMORY],
        log: [0; LOG],
        tally: [0; NOTES],
    };
    soak(rt, &mut bench, given)
}

// What the arguments ask for. An argument that is refused is answered with the usage on standard error.
fn run_as_asked(rt: &(impl Env + Print + Eprint)) -> io::Result<()> {
    if arguments::help_asked(rt) {
        return arguments::print_usage(rt);
    }
    match arguments::read(rt) {
        Some(given) => run(rt, given),
        None => {
            arguments::complain(rt);
            Ok(())
        }
    }
}

// Where the report can't be written, a word on standard error says so, but where nobody reads it: then soak ends as any filter does, and says nothing.
fn main(rt: HostRuntime) -> ExitCode {
    if let Err(error) = run_as_asked(&rt) {
        if matches!(error.kind(), ErrorKind::BrokenPipe) {
            return ExitCode::from(NOBODY_READS);
        }
        let _ = eprintln!(rt; "soak: standard output: {error}");
    }
    ExitCode::SUCCESS
}
