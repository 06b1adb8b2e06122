// The program's arguments: what cannot be a seed or a number of rounds is refused, so that a run is never another than was asked for.
use std::env::FillError;
use std::io;
use std::rt::Env;

const DEFAULT_SEED: u64 = 0;

const DEFAULT_ROUNDS: u64 = 10000000;

const MOST_SEED: u64 = 4294967295;

const MOST_ROUNDS: u64 = 1000000000000;
// The longest argument that is read; a longer one is refused.
const LONGEST_ARGUMENT: usize = 4096;

#[derive(Clone, Copy)]
pub struct Arguments {
    pub seed: u64,
    pub rounds: u64,
}

// What an argument says.
#[derive(Clone, Copy, PartialEq, Eq)]
enum Argument {
    Missing,
    Help,
    Number(u64),
    Other,
}

// Of one decimal digit or more, and nothing else: the library's numbers may have a sign.
fn number_in(text: &str) -> Option<u64> {
    if text.bytes().all(|byte| byte.is_ascii_digit()) {
        return text.parse().ok();
    }
    None
}

fn read_argument(text: &[u8]) -> Argument {
    match str::from_utf8(text) {
        Ok("-h" | "--help") => Argument::Help,
        Ok(text) => number_in(text).map_or(Argument::Other, Argument::Number),
        Err(_) => Argument::Other,
    }
}

fn argument_at(rt: &impl Env, i: usize) -> Argument {
    let mut text = [0u8; LONGEST_ARGUMENT];
    match rt.arg(i, &mut text) {
        Ok(n) => read_argument(&text[..n]),
        Err(FillError::NotPresent) => Argument::Missing,
        Err(FillError::TooLong) => Argument::Other,
    }
}

// Argument i as a number of at most some, or what stands in for it where it is missing.
fn number(rt: &impl Env, i: usize, most: u64, otherwise: u64) -> Option<u64> {
    match argument_at(rt, i) {
        Argument::Number(number) if number <= most => Some(number),
        Argument::Missing => Some(otherwise),
        _ => None,
    }
}

// None where an argument is refused.
pub fn read(rt: &impl Env) -> Option<Arguments> {
    let seed = number(rt, 1, MOST_SEED, DEFAULT_SEED)?;
    let rounds = number(rt, 2, MOST_ROUNDS, DEFAULT_ROUNDS)?;
    let arguments = Arguments { seed, rounds };
    (argument_at(rt, 3) == Argument::Missing).then_some(arguments)
}

// As the first or the second argument.
pub fn help_asked(rt: &impl Env) -> bool {
    argument_at(rt, 1) == Argument::Help || argument_at(rt, 2) == Argument::Help
}

const USAGE: &str =
    "usage: soak [SEED [ROUNDS]]\nSEED is 0 to 4294967295 (0 unless said), ROUNDS 0 to 1000000000000 (10000000 unless said), in decimal digits only";

pub fn print_usage(rt: &impl Print) -> io::Result<()> {
    println!(rt; "{USAGE}")
}

// The usage on standard error; where it can't be written, that is let go.
pub fn complain(rt: &impl Eprint) {
    let _ = eprintln!(rt; "{USAGE}");
}
