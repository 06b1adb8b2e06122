// The schedule program: frames from standard input, one answer line for each on standard output, in constant memory.
#![tactic(auto)]

ghost use Rattle.std.specs.Prelude.{◌≡◌, ℕ, ◌+◌, ◌<◌, ◌≤◌, ◌++◌, ◌-◌, ◌↔◌, OnOk, IfErr, length, take, drop};
ghost use Rattle.std.specs.Io.KnownBytes.{Appends};
ghost use Rattle.std.specs.IoError.{error_kind};
ghost use Rattle.text.specs.Feeding.{Piece, Last};
ghost use Rattle.text.specs.Replies.{lent};
ghost use Rattle.schedule.specs.Turns.{out_length, Moved, Took, read_into};
ghost use Rattle.schedule.specs.Runs.{got_of, OfWrite, Answers, AnswersLast, AnswersRead, TakesTurn, RanOn};

use std::env::{Env, FillError};
use std::io::{Error, ErrorKind, Read, Write};
use std::process::ExitCode;

// How many bytes of the text are held at most, and how many words are lent to the catalogue.
const TEXT_LENGTH: usize = 16384;

const WORDS: usize = 16384;

// An answer line for each byte read.
const OUT_LENGTH: usize = TEXT_LENGTH * frames::ANSWER_LENGTH;

// The status that a shell reports of a filter that nobody reads any more, which SIGPIPE ends. It stands in soak too: the two
// programs share no crate of their own.
const NOBODY_READS: u8 = 141;

// Why the program does not run, or a run ends before the end of its input.
#[derive(Clone, Copy)]
enum Failure {
    Arguments,
    Unread,
    Unwritten,
    NobodyReads,
    TurnsSpent,
}

impl Failure {
    // What is said of it on standard error. Where nobody reads the answers the program ends as any filter does, and says nothing.
    fn complaint(self) -> &'static [u8] {
        match self {
            Failure::Arguments => USAGE,
            Failure::Unread => b"schedule: standard input cannot be read\n",
            Failure::Unwritten => b"schedule: standard output cannot be written\n",
            Failure::NobodyReads | Failure::TurnsSpent => b"",
        }
    }

    fn status(self) -> u8 {
        match self {
            Failure::NobodyReads => NOBODY_READS,
            _ => 0,
        }
    }
}

const USAGE: &[u8] = b"usage: schedule < FRAMES > ANSWERS
schedule takes no argument: it reads frames from standard input, one a line, and prints an answer for each; see schedule(1)
";

// What a failed write comes to.
fn unwritten(error: Error) -> Failure
    ensures unread { (result ≡ Failure.NobodyReads) ↔ (error_kind error ≡ ErrorKind.BrokenPipe) }
    ensures wrote { OfWrite result }
{
    match error.kind() {
        ErrorKind::BrokenPipe => Failure::NobodyReads,
        _ => Failure::Unwritten,
    }
}

// All of the answers are written, or a write fails or takes none of those that it is handed.
fn write_answers<W: Write>(output: &mut W, answers: &[u8]) -> Result<(), Failure>
    ensures appends { OnOk result (Appends (W.contents output.old) (W.contents output.new) answers.now) }
    ensures failed { IfErr result OfWrite }
{
    output.write_all(answers).map_err(unwritten)
}

// What a run works on: the bytes of the text that were read last, after those of an unfinished line, of which `held` are kept; the words that it lends to
// the catalogue; and the answers.
#[derive(Drop)]
struct Buffers {
    bytes: [u8; TEXT_LENGTH],
    held: usize,
    words: [u32; WORDS],
    out: [u8; OUT_LENGTH],
}

impl Buffers {
    fn new() -> Buffers
        ensures { (result.held ≡ 0) × (result.words ≡ lent) }
    {
        Buffers {
            bytes: [0; TEXT_LENGTH],
            held: 0,
            words: [0; WORDS],
            out: [0; OUT_LENGTH],
        }
    }

    // One read after what is held, and how many bytes it put there.
    fn read_once<R: Read>(&mut self, input: &mut R) -> Result<usize, Error>
        requires { self.old.held ≤ 65 }
        ensures took { Took (R.remaining input.old) (R.remaining input.new) (got_of result) (drop self.new.held self.new.bytes) }
        ensures moved { Moved (16384 - self.new.held) (got_of result) }
        ensures held { (self.new.held ≡ self.old.held) × (take self.new.held self.new.bytes ≡ take self.old.held self.old.bytes) }
        ensures rest { (self.new.words ≡ self.old.words) × (self.new.out ≡ self.old.out) }
        ensures lengths { (length self.new.bytes ≡ 16384) × (length self.new.out ≡ out_length) }
    {
        let held = self.held;
        input.read(&mut self.bytes[held..])
    }

    // The whole lines of what is held and of what was read are answered, and the answers written.
    fn answer<W: Write>(&mut self, count: usize, output: &mut W) -> Result<(), Failure>
        requires { self.old.held + count ≤ 16384 }
        ensures { Answers (W.contents output.old) (W.contents output.new) (take self.old.held self.old.bytes ++ take count (drop self.old.held self.old.bytes))
            self.old.words self.old.out result self.new.held self.new.bytes self.new.words self.new.out }
    {
        let held = self.held;
        let kept = text::answer_piece(
            &mut self.bytes,
            held + count,
            &mut self.words,
            &mut self.out,
        );
        self.held = kept.held;
        write_answers(output, &self.out[..kept.written])
    }

    // At the end of the input a last line may lack its line feed.
    fn finish<W: Write>(&mut self, output: &mut W) -> Result<(), Failure>
        requires { self.old.held ≤ 65 }
        ensures { AnswersLast (W.contents output.old) (W.contents output.new) (take self.old.held self.old.bytes) self.old.words self.old.out result
            self.new.words self.new.out }
    {
        let held = self.held;
        let written = text::answer_last(&self.bytes[..held], &mut self.words, &mut self.out);
        write_answers(output, &self.out[..written])
    }

    // What a read that answered `got` comes to, and whether the run goes on: the whole lines are answered, at the end of the input the last line. Where it
    // failed nothing more is answered, since what is held may be a part of a line. In run's own code, as take_turn: as calls they made schedule take 1.05 of
    // its time.
    #[inline(always)]
    fn after_read<W: Write>(
        &mut self,
        got: Result<usize, Error>,
        output: &mut W,
    ) -> Result<bool, Failure>
        requires { (self.old.held ≤ 65) × Moved (16384 - self.old.held) (got_of got) }
        ensures { AnswersRead (W.contents output.old) (W.contents output.new) (got_of got) (take self.old.held self.old.bytes)
            (read_into (drop self.old.held self.old.bytes) (got_of got)) self.old.words self.old.out result self.new.held self.new.bytes self.new.words
            self.new.out }
    {
        match got {
            Ok(0) => {
                self.finish(output)?;
                Ok(false)
            }
            Ok(count) => {
                self.answer(count, output)?;
                Ok(true)
            }
            Err(_) => Err(Failure::Unread),
        }
    }

    // One read after what is held, and what it comes to.
    #[inline(always)]
    fn take_turn<R: Read, W: Write>(
        &mut self,
        input: &mut R,
        output: &mut W,
    ) -> Result<bool, Failure>
        requires { self.old.held ≤ 65 }
        ensures { TakesTurn (R.remaining input.old) (R.remaining input.new) (W.contents output.old) (W.contents output.new)
            (take self.old.held self.old.bytes) self.old.words self.old.out result self.new.held self.new.bytes self.new.words self.new.out }
    {
        let got = self.read_once(input);
        self.after_read(got, output)
    }

    // Turns until the input ends or cannot be read, or the output cannot be written.
    fn run<R: Read, W: Write>(&mut self, input: &mut R, output: &mut W) -> Result<(), Failure>
        requires { self.old.held ≡ 0 }
        ensures { RanOn (R.remaining input.old) (R.remaining input.new) (W.contents output.old) (W.contents output.new) self.old.words result self.new.words }
    {
        for _ in 0..u64::MAX {
            if !self.take_turn(input, output)? {
                return Ok(());
            }
        }
        Err(Failure::TurnsSpent)
    }

    // Runs where the program's name stands alone in its command. Given an argument nothing is read and nothing answered.
    fn run_alone<R: Read, W: Write>(
        &mut self,
        name_and_arguments: usize,
        input: &mut R,
        output: &mut W,
    ) -> Result<(), Failure>
        requires { self.old.held ≡ 0 }
        ensures alone { name_and_arguments ≤ 1 → RanOn (R.remaining input.old) (R.remaining input.new) (W.contents output.old) (W.contents output.new)
            self.old.words result self.new.words }
        ensures given { 1 < name_and_arguments → (self.new ≡ self.old) × (input.new ≡ input.old) × (output.new ≡ output.old) }
    {
        if 1 < name_and_arguments {
            return Err(Failure::Arguments);
        }
        self.run(input, output)
    }
}

// How many words the command has: the program's name and its arguments. By place: the library's args() makes Strings, and
// there is no heap here.
fn count_words<C: Env>(command: &C) -> usize {
    for at in 0..usize::MAX {
        if let Err(FillError::NotPresent) = command.arg(at, &mut []) {
            return at;
        }
    }
    usize::MAX
}

// A contract could speak of none of main's locals. What is proved: the words that it lends are `lent` (`new`), what a run from them comes to, turn by
// turn (`run`), and that an argument keeps it from running (`run_alone`). `program_prints` (specs/Sessions.antt) puts the first two together.
fn main(rt: HostRuntime) -> ExitCode {
    let mut buffers = Buffers::new();
    match buffers.run_alone(count_words(&rt), &mut rt.stdin(), &mut rt.stdout()) {
        Ok(()) => ExitCode::SUCCESS,
        Err(failure) => {
            // Where this cannot be written, nobody learns of it.
            let _ = rt.stderr().write_all(failure.complaint());
            ExitCode::from(failure.status())
        }
    }
}
