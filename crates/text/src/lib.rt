// The text function of the schedule program: bytes in, answer lines out, by the definitions of specs/.
#![tactic(auto)]

ghost use Rattle.std.specs.Prelude.{◌≡◌, ◌+◌, ◌*◌, ◌≤◌, true, false, length, take, MatchOption};
ghost use Rattle.std.proofs.lemmas.List.Edits.{sets};
ghost use Rattle.definitions.specs.Promises.{Done};
ghost use Rattle.frames.specs.Lines.{has_feed, first_line, after_line};
ghost use Rattle.frames.specs.Frames.{frame};
ghost use Rattle.frames.specs.AnswerLines.{answer_length, answer_line};
ghost use Rattle.text.specs.Replies.{replied};
ghost use Rattle.text.specs.Feeding.{Feeding, Piece, Last};

use definitions::Answer;
use endings::reason::{Reason, refuse};
use frames::{ANSWER_LENGTH, Frame};

// How many bytes are kept of a line that is unfinished: a longer one is no frame, whatever it holds.
const LONGEST_KEPT: usize = 65;

// How many bytes of the text were taken, and how many of the output were written. The contracts Feeding, Piece and Last name
// this, Kept and the counts.
#[derive(Drop)]
pub struct Fed {
    pub used: usize,
    pub written: usize,
}

// How many bytes at the front of the text wait for their line feed, and how many of the output were written.
#[derive(Drop)]
pub struct Kept {
    pub held: usize,
    pub written: usize,
}

// What a frame comes to: the one place that calls the catalogue.
fn carry_out(words: &mut [u32], frame: Frame) -> Answer
    ensures { Done (replied words.old frame) result words.new }
{
    match frame {
        Frame::Make {
            workers,
            items,
            nodes,
            projects,
            counter,
        } => calls::make::make(words, workers, items, nodes, projects, counter),
        Frame::Register { value, size } => calls::register::register(words, value, size),
        Frame::VRead { worker, item } => calls::start::start_vread(words, worker, item),
        Frame::VCas {
            worker,
            item,
            old,
            new,
        } => calls::start::start_vcas(words, worker, item, old, new),
        Frame::TakeSnapshot { worker } => calls::start::start_take_snapshot(words, worker),
        Frame::ReadSnapshot {
            worker,
            item,
            handle,
        } => calls::start::start_read_snapshot(words, worker, item, handle),
        Frame::Total {
            worker,
            project,
            handle,
        } => calls::start::start_total(words, worker, project, handle),
        Frame::Step { worker } => steps::step(words, worker),
        Frame::Bad => refuse(Reason::BadFrame),
    }
}

// One line is answered, at a place of the output that has room. By its place: the library says nothing of what a slice
// ends as after chunks_exact_mut.
fn answer_one(line: &[u8], words: &mut [u32], out: &mut [u8], at: usize)
    requires { at + answer_length ≤ length out.old }
    ensures { (out.new ≡ sets out.old at (answer_line (replied words.old (frame line.now)).answer))
        × (words.new ≡ (replied words.old (frame line.now)).words) }
{
    let asked = frames::read_frame(line);
    let answer = carry_out(words, asked);
    frames::put_answer(out, at, answer);
}

// The first line of a text, without its line feed, and the rest after it, where the line has its line feed.
fn split_line(text: &[u8]) -> Option<(&[u8], &[u8])>
    ensures { MatchOption result (has_feed text.now ≡ false) (λ parts. (has_feed text.now ≡ true)
        × (parts.0.now ≡ first_line text.now) × (parts.1.now ≡ after_line text.now)) }
{
    let rest = frames::after_line(text);
    let line = text[..text.len() - rest.len()].strip_suffix(b"\n")?;
    Some((line, rest))
}

// Answers whole lines of the text, as many as the output has room for. The rest of the text after a line is that part of the caller's bytes.
pub fn answer_lines(text: &[u8], words: &mut [u32], out: &mut [u8]) -> Fed
    ensures { Feeding text.now words.old out.old result words.new out.new }
{
    let mut left = text;
    let mut written = 0;
    for _ in 0..out.len() / ANSWER_LENGTH {
        let Some((line, rest)) = split_line(left) else {
            break;
        };
        answer_one(line, words, out, written);
        written += ANSWER_LENGTH;
        left = rest;
    }
    Fed {
        used: text.len() - left.len(),
        written,
    }
}

// Answers the whole lines of the first bytes of the text, and keeps what is left of them at the front, at most 65 bytes.
pub fn answer_piece(text: &mut [u8], count: usize, words: &mut [u32], out: &mut [u8]) -> Kept
    requires { (count ≤ length text.old) × (answer_length * length text.old ≤ length out.old) }
    ensures { Piece (take count text.old) words.old out.old result text.new words.new out.new }
{
    let Fed { used, written } = answer_lines(&text[..count], words, out);
    let held = (count - used).min(LONGEST_KEPT);
    text.copy_within(used..used + held, 0);
    Kept { held, written }
}

// Answers what is left at the end of the input: a last line may lack its line feed. How many bytes were written is what the contract Last speaks of.
pub fn answer_last(text: &[u8], words: &mut [u32], out: &mut [u8]) -> usize
    requires { answer_length ≤ length out.old }
    ensures { Last text.now words.old out.old result words.new out.new }
{
    if text.is_empty() {
        return 0;
    }
    answer_one(text, words, out, 0);
    ANSWER_LENGTH
}
