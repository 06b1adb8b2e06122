// Lines, frames and answer lines of the schedule program, by the definitions of specs/.
#![tactic(auto)]

ghost use Rattle.std.specs.Prelude.{◌≡◌, ◌+◌, ◌<◌, ◌≤◌, length, nat_lt};
ghost use Rattle.std.specs.Option.{unwrap_or};
ghost use Rattle.std.proofs.lemmas.List.Edits.{sets};
ghost use Rattle.frames.specs.Lines.{line_length, after_line};
ghost use Rattle.frames.specs.Frames.{all_digits, framed, Reads, ReadsArguments};
ghost use Rattle.frames.specs.AnswerLines.{hex, answer_length, answer_line};
ghost use Rattle.frames.specs.AnswerLines.{glyph as glyph_of};
ghost use Rattle.frames.specs.Frames.{digit as digit_of, number as number_of, frame as frame_of};

use definitions::Answer;

// What a line asks: one of document 01's operations, or nothing that can be read. `Bad` is a frame to the definitions
// (Frames.frame) and to what is proved of lines; the code here has None until read_frame.
#[derive(Drop)]
pub enum Frame {
    Make {
        workers: u32,
        items: u32,
        nodes: u32,
        projects: u32,
        counter: u32,
    },
    Register {
        value: u32,
        size: u32,
    },
    VRead {
        worker: u32,
        item: u32,
    },
    VCas {
        worker: u32,
        item: u32,
        old: u32,
        new: u32,
    },
    TakeSnapshot {
        worker: u32,
    },
    ReadSnapshot {
        worker: u32,
        item: u32,
        handle: u32,
    },
    Total {
        worker: u32,
        project: u32,
        handle: u32,
    },
    Step {
        worker: u32,
    },
    Bad,
}

// How many bytes the first line has, without its line feed.
pub fn line_length(text: &[u8]) -> usize
    ensures { (result ≡ line_length text.now) × (result ≤ length text.now) }
{
    memchr::memchr(b'\n', text).unwrap_or(text.len())
}

// The rest of the text after its first line, as that part of the caller's bytes.
pub fn after_line(text: &[u8]) -> &[u8]
    ensures { result.now ≡ after_line text.now }
{
    let n = line_length(text);
    if n < text.len() {
        return &text[n + 1..];
    }
    &text[n..]
}

// The number of a lower-case hexadecimal digit.
fn digit(byte: u8) -> Option<u32>
    ensures { Reads (nat_lt (digit_of byte) 16) (digit_of byte) result }
{
    match byte {
        b'0'..=b'9' => Some(u32::from(byte - b'0')),
        b'a'..=b'f' => Some(10 + u32::from(byte - b'a')),
        _ => None,
    }
}

// The number that at most four digits spell.
fn number(digits: &[u8]) -> Option<u32>
    requires { length digits.now ≤ 4 }
    ensures { Reads (all_digits digits.now) (number_of digits.now) result }
{
    let mut number = 0;
    for byte in digits {
        number = number * 16 + digit(*byte)?;
    }
    Some(number)
}

// The arguments after the operation of a line, four digits each, where there are just so many.
fn arguments<const N: usize>(line: &[u8]) -> Option<[u32; N]>
    requires { N ≤ 5 }
    ensures { ReadsArguments N line.now result }
{
    if line.len() != 2 + 4 * N {
        return None;
    }
    let mut arguments = [0; N];
    for k in 0..N {
        arguments[k] = number(&line[2 + 4 * k..6 + 4 * k])?;
    }
    Some(arguments)
}

// What a line of each operation asks, where it can be read. They differ in the variant and its fields; how many arguments
// there are is the const parameter.
fn make(line: &[u8]) -> Option<Frame>
    ensures { unwrap_or result Frame.Bad ≡ framed 1 line.now }
{
    let [workers, items, nodes, projects, counter] = arguments::<5>(line)?;
    Some(Frame::Make {
        workers,
        items,
        nodes,
        projects,
        counter,
    })
}

fn register(line: &[u8]) -> Option<Frame>
    ensures { unwrap_or result Frame.Bad ≡ framed 2 line.now }
{
    let [value, size] = arguments::<2>(line)?;
    Some(Frame::Register { value, size })
}

fn v_read(line: &[u8]) -> Option<Frame>
    ensures { unwrap_or result Frame.Bad ≡ framed 3 line.now }
{
    let [worker, item] = arguments::<2>(line)?;
    Some(Frame::VRead { worker, item })
}

fn v_cas(line: &[u8]) -> Option<Frame>
    ensures { unwrap_or result Frame.Bad ≡ framed 4 line.now }
{
    let [worker, item, old, new] = arguments::<4>(line)?;
    Some(Frame::VCas {
        worker,
        item,
        old,
        new,
    })
}

fn take_snapshot(line: &[u8]) -> Option<Frame>
    ensures { unwrap_or result Frame.Bad ≡ framed 5 line.now }
{
    let [worker] = arguments::<1>(line)?;
    Some(Frame::TakeSnapshot { worker })
}

fn read_snapshot(line: &[u8]) -> Option<Frame>
    ensures { unwrap_or result Frame.Bad ≡ framed 6 line.now }
{
    let [worker, item, handle] = arguments::<3>(line)?;
    Some(Frame::ReadSnapshot {
        worker,
        item,
        handle,
    })
}

fn total(line: &[u8]) -> Option<Frame>
    ensures { unwrap_or result Frame.Bad ≡ framed 7 line.now }
{
    let [worker, project, handle] = arguments::<3>(line)?;
    Some(Frame::Total {
        worker,
        project,
        handle,
    })
}

fn step(line: &[u8]) -> Option<Frame>
    ensures { unwrap_or result Frame.Bad ≡ framed 8 line.now }
{
    let [worker] = arguments::<1>(line)?;
    Some(Frame::Step { worker })
}

// What a line asks, where it can be read. It tests the length: line.get(..2)? took 1.28 of C's time (bar 1.2).
fn asked(line: &[u8]) -> Option<Frame>
    ensures { unwrap_or result Frame.Bad ≡ frame_of line.now }
{
    if line.len() < 2 {
        return None;
    }
    match number(&line[..2])? {
        1 => make(line),
        2 => register(line),
        3 => v_read(line),
        4 => v_cas(line),
        5 => take_snapshot(line),
        6 => read_snapshot(line),
        7 => total(line),
        8 => step(line),
        _ => None,
    }
}

// The frame of a line.
pub fn read_frame(line: &[u8]) -> Frame
    ensures { result ≡ frame_of line.now }
{
    asked(line).unwrap_or(Frame::Bad)
}

static GLYPHS: [u8; 16] = *b"0123456789abcdef";

// The lower-case hexadecimal digit of a number below 16.
fn glyph(number: u64) -> u8
    requires { number < 16 }
    ensures { result ≡ glyph_of number }
{
    GLYPHS[number as usize]
}

// The last digits of a number.
fn last_digits<const DIGITS: usize>(number: u64) -> [u8; DIGITS]
    ensures { result ≡ hex DIGITS number }
{
    let mut digits = [0; DIGITS];
    let mut left = number;
    for k in (0..DIGITS).rev() {
        digits[k] = glyph(left % 16);
        left /= 16;
    }
    digits
}

// The same, stored from a place on.
fn put_digits<const DIGITS: usize>(out: &mut [u8], at: usize, number: u64)
    requires { at + DIGITS ≤ length out.old }
    ensures { out.new ≡ sets out.old at (hex DIGITS number) }
{
    out[at..at + DIGITS].copy_from_slice(&last_digits::<DIGITS>(number));
}

// The sixteen digits of a value. Most values are 0, and most others small: their zeros go by constants. All digits by one
// call took 1.31 of C's time (bar 1.2).
fn put_value(out: &mut [u8], at: usize, value: u64)
    requires { at + 16 ≤ length out.old }
    ensures { out.new ≡ sets out.old at (hex 16 value) }
{
    match value {
        0 => put_digits::<16>(out, at, 0),
        1..=65535 => {
            put_digits::<12>(out, at, 0);
            put_digits::<4>(out, at + 12, value);
        }
        _ => put_digits::<16>(out, at, value),
    }
}

// How many bytes an answer line has.
pub const ANSWER_LENGTH: usize = 23;

// The answer line of an answer, stored from a place on. By put_digits and not by write!: one call for all digits of a value
// is too slow already (put_value).
pub fn put_answer(out: &mut [u8], at: usize, answer: Answer)
    requires { at + answer_length ≤ length out.old }
    ensures { out.new ≡ sets out.old at (answer_line answer) }
{
    put_digits::<2>(out, at, u64::from(answer.code));
    put_value(out, at + 2, answer.value);
    put_digits::<4>(out, at + 18, u64::from(answer.steps));
    out[at + 22] = b'\n';
}
