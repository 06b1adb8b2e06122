// Document 01's generator, whose number stands in the notes (a slice of any length: notes.rt).
ghost use Rattle.std.specs.Prelude.{◌≡◌, ◌%◌, ◌^◌};

use crate::notes::{STATE, get, put};

// A number of the notes or the model, cut to 32 bits: the library has no cast that cuts.
pub fn narrow(x: usize) -> u32
    ensures { result ≡ x % 2 ^ 32 }
{
    (x & 0xffff_ffff) as u32
}

fn advance(tally: &mut [u64]) -> u32 {
    let x = random::next(narrow(get(tally, STATE) as usize));
    put(tally, STATE, u64::from(x));
    x
}

// A draw of 16 bits.
pub fn draw(tally: &mut [u64]) -> u32 {
    random::draw(advance(tally))
}

// A draw among some: 0 to some - 1, and 0 among none.
pub fn among(tally: &mut [u64], some: u32) -> u32 {
    random::draw_among(advance(tally), some)
}

// 1 to some.
pub fn from_one(tally: &mut [u64], some: u32) -> u32 {
    among(tally, some).wrapping_add(1)
}

// Whether something happens that happens one time in some.
pub fn once_in(tally: &mut [u64], some: u32) -> bool {
    among(tally, some) == 0
}

// A draw of 32 bits.
pub fn wide_draw(tally: &mut [u64]) -> u32 {
    let high = draw(tally);
    (high << 16) | draw(tally)
}
