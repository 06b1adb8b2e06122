// Document 01's generator. Its sum and its product wrap at 32 bits, and the library supplies both.
#![tactic(auto)]

ghost use Rattle.std.specs.Prelude.{◌≡◌, ◌*◌, ◌%◌};
ghost use Rattle.random.specs.Generator.{next_of, draw_of, draw_among};

// The product, wrapping at 32 bits.
pub fn wrapping_mul(x: u32, y: u32) -> u32
    ensures { result ≡ (x * y) % 4294967296 }
{
    x.wrapping_mul(y)
}

// The generator's number after x.
pub fn next(x: u32) -> u32
    ensures { result ≡ next_of x }
{
    wrapping_mul(1664525, x).wrapping_add(1013904223)
}

// The draw that the generator's number x gives.
pub fn draw(x: u32) -> u32
    ensures { result ≡ draw_of x }
{
    x / 65536
}

// That draw among some: which worker steps next, where there are that many workers. Among none it is 0, as its definition says.
pub fn draw_among(x: u32, some: u32) -> u32
    ensures { result ≡ draw_among x some }
{
    draw(x).checked_rem(some).unwrap_or(0)
}
