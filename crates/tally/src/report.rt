// What a run prints: the counts.
use crate::notes::{
    ABANDONED, ABANDONS, CATALOGUES, COMPARED, DIFFER, FIRST_AT, LONGEST, MOVES, PHASES, REFUSALS,
    ROUNDS, Row, SEED, get, move_place,
};
use std::io;
use std::ops::Range;

// Every move from phase to phase that document 01's steps have; 0 is idle.
static POSSIBLE: [(u32, u32); 56] = [
    // vRead
    (0, 1),
    (1, 2),
    (2, 3),
    (2, 5),
    (3, 4),
    (4, 5),
    (5, 0),
    // vCAS to line 46
    (0, 6),
    (6, 7),
    (7, 8),
    (7, 10),
    (8, 9),
    (9, 10),
    (10, 0),
    (10, 11),
    (11, 0),
    (11, 12),
    (12, 13),
    (12, 17),
    // won, or lost
    (13, 14),
    (13, 16),
    (14, 15),
    (15, 16),
    (16, 0),
    (17, 18),
    (18, 19),
    (19, 20),
    (19, 22),
    (20, 21),
    (21, 22),
    (22, 0),
    // takeSnapshot
    (0, 23),
    (23, 0),
    (23, 24),
    (24, 0),
    // readSnapshot
    (0, 25),
    (25, 26),
    (26, 27),
    (26, 29),
    (27, 28),
    (28, 29),
    (29, 29),
    (29, 0),
    // total
    (0, 30),
    (0, 35),
    (30, 30),
    (30, 31),
    (30, 35),
    (31, 32),
    (31, 34),
    (32, 33),
    (33, 34),
    (34, 30),
    (34, 34),
    (34, 35),
    (35, 0),
];

// How many counts of a row are not 0.
fn counted(tally: &[u64], row: Row) -> usize {
    tally
        .iter()
        .skip(row.start)
        .take(row.limit as usize)
        .filter(|&&count| count != 0)
        .count()
}

fn moves_met(tally: &[u64]) -> usize {
    POSSIBLE
        .iter()
        .filter(|&&(before, after)| get(tally, move_place(before, after)) != 0)
        .count()
}

fn moves(rt: &impl Print, tally: &[u64]) -> io::Result<()> {
    for &(before, after) in &POSSIBLE {
        let count = get(tally, move_place(before, after));
        println!(rt; "move {before} to {after}: {count}")?;
    }
    Ok(())
}

fn rows(
    rt: &impl Print,
    tally: &[u64],
    name: &str,
    row: Row,
    numbers: Range<u32>,
) -> io::Result<()> {
    for number in numbers {
        let count = get(tally, row.place(number));
        println!(rt; "{name} {number}: {count}")?;
    }
    Ok(())
}

// The longest operations, by the phase at which they finish.
fn longest(rt: &impl Print, tally: &[u64]) -> io::Result<()> {
    for (operation, phase) in [
        ("vRead", 5),
        ("vCAS that ended at 43", 10),
        ("vCAS that changed its item", 16),
        ("vCAS that lost", 22),
        ("takeSnapshot", 24),
        ("readSnapshot", 29),
        ("total", 35),
    ] {
        let steps = get(tally, LONGEST.place(phase));
        println!(rt; "longest {operation}: {steps}")?;
    }
    Ok(())
}

fn summary(rt: &impl Print, tally: &[u64]) -> io::Result<()> {
    for (text, at) in [
        ("seed", SEED),
        ("rounds", ROUNDS),
        ("catalogues made", CATALOGUES),
        ("answers compared", COMPARED),
        ("answers that differ", DIFFER),
        ("first difference at answer (0: none)", FIRST_AT),
    ] {
        let number = get(tally, at);
        println!(rt; "{text}: {number}")?;
    }
    Ok(())
}

fn coverage(rt: &impl Print, tally: &[u64]) -> io::Result<()> {
    let phases = counted(tally, PHASES);
    println!(rt; "phases entered, of 36: {phases}")?;
    let met = moves_met(tally);
    println!(rt; "moves met, of the 56 that there are: {met}")?;
    let moves = counted(tally, MOVES);
    println!(rt; "moves met, of all pairs of phases: {moves}")?;
    let refusals = counted(tally, REFUSALS);
    println!(rt; "refusals met, of 12: {refusals}")?;
    let abandons = get(tally, ABANDONS);
    println!(rt; "workers abandoned: {abandons}")?;
    let abandoned = counted(tally, ABANDONED);
    println!(rt; "phases at which one was, of 35: {abandoned}")
}

// The report, to its end or to a write that fails.
pub fn report(rt: &impl Print, tally: &[u64]) -> io::Result<()> {
    summary(rt, tally)?;
    coverage(rt, tally)?;
    longest(rt, tally)?;
    rows(rt, tally, "refusal", REFUSALS, 1..13)?;
    rows(rt, tally, "phase", PHASES, 0..36)?;
    rows(rt, tally, "abandoned at phase", ABANDONED, 1..36)?;
    moves(rt, tally)?;
    println!(rt; "end of the report")
}

// The line of a long run on standard error; one that can't be written is let go.
pub fn tell_progress(rt: &impl Eprint, tally: &[u64], left: u64) {
    let compared = get(tally, COMPARED);
    let differ = get(tally, DIFFER);
    let _ = eprintln!(rt; "soak: calls left {left}, answers compared {compared}, differ {differ}");
}
