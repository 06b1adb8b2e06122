// From a row of the table of phases to its line. By a match and no table of functions or closures: the definitions have the same switches (specs/Dispatch),
// arm by arm.
ghost use Rattle.std.specs.Prelude.{◌≡◌, ℕ, ◌+◌, ◌*◌, ◌≤◌, length};
ghost use Rattle.definitions.specs.Cells.{cells_at};
ghost use Rattle.tables.specs.Ranges.{HasRecord, kept_at};
ghost use Rattle.endings.specs.Ended.{answered, Reads};
ghost use Rattle.endings.specs.Stepped.{StepsAt};
ghost use Rattle.steps.specs.Dispatch.{snapshot_line, line_32_of, later_line, by_number, by_row, Later, FitAt, RowStepsAt};

use change::{line_43, line_46, line_48, line_50, line_52};
use definitions::{Answer, PhaseRow};
use endings::reason::Reason;
use endings::site::Site;
use help::{fetch_head, line_20, line_21, line_22};
use lines::snapshot::{line_5, line_6};
use lines::vread::line_39;
use tables::damage::kept_at_line_is_damaged;
use tables::phases::{TAKE_SNAPSHOT, TOTAL};
use take::line_45;
use walk::total::{closing_step, line_34, total_32};

// What the record keeps for a line is not damaged. A step asks this where the line is known, so that it asks no more than that line's own tests.
fn check_kept(words: &[u32], site: Site, line: u8) -> Result<(), Reason>
    requires { HasRecord site.worker words.now }
    ensures { Reads (kept_at line (cells_at site.items_at site.nodes_at words.now) site.worker) tt result }
{
    if kept_at_line_is_damaged(words, site.worker, line) {
        return Err(Reason::Damaged);
    }
    Ok(())
}

// takeSnapshot's two lines.
fn run_snapshot_line(words: &mut [u32], site: Site, row: PhaseRow) -> Result<Answer, Reason>
    requires { FitAt site row words.old × ((row.line ≡ 5 → ⊥) → row.line ≡ 6) }
    ensures { RowStepsAt row (snapshot_line row.line) site words.old (answered result) words.new }
{
    if row.line == 5 {
        return Ok(line_5(words, site));
    }
    check_kept(words, site, 6)?;
    Ok(line_6(words, site))
}

// Line 32, of readSnapshot or total.
fn run_line_32(words: &mut [u32], site: Site, row: PhaseRow) -> Answer
    requires { FitAt site row words.old × (row.operation ≡ 3 → ⊥) × (row.line ≡ 32) }
    ensures { StepsAt (line_32_of row.operation) site words.old result words.new }
{
    if row.operation == TOTAL {
        return total_32(words, site);
    }
    fetch_head(words, site)
}

// The lines after a value is read: 39 of vRead, 43 to 52 of vCAS but 51, and a total's closing step.
fn run_later_line(words: &mut [u32], site: Site, row: PhaseRow) -> Result<Answer, Reason>
    requires { FitAt site row words.old × (row.operation ≡ 3 → ⊥) × Later row.line }
    ensures { RowStepsAt row (later_line row.line) site words.old (answered result) words.new }
{
    let line = row.line;
    match line {
        39 => {
            check_kept(words, site, 39)?;
            line_39(words, site)
        }
        43 => {
            check_kept(words, site, 43)?;
            line_43(words, site)
        }
        45 => {
            check_kept(words, site, 45)?;
            line_45(words, site)
        }
        46 => {
            check_kept(words, site, 46)?;
            Ok(line_46(words, site))
        }
        48 => Ok(line_48(words, site)),
        50 => {
            check_kept(words, site, 50)?;
            line_50(words, site)
        }
        52 => Ok(line_52(words, site)),
        _ => Ok(closing_step(words, site)),
    }
}

// Fetching a head, help, and line 34; and every later line.
fn run_numbered_line(words: &mut [u32], site: Site, row: PhaseRow) -> Result<Answer, Reason>
    requires { FitAt site row words.old × (row.operation ≡ 3 → ⊥) × (row.line ≡ 6 → ⊥) }
    ensures { RowStepsAt row (by_number row.operation row.line) site words.old (answered result) words.new }
{
    let line = row.line;
    match line {
        20 => {
            check_kept(words, site, 20)?;
            line_20(words, site)
        }
        21 => {
            check_kept(words, site, 21)?;
            Ok(line_21(words, site))
        }
        22 => {
            check_kept(words, site, 22)?;
            line_22(words, site)
        }
        32 => Ok(run_line_32(words, site, row)),
        34 => {
            check_kept(words, site, 34)?;
            line_34(words, site, row.operation)
        }
        37 | 41 | 51 => Ok(fetch_head(words, site)),
        _ => run_later_line(words, site, row),
    }
}

// The line of a busy phase's row.
pub fn run_row(words: &mut [u32], site: Site, row: PhaseRow) -> Result<Answer, Reason>
    requires { FitAt site row words.old × (row.operation ≡ 0 → ⊥) × (row.operation ≡ 3 → (row.line ≡ 5 → ⊥) → row.line ≡ 6) × ((row.operation ≡ 3 → ⊥) → row.line ≡ 6 → ⊥) }
    ensures { RowStepsAt row (by_row row) site words.old (answered result) words.new }
{
    if row.operation == TAKE_SNAPSHOT {
        return run_snapshot_line(words, site, row);
    }
    run_numbered_line(words, site, row)
}
