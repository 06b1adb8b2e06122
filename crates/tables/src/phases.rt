// The fixed table of the machine's phases, consulted by step, by abandon and by the damage test.
ghost use Rattle.std.specs.Prelude.{[], ◌∷◌, ◌≡◌, ◌<◌};
ghost use Rattle.definitions.specs.Phases.{
  row_of,
  v_read_operation,
  v_cas_operation,
  take_snapshot_operation,
  read_snapshot_operation,
  total_operation,
  v_read_start,
  v_cas_start,
  published,
  lost,
  take_snapshot_start,
  read_snapshot_start,
  total_start,
  closing_phase,
};

use definitions::PhaseRow;

// The operations. No enum, of these and of the phases: a phase is a lent word, and the definitions (Phases) have both as these numbers.
pub const V_READ: u8 = 1;

pub const V_CAS: u8 = 2;

pub const TAKE_SNAPSHOT: u8 = 3;

pub const READ_SNAPSHOT: u8 = 4;

pub const TOTAL: u8 = 5;

// The phases at which an operation starts, those that line 46 goes to where it succeeds and where it fails, and a total's closing step, the last of all.
pub const V_READ_START: u32 = 1;

pub const V_CAS_START: u32 = 6;

pub const PUBLISHED: u32 = 13;

pub const LOST: u32 = 17;

pub const TAKE_SNAPSHOT_START: u32 = 23;

pub const READ_SNAPSHOT_START: u32 = 25;

pub const TOTAL_START: u32 = 30;

pub const CLOSING_PHASE: u32 = 35;

// No call asks for these two lists: their contracts tie each constant to its name in the definitions.
pub fn operations() -> [u8; 5]
    ensures { result ≡ v_read_operation ∷ v_cas_operation ∷ take_snapshot_operation ∷ read_snapshot_operation ∷ total_operation ∷ [] }
{
    [V_READ, V_CAS, TAKE_SNAPSHOT, READ_SNAPSHOT, TOTAL]
}

pub fn named_phases() -> [u32; 8]
    ensures { result ≡ v_read_start ∷ v_cas_start ∷ published ∷ lost ∷ take_snapshot_start ∷ read_snapshot_start ∷ total_start ∷ closing_phase ∷ [] }
{
    [
        V_READ_START,
        V_CAS_START,
        PUBLISHED,
        LOST,
        TAKE_SNAPSHOT_START,
        READ_SNAPSHOT_START,
        TOTAL_START,
        CLOSING_PHASE,
    ]
}

// Each phase's operation, source line, and whether it may answer; line 0 stands for idle and the closing step.
static PHASES: [(u8, u8, bool); 36] = [
    // idle
    (0, 0, false),
    // vRead
    (V_READ, 37, false),
    (V_READ, 20, false),
    (V_READ, 21, false),
    (V_READ, 22, false),
    (V_READ, 39, true),
    // vCAS
    (V_CAS, 41, false),
    (V_CAS, 20, false),
    (V_CAS, 21, false),
    (V_CAS, 22, false),
    (V_CAS, 43, true),
    (V_CAS, 45, false),
    (V_CAS, 46, false),
    (V_CAS, 20, false),
    (V_CAS, 21, false),
    (V_CAS, 22, false),
    (V_CAS, 48, true),
    (V_CAS, 50, false),
    (V_CAS, 51, false),
    (V_CAS, 20, false),
    (V_CAS, 21, false),
    (V_CAS, 22, false),
    (V_CAS, 52, true),
    // takeSnapshot
    (TAKE_SNAPSHOT, 5, false),
    (TAKE_SNAPSHOT, 6, true),
    // readSnapshot
    (READ_SNAPSHOT, 32, false),
    (READ_SNAPSHOT, 20, false),
    (READ_SNAPSHOT, 21, false),
    (READ_SNAPSHOT, 22, false),
    (READ_SNAPSHOT, 34, true),
    // total
    (TOTAL, 32, false),
    (TOTAL, 20, false),
    (TOTAL, 21, false),
    (TOTAL, 22, false),
    (TOTAL, 34, false),
    (TOTAL, 0, true),
];

// The table's entry at a phase that is known.
pub fn row_at(phase: usize) -> PhaseRow
    requires { phase < 36 }
    ensures { result ≡ row_of phase }
{
    let (operation, line, may_answer) = PHASES[phase];
    PhaseRow {
        operation,
        line,
        may_answer,
    }
}
