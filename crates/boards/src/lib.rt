// The board: which boards are sound, where a row stands, the verdict, and what each call changes.
#![tactic(auto)]

ghost use Rattle.std.specs.Prelude.{◌≡◌, replicate};
ghost use Rattle.boards.specs.Row.{free_row, rows_max};

mod asking;
mod changes;
mod loads;
mod places;
mod soundness;
mod verdicts;

pub use asking::{Asking, asked, asked_by, before_asking};
pub use changes::{told_place, unsound, with_row, withdrawn};
pub use loads::Load;
pub use places::place_of;
pub use soundness::{densities_sound, is_sound, times_sound};
pub use verdicts::{Peaks, peaks_of, sum_of};

// Limit of specs/: the rows of a board.
pub const ROWS: usize = 16;

#[repr(C)]
#[derive(Clone, Copy, Debug, PartialEq, Eq, Default)]
pub struct Row {
    pub id: u64,
    pub nodes: u64,
    pub sum: u64,
    pub largest: u64,
    pub longest: u64,
    pub shortest: u64,
    pub over: u64,
}

#[derive(Clone, Copy, Debug, PartialEq, Eq)]
pub struct Board {
    pub rows: [Row; ROWS],
}

// One row, and the place to write it at.
#[derive(Clone, Copy, Debug, PartialEq, Eq)]
pub struct Change {
    pub at: usize,
    pub row: Row,
}

impl Row {
    pub fn free() -> Self
        ensures { result ≡ free_row }
    {
        Self::default()
    }
}

impl Board {
    pub fn empty() -> Self
        ensures { result.rows ≡ replicate rows_max free_row }
    {
        Self {
            rows: [Row::free(); ROWS],
        }
    }
}
