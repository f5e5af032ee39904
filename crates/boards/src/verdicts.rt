// The verdict of a sound board.
ghost use Rattle.std.specs.Prelude.{◌≡◌};
ghost use Rattle.boards.specs.Sound.{Sound};
ghost use Rattle.boards.specs.Verdict.{sum_of, largest_of, longest_of, verdict};

use crate::Board;
use crate::asking::Asking;
use tables::MILLION;

// S: the sum over all standing nodes.
pub fn sum_of(board: &Board) -> u64
    requires { Sound board.now.rows }
    ensures { result ≡ sum_of board.now.rows }
{
    board.rows.iter().map(|row| row.sum).sum()
}

// The largest density and the longest execution.
#[derive(Clone, Copy, Debug, PartialEq, Eq)]
pub struct Peaks {
    pub largest: u64,
    pub longest: u64,
}

// M, the largest density of all standing nodes, and the longest of their executions.
pub fn peaks_of(board: &Board) -> Peaks
    ensures { (result.largest ≡ largest_of board.now.rows) × (result.longest ≡ longest_of board.now.rows) }
{
    let largest = board.rows.iter().map(|row| row.largest).max().unwrap_or(0);
    let longest = board.rows.iter().map(|row| row.longest).max().unwrap_or(0);
    Peaks { largest, longest }
}

// Whether S + (m − 1) × M ≤ m × 1,000,000 for m cores.
pub fn verdict_for(asking: Asking) -> bool
    ensures { result ≡ verdict asking.entry.board.now.rows asking.entry.cores }
{
    asking.left_side(asking.load()) <= asking.cores * MILLION
}
