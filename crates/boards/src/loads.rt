// S and M of a board, and the left side of a verdict.
ghost use Rattle.std.specs.Prelude.{◌≡◌};
ghost use Rattle.boards.specs.Inner.Load.{Tallied, Bounded, left_side};

use crate::asking::Asking;
use crate::verdicts::{peaks_of, sum_of};

// The sum of all densities and the largest of them.
#[derive(Clone, Copy, Debug, PartialEq, Eq)]
pub struct Load {
    pub sum: u64,
    pub largest: u64,
}

impl Asking<'_> {
    // Those of the board.
    pub fn load(self) -> Load
        ensures tallied { Tallied self.entry.board.now.rows result }
        ensures bounded { Bounded result }
    {
        let sum = sum_of(self.board);
        let largest = peaks_of(self.board).largest;
        Load { sum, largest }
    }

    // S + (m − 1) × M for a load on m cores.
    pub fn left_side(self, load: Load) -> u64
        requires { Bounded load }
        ensures { result ≡ left_side load self.entry.cores }
    {
        load.sum + (self.cores - 1) * load.largest
    }
}
