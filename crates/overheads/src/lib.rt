// The verdict for steps that run to their end: r, and the inequality with it.
#![tactic(auto)]

ghost use Rattle.std.specs.Prelude.{◌≡◌};
ghost use Rattle.overheads.specs.ToEnd.{overhead_of, verdict_to_end, asked_to_end};

use boards::{Asking, Board};
use refusals::Answer;
use tables::MILLION;

// r: the longest execution over the shortest deadline of all standing nodes. Over the shortest the quotient is greatest, so each row's is taken, and
// no two fractions are compared, whose products would not fit a word.
fn overhead_of(asking: Asking) -> u64
    ensures { result ≡ overhead_of asking.entry.board.now.rows }
{
    let longest = boards::peaks_of(asking.board).longest;
    let mut overhead: u64 = 0;
    for row in &asking.board.rows {
        let quotient = shares::millionths(longest, row.over, row.shortest);
        overhead = overhead.max(quotient);
    }
    overhead
}

// Whether S + (m − 1) × M + m × r ≤ m × 1,000,000 for m cores.
fn verdict_to_end(asking: Asking) -> bool
    ensures { result ≡ verdict_to_end asking.entry.board.now.rows asking.entry.cores }
{
    let overhead = overhead_of(asking);
    asking.left_side(asking.load()) + asking.cores * overhead <= asking.cores * MILLION
}

// Asking for the one of steps that run to their end.
pub fn asked_to_end(board: &Board, cores: u64) -> Answer
    ensures { result ≡ asked_to_end board.now.rows cores }
{
    Answer::from(boards::asked_by(board, cores, verdict_to_end))
}
