// Which boards are sound: those that pass densities_sound and times_sound.
ghost use Rattle.std.specs.Prelude.{◌≡◌, ◌<◌};
ghost use Rattle.plain.specs.At.{at};
ghost use Rattle.boards.specs.Row.{rows_max};
ghost use Rattle.boards.specs.Sound.{is_bare, is_untimed, is_dense, is_timed, is_new, is_sound};
ghost use Rattle.boards.specs.Inner.Halves.{densities_fit, times_fit, densities_sound, times_sound};

use crate::{Board, ROWS, Row};
use tables::TaskTable;

// Limits of specs/: the greatest density in millionths, the greatest execution with its cost, and the greatest Q.
const DENSITY_MAX: u64 = 2_000_000;

const RUN_MAX: u64 = TaskTable::EXECUTION_MAX + TaskTable::COST_MAX;

const OVER_MAX: u64 = 2 * TaskTable::COUNT_MAX * RUN_MAX;

// Whether the row has no task and no densities.
fn is_bare(row: &Row) -> bool
    ensures { result ≡ is_bare row.now }
{
    row.id == 0 && row.nodes == 0 && row.sum == 0 && row.largest == 0
}

// Whether it has no times.
fn is_untimed(row: &Row) -> bool
    ensures { result ≡ is_untimed row.now }
{
    row.longest == 0 && row.shortest == 0 && row.over == 0
}

// Whether id, nodes and densities have the ranges of a standing task. The product is asked for once its factors are in theirs.
fn is_dense(row: &Row) -> bool
    ensures { result ≡ is_dense row.now }
{
    (1..=TaskTable::ID_MAX).contains(&row.id)
        && (1..=TaskTable::COUNT_MAX).contains(&row.nodes)
        && (1..=DENSITY_MAX).contains(&row.largest)
        && (row.largest..=row.nodes * row.largest).contains(&row.sum)
}

// Whether its times have theirs. The shortest deadline is bounded before it is doubled.
fn is_timed(row: &Row) -> bool
    ensures { result ≡ is_timed row.now }
{
    (1..=RUN_MAX).contains(&row.longest)
        && (1..=OVER_MAX).contains(&row.over)
        && row.shortest <= TaskTable::PERIOD_MAX * row.over
        && row.over <= 2 * row.shortest
}

// Whether it has no task and no densities, or both in their ranges.
#[tactic(auto, unfolding(crate::specs::Inner::Halves::densities_fit))]
fn densities_fit(row: &Row) -> bool
    ensures { result ≡ densities_fit row.now }
{
    is_bare(row) || is_dense(row)
}

// Whether it has no times where there is no task, and else times in their ranges.
#[tactic(auto, unfolding(crate::specs::Inner::Halves::times_fit))]
fn times_fit(row: &Row) -> bool
    ensures { result ≡ times_fit row.now }
{
    if row.id == 0 {
        is_untimed(row)
    } else {
        is_timed(row)
    }
}

// Whether no earlier entry is entry k's id; id 0 doesn't count.
fn is_new(ids: &[u64; ROWS], k: usize) -> bool
    requires { k < rows_max }
    ensures { result ≡ is_new (at ids.now) k }
{
    let own = ids[k];
    own == 0 || ids[..k].iter().all(|id| *id != own)
}

// Whether ids and densities of every row are sound, and no id stands twice. An id whose remainder by 64 is new is new; any other is compared with the
// ids before it.
pub fn densities_sound(board: &Board) -> bool
    ensures { result ≡ densities_sound board.now.rows }
{
    let mut ids = [0u64; ROWS];
    let mut remainders: u64 = 0;
    for (k, row) in board.rows.iter().enumerate() {
        if !densities_fit(row) {
            return false;
        }
        ids[k] = row.id;
        let remainder = (row.id % 64) as usize;
        if sets::is_member(remainders, remainder) && !is_new(&ids, k) {
            return false;
        }
        remainders = sets::with_member(remainders, remainder);
    }
    true
}

// Whether the times of every row are sound.
pub fn times_sound(board: &Board) -> bool
    ensures { result ≡ times_sound board.now.rows }
{
    board.rows.iter().all(times_fit)
}

// Whether the board is: the cheaper half is asked first.
pub fn is_sound(board: &Board) -> bool
    ensures { result ≡ is_sound board.now.rows }
{
    densities_sound(board) && times_sound(board)
}
