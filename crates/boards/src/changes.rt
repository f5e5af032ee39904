// What each call on a board changes.
ghost use Rattle.std.specs.Prelude.{◌≡◌, ◌<◌, set, IfOk};
ghost use Rattle.refusals.specs.Numbers.{unsound_board};
ghost use Rattle.refusals.specs.Refusal.{refusal};
ghost use Rattle.boards.specs.Row.{rows_max};
ghost use Rattle.boards.specs.Change.{withdrawn};
ghost use Rattle.boards.specs.Inner.Place.{told_place};

use crate::places::place_of;
use crate::soundness::is_sound;
use crate::{Board, Change, Row};
use refusals::{Reason, Refusal};

// The board with one row written.
pub fn with_row(mut board: Board, at: usize, row: Row) -> Board
    requires { at < rows_max }
    ensures { result.rows ≡ set board.rows at row }
{
    board.rows[at] = row;
    board
}

// The refusal of a board that isn't sound.
pub fn unsound() -> Refusal
    ensures { result ≡ refusal unsound_board 0 }
{
    Reason::UnsoundBoard.at(0)
}

// Where a task may go, by the row at which its id stands and the lowest free one: 12, 13, else the latter.
pub fn told_place(standing: Option<usize>, free: Option<usize>) -> Result<usize, Refusal>
    ensures { result ≡ told_place standing free }
{
    if standing.is_some() {
        return Err(Reason::IdStands.at(0));
    }
    free.ok_or(Reason::BoardFull.at(0))
}

// The row with this id becomes free.
#[tactic(auto, unfolding(crate::specs::Change::withdrawn))]
pub fn withdrawn(board: &Board, id: u64) -> Result<Change, Refusal>
    ensures told { result ≡ withdrawn board.now.rows id }
    ensures inside { IfOk result (λ change. change.at < rows_max) }
{
    if !is_sound(board) {
        return Err(unsound());
    }
    if id == 0 {
        return Err(Reason::NotStanding.at(0));
    }
    let Some(at) = place_of(board, id) else {
        return Err(Reason::NotStanding.at(0));
    };
    let row = Row::free();
    Ok(Change { at, row })
}
