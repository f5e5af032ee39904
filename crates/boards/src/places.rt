// Where a row stands.
ghost use Rattle.std.specs.Prelude.{◌≡◌};
ghost use Rattle.boards.specs.Find.{place_of};
ghost use Rattle.boards.specs.Inner.Place.{row_place};

use crate::Board;

// The lowest row with this id, where one has it.
pub fn place_of(board: &Board, id: u64) -> Option<usize>
    ensures { result ≡ row_place (place_of id board.now.rows) }
{
    board.rows.iter().position(|row| row.id == id)
}
