// Noting a task: what changes on the board, and the plan's words.
#![tactic(auto)]

ghost use Rattle.std.specs.Prelude.{◌≡◌, ◌≤◌, ◌<◌, length, IfOk};
ghost use Rattle.tables.specs.Cost.{costed};
ghost use Rattle.tables.specs.Inner.Plannable.{Plannable};
ghost use Rattle.plans.specs.Words.{words_max};
ghost use Rattle.plans.specs.Calls.{on_table};
ghost use Rattle.boards.specs.Row.{rows_max};
ghost use Rattle.admissions.specs.Admission.{row_of, not_admitted, entered, noting};
ghost use Rattle.admissions.specs.Inner.NoBoard.{no_board};
ghost use Rattle.admissions.specs.Inner.PlanIn.{PlanIn};

use boards::{Board, Change, Row};
use plans::Planning;
use refusals::{Answer, Refusal};
use tables::TaskTable;

// How noting and admitting are refused where the board doesn't have 16 rows.
pub fn no_board(words: usize, cost: u64) -> Refusal
    ensures { result ≡ no_board words cost }
{
    let first = plans::before_reading(words, cost);
    first.err().unwrap_or(boards::unsound())
}

// The row of a task whose plan is in the words.
pub fn row_of(words: &[u64], id: u64, n: usize, planning: Planning) -> Row
    requires { (t : TaskTable) × PlanIn t id n planning words.now }
    ensures { (t : TaskTable) → PlanIn t id n planning words.now → result ≡ row_of t }
{
    let from = planning.words - 3 * n;
    let nodes = &words[from..];
    let figures = shares::figures_of(nodes, n);
    let shortest = shares::shortest_of(nodes, n);
    let over = words[0];
    Row {
        id,
        nodes: n as u64,
        sum: figures.sum,
        largest: figures.largest,
        longest: planning.longest,
        shortest,
        over,
    }
}

// Notes a task that was read. Its place is found first, since 12 and 13 look only at its id; they are told after 10 and 11, and the words are
// written only where none of the four is given.
fn note_table(
    words: &mut [u64],
    table: &TaskTable,
    board: &Board,
    cost: u64,
) -> Result<Change, Refusal>
    requires { Plannable (costed table.now cost) × (words_max ≤ length words.old) }
    ensures told { record { change = result; words = words.new } ≡ on_table (not_admitted words.old) (entered board.now.rows words.old) (costed table.now cost) }
    ensures inside { IfOk result (λ change. change.at < rows_max) }
{
    let place = boards::told_place(
        boards::place_of(board, table.id),
        boards::place_of(board, 0),
    );
    let later = Answer::from(place.and(Ok(0)));
    let planning = plans::plan_table(words, *table, cost, later)?;
    let at = place?;
    let row = row_of(words, table.id, table.count, planning);
    Ok(Change { at, row })
}

// Notes the task of a record, each step with the cost: 26, 16, 17, the reader's refusals, and then its table.
pub fn noting(bytes: &[u8], words: &mut [u64], board: &Board, cost: u64) -> Result<Change, Refusal>
    ensures told { record { change = result; words = words.new } ≡ noting bytes.now words.old board.now.rows cost }
    ensures inside { IfOk result (λ change. change.at < rows_max) }
{
    plans::before_reading(words.len(), cost)?;
    if !boards::is_sound(board) {
        return Err(boards::unsound());
    }
    let table = records::read_table(bytes)?;
    note_table(words, &table, board, cost)
}
