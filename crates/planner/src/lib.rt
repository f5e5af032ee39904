// The public calls over lent buffers; `planner_c` exports them to C.
#![tactic(auto)]

ghost use Rattle.std.specs.Prelude.{◌≡◌, ◌≢◌, ◌<◌, length, IfOk, MatchOption};
ghost use Rattle.boards.specs.Row.{rows_max};
ghost use Rattle.boards.specs.Change.{changed, answer_to};
ghost use Rattle.planner.specs.Allows.{PlanAllows, NoteAllows, AdmitAllows, WithdrawAllows, AskAllows, AskToEndAllows, WriteAllows, MendAllows, GraphAllows, BuildingAllows, ReadPlanAllows, WritePlanAllows, JudgeAllows};

use boards::{Board, Change, ROWS, Row};
use buildings::Building;
use menders::Mending;
use refusals::{Answer, Refusal};

// The lent rows as a board, where there are 16.
fn board_of(lent: &[Row]) -> Option<Board>
    ensures { MatchOption result (length lent.now ≢ rows_max) (λ board. board.rows ≡ lent.now) }
{
    if lent.len() != ROWS {
        return None;
    }
    let mut board = Board::empty();
    board.rows.copy_from_slice(lent);
    Some(board)
}

// What a call answers; the one row that it changes is written at its place.
fn apply(board: &mut [Row], told: Result<Change, Refusal>) -> Answer
    requires { IfOk told (λ change. change.at < length board.old) }
    ensures { (result ≡ answer_to told) × (board.new ≡ changed board.old told) }
{
    match told {
        Ok(Change { at, row }) => {
            board[at] = row;
            Answer::accepted(at as u64)
        }
        Err(refusal) => Answer::refused(refusal),
    }
}

// Plans the task of a record, each step with the cost, into the words; the value is the number of words.
pub fn planner_plan(bytes: &[u8], words: &mut [u64], cost: u64) -> Answer
    ensures { PlanAllows bytes.now words.old cost (record { answer = result; lent = words.new }) }
{
    plans::plan(bytes, words, cost)
}

// Reads a record, plans its task, each step with the cost, into the words and puts it on the board; the value is the row filled.
pub fn planner_note(bytes: &[u8], words: &mut [u64], board: &mut [Row], cost: u64) -> Answer
    ensures { NoteAllows bytes.now words.old board.old cost (record { answer = result; lent = record { words = words.new; rows = board.new } }) }
{
    let Some(lent) = board_of(board) else {
        return Answer::refused(admissions::no_board(words.len(), cost));
    };
    let told = admissions::noting(bytes, words, &lent, cost);
    apply(board, told)
}

// The same for a gateway with so many cores: a task with which the verdict for them would be no is turned away.
pub fn planner_admit(
    bytes: &[u8],
    words: &mut [u64],
    board: &mut [Row],
    cores: u64,
    cost: u64,
) -> Answer
    ensures { AdmitAllows bytes.now words.old board.old cores cost (record { answer = result; lent = record { words = words.new; rows = board.new } }) }
{
    let Some(lent) = board_of(board) else {
        return Answer::refused(admissions::no_board(words.len(), cost)); // 15 comes after 17
    };
    let told = guards::admission(bytes, words, &lent, cores, cost);
    apply(board, told)
}

// Takes the task off the board; the value is the row freed.
pub fn planner_withdraw(board: &mut [Row], id: u64) -> Answer
    ensures { WithdrawAllows board.old id (record { answer = result; lent = board.new }) }
{
    let Some(lent) = board_of(board) else {
        return Answer::refused(boards::unsound());
    };
    let told = boards::withdrawn(&lent, id);
    apply(board, told)
}

// The verdict for a number of cores: the value is 1 for yes and 0 for no. The board is lent to be read, so its rows after the call are those before it.
pub fn planner_ask(board: &[Row], cores: u64) -> Answer
    ensures { AskAllows board.now cores (record { answer = result; lent = board.now }) }
{
    let Some(lent) = board_of(board) else {
        return Answer::refused(boards::unsound());
    };
    boards::asked(&lent, cores)
}

// The verdict for a number of cores where steps run to their end, answered and lent as planner_ask.
pub fn planner_ask_to_end(board: &[Row], cores: u64) -> Answer
    ensures { AskToEndAllows board.now cores (record { answer = result; lent = board.now }) }
{
    let Some(lent) = board_of(board) else {
        return Answer::refused(boards::unsound());
    };
    overheads::asked_to_end(&lent, cores)
}

// Writes the record of a task from its executions and its parent sets, one of each for a node; the value is the number of bytes.
pub fn planner_write_record(
    executions: &[u64],
    parents: &[u64],
    bytes: &mut [u8],
    edition: u64,
    id: u64,
    period: u64,
) -> Answer
    ensures { WriteAllows executions.now parents.now bytes.old edition id period (record { answer = result; lent = bytes.new }) }
{
    writers::write_record(executions, parents, bytes, edition, id, period)
}

// Mends the record that a sloppy editor wrote; the value is the number of bytes, and three counts stand beside the answer.
pub fn planner_mend(given: &[u8], bytes: &mut [u8]) -> Mending
    ensures { MendAllows given.now bytes.old (record { after = record { answer = result.answer; lent = bytes.new }; counts = result.counts }) }
{
    menders::mend(given, bytes)
}

// Reads the text of a Standard Task Graph and writes its record, with the caller's id and period; the value is the number of bytes.
pub fn planner_read_graph(text: &[u8], bytes: &mut [u8], id: u64, period: u64) -> Answer
    ensures { GraphAllows text.now bytes.old id period (record { answer = result; lent = bytes.new }) }
{
    graphs::write_graph(text, bytes, id, period)
}

// Walks a whole building's file and plans each of its records alone, with the cost; the value is the number of records, and the counts stand beside the answer.
pub fn planner_building(file: &[u8], cost: u64) -> Building
    ensures { BuildingAllows file.now cost result }
{
    buildings::count_building(file, cost)
}

// Reads a plan record into the words; the value is its id.
pub fn planner_read_plan(plan: &[u8], words: &mut [u64]) -> Answer
    ensures { ReadPlanAllows plan.now words.old (record { answer = result; lent = words.new }) }
{
    planreaders::read_plan(plan, words)
}

// Writes a plan's words as a plan record with an id; the value is the number of bytes.
pub fn planner_write_plan(words: &[u64], bytes: &mut [u8], id: u64) -> Answer
    ensures { WritePlanAllows words.now bytes.old id (record { answer = result; lent = bytes.new }) }
{
    planwriters::write_plan(words, bytes, id)
}

// Judges a supplier's plan record for a task record, each step with the cost; the value is the id, and the plan's words are written where it is accepted.
pub fn planner_judge(bytes: &[u8], plan: &[u8], words: &mut [u64], cost: u64) -> Answer
    ensures { JudgeAllows bytes.now plan.now words.old cost (record { answer = result; lent = words.new }) }
{
    let judging = judges::judge(bytes, plan, words, cost);
    Answer::from(judging.map(|judged| judged.id))
}
