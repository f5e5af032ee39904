// The thirteen calls of `planner`, exported to C: each calls the function of its name and states its clause again.
#![tactic(auto)]

ghost use Rattle.std.specs.Prelude.{◌≡◌};
ghost use Rattle.planner.specs.Allows.{PlanAllows, NoteAllows, AdmitAllows, WithdrawAllows, AskAllows, AskToEndAllows, WriteAllows, MendAllows, GraphAllows, BuildingAllows, ReadPlanAllows, WritePlanAllows, JudgeAllows};

use boards::Row;
use buildings::Building;
use menders::Mending;
use refusals::Answer;

// Plans the task of a record, each step with the cost, into the words; the value is the number of words.
#[unsafe(no_mangle)]
pub extern "C" fn planner_plan(bytes: &[u8], words: &mut [u64], cost: u64) -> Answer
    ensures { PlanAllows bytes.now words.old cost (record { answer = result; lent = words.new }) }
{
    planner::planner_plan(bytes, words, cost)
}

// Reads a record, plans its task, each step with the cost, into the words and puts it on the board; the value is the row filled.
#[unsafe(no_mangle)]
pub extern "C" fn planner_note(
    bytes: &[u8],
    words: &mut [u64],
    board: &mut [Row],
    cost: u64,
) -> Answer
    ensures { NoteAllows bytes.now words.old board.old cost (record { answer = result; lent = record { words = words.new; rows = board.new } }) }
{
    planner::planner_note(bytes, words, board, cost)
}

// The same for a gateway with so many cores: a task with which the verdict for them would be no is turned away.
#[unsafe(no_mangle)]
pub extern "C" fn planner_admit(
    bytes: &[u8],
    words: &mut [u64],
    board: &mut [Row],
    cores: u64,
    cost: u64,
) -> Answer
    ensures { AdmitAllows bytes.now words.old board.old cores cost (record { answer = result; lent = record { words = words.new; rows = board.new } }) }
{
    planner::planner_admit(bytes, words, board, cores, cost)
}

// Takes the task off the board; the value is the row freed.
#[unsafe(no_mangle)]
pub extern "C" fn planner_withdraw(board: &mut [Row], id: u64) -> Answer
    ensures { WithdrawAllows board.old id (record { answer = result; lent = board.new }) }
{
    planner::planner_withdraw(board, id)
}

// The verdict for a number of cores: the value is 1 for yes and 0 for no. The board is lent to be read, so its rows after the call are those before it.
#[unsafe(no_mangle)]
pub extern "C" fn planner_ask(board: &[Row], cores: u64) -> Answer
    ensures { AskAllows board.now cores (record { answer = result; lent = board.now }) }
{
    planner::planner_ask(board, cores)
}

// The verdict for a number of cores where steps run to their end, answered and lent as planner_ask.
#[unsafe(no_mangle)]
pub extern "C" fn planner_ask_to_end(board: &[Row], cores: u64) -> Answer
    ensures { AskToEndAllows board.now cores (record { answer = result; lent = board.now }) }
{
    planner::planner_ask_to_end(board, cores)
}

// Writes the record of a task from its executions and its parent sets, one of each for a node; the value is the number of bytes.
#[unsafe(no_mangle)]
pub extern "C" fn planner_write_record(
    executions: &[u64],
    parents: &[u64],
    bytes: &mut [u8],
    edition: u64,
    id: u64,
    period: u64,
) -> Answer
    ensures { WriteAllows executions.now parents.now bytes.old edition id period (record { answer = result; lent = bytes.new }) }
{
    planner::planner_write_record(executions, parents, bytes, edition, id, period)
}

// Mends the record that a sloppy editor wrote; the value is the number of bytes, and three counts stand beside the answer.
#[unsafe(no_mangle)]
pub extern "C" fn planner_mend(given: &[u8], bytes: &mut [u8]) -> Mending
    ensures { MendAllows given.now bytes.old (record { after = record { answer = result.answer; lent = bytes.new }; counts = result.counts }) }
{
    planner::planner_mend(given, bytes)
}

// Reads the text of a Standard Task Graph and writes its record, with the caller's id and period; the value is the number of bytes.
#[unsafe(no_mangle)]
pub extern "C" fn planner_read_graph(text: &[u8], bytes: &mut [u8], id: u64, period: u64) -> Answer
    ensures { GraphAllows text.now bytes.old id period (record { answer = result; lent = bytes.new }) }
{
    planner::planner_read_graph(text, bytes, id, period)
}

// Walks a whole building's file and plans each of its records alone, with the cost; the value is the number of records, and the counts stand beside the answer.
#[unsafe(no_mangle)]
pub extern "C" fn planner_building(file: &[u8], cost: u64) -> Building
    ensures { BuildingAllows file.now cost result }
{
    planner::planner_building(file, cost)
}

// Reads a plan record into the words; the value is its id.
#[unsafe(no_mangle)]
pub extern "C" fn planner_read_plan(plan: &[u8], words: &mut [u64]) -> Answer
    ensures { ReadPlanAllows plan.now words.old (record { answer = result; lent = words.new }) }
{
    planner::planner_read_plan(plan, words)
}

// Writes a plan's words as a plan record with an id; the value is the number of bytes.
#[unsafe(no_mangle)]
pub extern "C" fn planner_write_plan(words: &[u64], bytes: &mut [u8], id: u64) -> Answer
    ensures { WritePlanAllows words.now bytes.old id (record { answer = result; lent = bytes.new }) }
{
    planner::planner_write_plan(words, bytes, id)
}

// Judges a supplier's plan record for a task record, each step with the cost; the value is the id, and the plan's words are written where it is accepted.
#[unsafe(no_mangle)]
pub extern "C" fn planner_judge(bytes: &[u8], plan: &[u8], words: &mut [u64], cost: u64) -> Answer
    ensures { JudgeAllows bytes.now plan.now words.old cost (record { answer = result; lent = words.new }) }
{
    planner::planner_judge(bytes, plan, words, cost)
}
