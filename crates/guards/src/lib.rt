// Admitting a task for a number of cores. Its plan is made beside the lent words and copied in once the task is kept, so that a task that is turned
// away has written nothing.
#![tactic(auto)]

ghost use Rattle.std.specs.Prelude.{◌≡◌, ◌+◌, ◌*◌, ◌≤◌, ◌<◌, Ok, Err, IfOk, max, leb, length};
ghost use Rattle.plain.specs.Pick.{pick};
ghost use Rattle.refusals.specs.Numbers.{verdict_no};
ghost use Rattle.refusals.specs.Refusal.{refusal};
ghost use Rattle.tables.specs.Limits.{million};
ghost use Rattle.tables.specs.Cost.{costed};
ghost use Rattle.tables.specs.Inner.Plannable.{Plannable};
ghost use Rattle.plans.specs.Words.{words_max};
ghost use Rattle.plans.specs.Calls.{on_table};
ghost use Rattle.boards.specs.Row.{rows_max};
ghost use Rattle.boards.specs.Inner.Load.{sums_max, Bounded, left_side};
ghost use Rattle.admissions.specs.Admission.{not_admitted};
ghost use Rattle.guards.specs.Guarded.{guarded_entry, admission};

use boards::{Asking, Board, Change, Load, Row};
use refusals::{Answer, Reason, Refusal};
use tables::{MILLION, TaskTable};

// S and M with one more row: a free row has 0 for both, so the task's own are put beside them.
fn loaded(load: Load, row: Row) -> Load
    requires { load.sum + row.sum ≤ sums_max }
    ensures { (result.sum ≡ load.sum + row.sum) × (result.largest ≡ max load.largest row.largest) }
{
    Load {
        sum: load.sum + row.sum,
        largest: load.largest.max(row.largest),
    }
}

// 20 where the verdict on S and M is no.
fn guard(asking: Asking, load: Load) -> Result<(), Refusal>
    requires { Bounded load }
    ensures { result ≡ pick (leb (left_side load asking.entry.cores) (asking.entry.cores * million)) (Ok tt) (Err (refusal verdict_no 0)) }
{
    if asking.left_side(load) <= asking.cores * MILLION {
        Ok(())
    } else {
        Err(Reason::VerdictNo.at(0))
    }
}

// Admits a task that was read, as it is noted, unless the verdict with it would be no.
fn admit_table(
    words: &mut [u64],
    table: &TaskTable,
    asking: Asking,
    cost: u64,
) -> Result<Change, Refusal>
    requires { Plannable (costed table.now cost) × (words_max ≤ length words.old) }
    ensures told { record { change = result; words = words.new } ≡ on_table (not_admitted words.old) (guarded_entry asking.entry.board.now.rows words.old asking.entry.cores) (costed table.now cost) }
    ensures inside { IfOk result (λ change. change.at < rows_max) }
{
    let board = asking.board;
    let place = boards::told_place(
        boards::place_of(board, table.id),
        boards::place_of(board, 0),
    );
    let later = Answer::from(place.and(Ok(0)));
    let mut beside = [0u64; plans::WORDS_MAX];
    let planning = plans::plan_table(&mut beside, *table, cost, later)?;
    let row = admissions::row_of(&beside, table.id, table.count, planning);
    let load = asking.load();
    let next = loaded(load, row);
    let verdict = guard(asking, next);
    let at = verdict.and(place)?;
    let plan = &beside[..planning.words];
    words[..planning.words].copy_from_slice(plan);
    Ok(Change { at, row })
}

// Admits the task of a record for so many cores, each step with the cost: 26, 16, then 17, 15, the reader's refusals, and then its table.
pub fn admission(
    bytes: &[u8],
    words: &mut [u64],
    board: &Board,
    cores: u64,
    cost: u64,
) -> Result<Change, Refusal>
    ensures told { record { change = result; words = words.new } ≡ admission bytes.now words.old board.now.rows cores cost }
    ensures inside { IfOk result (λ change. change.at < rows_max) }
{
    plans::before_reading(words.len(), cost)?;
    let asking = Asking::of(board, cores)?;
    let table = records::read_table(bytes)?;
    admit_table(words, &table, asking, cost)
}
