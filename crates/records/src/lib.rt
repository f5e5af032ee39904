// Reads a task record.
#![tactic(auto)]

ghost use Rattle.std.specs.Prelude.{◌≡◌, ℕ, ◌+◌, ◌≤◌, List, length, Ok};
ghost use Rattle.tables.specs.Limits.{count_max};
ghost use Rattle.refusals.specs.Numbers.{number_of};
ghost use Rattle.refusals.specs.Refusal.{on_outcome};
ghost use Rattle.numbers.specs.Number.{worth};
ghost use Rattle.records.specs.Ranged.{step_of, whole_in, ranged_in, ranged};
ghost use Rattle.records.specs.Parents.{parents, parent_set};
ghost use Rattle.records.specs.Nodes.{table_read, no_table, with_table, nothing_follows, nodes};
ghost use Rattle.records.specs.Reading.{reading_of};
ghost use Rattle.records.specs.Inner.Reader.{step_to};

use numbers::{Fault, Number};
use refusals::{Reason, Refusal};
use tables::TaskTable;

// A value with the place after it.
#[derive(Clone, Copy, Debug, PartialEq, Eq)]
pub struct Read {
    pub value: u64,
    pub next: usize,
}

// What a record comes to. It is no `Result`: document 01 has a refusal come "from any reader of a table" with "a table that is all zeros".
#[derive(Clone, Copy)]
pub struct Reading {
    pub outcome: Result<(), Refusal>,
    pub table: TaskTable,
}

// What was found for the number at a place of an input of size bytes: its value with the place after it, or the refusal.
#[inline(always)]
pub fn step_of(found: Result<Number, Fault>, at: usize, size: usize) -> Result<Read, Refusal>
    requires { (v n : ℕ) → found ≡ Ok (worth v n) → at + n ≤ size }
    ensures { result ≡ step_of size at found }
{
    match found {
        Ok(number) => Ok(Read {
            value: number.value,
            next: at + number.length,
        }),
        Err(Fault::Ended) => Err(Reason::Ended.at(size)),
        Err(Fault::TooLong) => Err(Reason::TooLong.at(at)),
        Err(Fault::NotShortest(_)) => Err(Reason::NotShortest.at(at)),
    }
}

// The range of a number that was read whole at a place, whatever the input and however long its numbers may be. Any number may be told, not a `Reason` alone: a
// narrower parameter would ask more of callers.
#[inline(always)]
pub fn in_range(
    step: Result<Read, Refusal>,
    at: usize,
    broken: u64,
    low: u64,
    high: u64,
) -> Result<Read, Refusal>
    ensures { (more : ℕ) (bytes : List ℕ) → step ≡ whole_in more bytes at → result ≡ ranged_in more broken low high bytes at }
{
    let read = step?;
    if !(low..=high).contains(&read.value) {
        return Err(Refusal::of(broken, at));
    }
    Ok(read)
}

// After a table's last node: no byte follows, and its executions are not all zeros.
#[tactic(auto, unfolding(crate::specs::Nodes::nothing_follows))]
fn nothing_follows(bytes: &[u8], at: usize, table: &TaskTable) -> Result<(), Refusal>
    requires { table.now.count ≤ length table.now.execution }
    ensures { on_outcome no_table (table_read table.now) result ≡ nothing_follows table.now bytes.now at }
{
    if at < bytes.len() {
        return Err(Reason::BytesFollow.at(at));
    }
    if tables::all_zero(&table.execution, table.count) {
        return Err(Reason::NoneRuns.at(0));
    }
    Ok(())
}

// A record, and how far it was read.
#[derive(Clone, Copy)]
struct Reader<'a> {
    bytes: &'a [u8],
    at: usize,
    ghost inside: { at ≤ length bytes.now },
}

impl Reader<'_> {
    // The next number, whole, and only then its range. In line, with what it calls: out of line each number takes twice the instructions.
    #[inline(always)]
    fn read_ranged(&mut self, broken: Reason, low: u64, high: u64) -> Result<u64, Refusal>
        ensures step { step_to result self.new.at ≡ ranged (number_of broken) low high self.old.bytes.now self.old.at }
        ensures record { self.new.bytes ≡ self.old.bytes }
    {
        let at = self.at;
        let found = numbers::read_number(&self.bytes[at..]);
        let whole = step_of(found, at, self.bytes.len());
        let read = in_range(whole, at, broken.number(), low, high)?;
        self.at = read.next;
        Ok(read.value)
    }

    // As many parent numbers as count says, each below n and above the one before, as a set.
    fn read_parents(&mut self, count: u64, n: u64) -> Result<u64, Refusal>
        requires { (1 ≤ n) × (n ≤ count_max) × (count ≤ n) }
        ensures step { step_to result self.new.at ≡ parents count n 0 0 self.old.bytes.now self.old.at }
        ensures record { self.new.bytes ≡ self.old.bytes }
    {
        let mut low = 0;
        let mut set: u64 = 0;
        for _k in 0..count {
            let parent = self.read_ranged(Reason::BadParent, low, n - 1)?;
            set += 1 << parent;
            low = parent + 1;
        }
        Ok(set)
    }

    // The parent count, and that many parents.
    fn read_parent_set(&mut self, n: u64) -> Result<u64, Refusal>
        requires { (1 ≤ n) × (n ≤ count_max) }
        ensures step { step_to result self.new.at ≡ parent_set n self.old.bytes.now self.old.at }
        ensures record { self.new.bytes ≡ self.old.bytes }
    {
        let count = self.read_ranged(Reason::BadParent, 0, n)?;
        self.read_parents(count, n)
    }

    // The nodes of a table whose head was read, into it.
    fn read_nodes(&mut self, table: &mut TaskTable) -> Result<(), Refusal>
        requires { (1 ≤ table.old.count) × (table.old.count ≤ count_max) }
        ensures { on_outcome no_table (table_read table.new) result ≡ nodes table.old.count 0 table.old self.old.bytes.now self.old.at }
    {
        let n = table.count;
        let least = tables::least_execution(table.edition);
        for i in 0..n {
            let execution = self.read_ranged(
                Reason::BadExecution,
                least,
                TaskTable::EXECUTION_MAX,
            )?;
            let set = self.read_parent_set(n as u64)?;
            table.execution[i] = execution;
            table.parents[i] = set;
        }
        nothing_follows(self.bytes, self.at, table)
    }
}

// The table that a record holds, or the refusal of the first rule that it breaks.
pub fn read_table(bytes: &[u8]) -> Result<TaskTable, Refusal>
    ensures { with_table result ≡ reading_of bytes.now }
{
    let mut reader = Reader { bytes, at: 0 };
    let edition = reader.read_ranged(Reason::BadEdition, 1, TaskTable::EDITION_MAX)?;
    let id = reader.read_ranged(Reason::BadId, 1, TaskTable::ID_MAX)?;
    let period = reader.read_ranged(Reason::BadPeriod, 1, TaskTable::PERIOD_MAX)?;
    let count = reader.read_ranged(Reason::BadCount, 1, TaskTable::COUNT_MAX)?;
    let mut table = TaskTable {
        edition,
        id,
        period,
        count: count as usize,
        ..TaskTable::empty()
    };
    reader.read_nodes(&mut table)?;
    Ok(table)
}

// The same, with the table of zeros beside a refusal.
pub fn read_record(bytes: &[u8]) -> Reading
    ensures { result ≡ reading_of bytes.now }
{
    match read_table(bytes) {
        Ok(table) => Reading {
            outcome: Ok(()),
            table,
        },
        Err(refusal) => Reading {
            outcome: Err(refusal),
            table: TaskTable::empty(),
        },
    }
}
