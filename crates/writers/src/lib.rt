// Writes a task record. Its numbers are all tried before the first byte is written, so that a refusal has written nothing.
#![tactic(auto)]

ghost use Rattle.std.specs.Prelude.{◌≡◌, ℕ, ◌+◌, ◌≤◌, Ok, length, take};
ghost use Rattle.plain.specs.At.{at};
ghost use Rattle.refusals.specs.Numbers.{number_of};
ghost use Rattle.refusals.specs.Answer.{answered};
ghost use Rattle.tables.specs.Limits.{edition_max, id_max, period_max, count_max, execution_max};
ghost use Rattle.sets.specs.Members.{members};
ghost use Rattle.numbers.specs.Shortest.{shortest};
ghost use Rattle.numbers.specs.Inner.Word.{word_more};
ghost use Rattle.writers.specs.Record.{numbers_written, node_numbers};
ghost use Rattle.writers.specs.Writing.{table_of, unless, before_writing, outcome_of, writing, write_call};
ghost use Rattle.writers.specs.Inner.Trial.{place_max, node_max, tried, parents_tried, node_tried, nodes_tried, head_tried, record_tried};
ghost use Rattle.writers.specs.Inner.Parts.{head_numbers, nodes_to};
ghost use Rattle.writers.specs.Inner.Puts.{Room, Puts};

use refusals::{Answer, Reason, Refusal};
use sets::Members;
use tables::TaskTable;

// The number at a place, tried in its range; as all that is tried here, it tells the place after it. Bounds on a place and on the node count stay clauses
// here and
// below: they are known only once the count was tried, so a type of their own would be made in one place alone, which is no plainer.
fn try_number(
    place: usize,
    value: u64,
    broken: Reason,
    low: u64,
    high: u64,
) -> Result<usize, Refusal>
    requires { place ≤ place_max }
    ensures { result ≡ tried (number_of broken) low high value (Ok place) }
{
    let next = place + numbers::length_of(value);
    if !(low..=high).contains(&value) {
        return Err(broken.at(place));
    }
    Ok(next)
}

// A node's parents: those that are nodes come first, a byte each, so the first that is none stands after them.
fn try_parents(place: usize, set: u64, n: usize) -> Result<usize, Refusal>
    requires { (place ≤ place_max) × (n ≤ count_max) }
    ensures { result ≡ parents_tried n set (Ok place) }
{
    let nodes = sets::size_of(set & sets::all_below(n));
    let next = place + nodes as usize;
    if nodes < sets::size_of(set) {
        return Err(Reason::BadParent.at(next));
    }
    Ok(next)
}

// A node's execution, its parent count and its parents.
fn try_node(place: usize, execution: u64, set: u64, least: u64, n: usize) -> Result<usize, Refusal>
    requires { (place + node_max ≤ place_max) × (n ≤ count_max) }
    ensures { result ≡ node_tried least n execution set (Ok place) }
{
    let longest = TaskTable::EXECUTION_MAX;
    let count_at = try_number(place, execution, Reason::BadExecution, least, longest)?;
    let parents_at = try_number(count_at, sets::size_of(set), Reason::BadParent, 0, n as u64)?;
    try_parents(parents_at, set, n)
}

// A rule: where it is broken, its refusal.
fn unless(broken: bool, reason: Reason, place: usize) -> Result<(), Refusal>
    ensures { result ≡ unless broken (number_of reason) place }
{
    if broken {
        return Err(reason.at(place));
    }
    Ok(())
}

// Lent bytes while a record is written into them, and the place of its next byte.
#[derive(Drop)]
struct Writer<'a> {
    bytes: &'a mut [u8],
    at: usize,
}

impl Writer<'_> {
    // A number.
    fn write_number(&mut self, value: u64)
        requires { Room self.old (shortest word_more value) }
        ensures { Puts self.old self.new (shortest word_more value) }
    {
        self.at = numbers::write_number(self.bytes, self.at, value);
    }

    // The members of a set, a byte each.
    fn write_members(&mut self, set: u64)
        requires { Room self.old (members 64 set) }
        ensures { Puts self.old self.new (members 64 set) }
    {
        for member in Members::of(set) {
            self.bytes[self.at] = member as u8;
            self.at += 1;
        }
    }

    // A node's numbers.
    fn write_node(&mut self, execution: u64, set: u64)
        requires { (execution ≤ execution_max) × Room self.old (numbers_written (node_numbers execution set)) }
        ensures { Puts self.old self.new (numbers_written (node_numbers execution set)) }
    {
        self.write_number(execution);
        self.write_number(sets::size_of(set));
        self.write_members(set);
    }
}

// What a record is written of: the numbers of its head, and a list of executions and one of parent sets, a node at each index.
#[derive(Clone, Copy)]
struct Task<'a> {
    edition: u64,
    id: u64,
    period: u64,
    executions: &'a [u64],
    parents: &'a [u64],
    ghost same_length: { length executions.now ≡ length parents.now },
}

impl Task<'_> {
    // The numbers before the nodes, tried.
    fn try_head(self) -> Result<usize, Refusal>
        ensures { result ≡ head_tried self.entry.edition self.entry.id self.entry.period (length self.entry.executions.now) }
    {
        let n = self.executions.len() as u64;
        let id_at = try_number(
            0,
            self.edition,
            Reason::BadEdition,
            1,
            TaskTable::EDITION_MAX,
        )?;
        let period_at = try_number(id_at, self.id, Reason::BadId, 1, TaskTable::ID_MAX)?;
        let longest = TaskTable::PERIOD_MAX;
        let count_at = try_number(period_at, self.period, Reason::BadPeriod, 1, longest)?;
        try_number(count_at, n, Reason::BadCount, 1, TaskTable::COUNT_MAX)
    }

    // The nodes after the head, in turn.
    fn try_nodes(self, from: usize, least: u64) -> Result<usize, Refusal>
        requires { (length self.executions.now ≤ count_max) × (from ≤ node_max) }
        ensures { result ≡ nodes_tried least self.entry.executions.now self.entry.parents.now (Ok from) (length self.entry.executions.now) }
    {
        let n = self.executions.len();
        let mut next = from;
        for (execution, set) in self.executions.iter().zip(self.parents) {
            next = try_node(next, *execution, *set, least, n)?;
        }
        Ok(next)
    }

    // All numbers of the record, from the left. The nodes are tried only where there are at most 64.
    fn try_record(self) -> Result<usize, Refusal>
        ensures { result ≡ record_tried self.entry.executions.now self.entry.parents.now self.entry.edition self.entry.id self.entry.period }
    {
        let nodes_at = self.try_head()?;
        self.try_nodes(nodes_at, tables::least_execution(self.edition))
    }

    // The numbers before the nodes.
    fn write_head(self, out: &mut Writer)
        requires edition_le_edition_max { (self.edition ≤ edition_max) × (self.id ≤ id_max) × (self.period ≤ period_max) × (length self.executions.now ≤ count_max) }
        requires n_in_bounds { Room out.old (numbers_written (head_numbers self.edition self.id self.period (length self.executions.now))) }
        ensures { Puts out.old out.new (numbers_written (head_numbers self.entry.edition self.entry.id self.entry.period (length self.entry.executions.now))) }
    {
        out.write_number(self.edition);
        out.write_number(self.id);
        out.write_number(self.period);
        out.write_number(self.executions.len() as u64);
    }

    // The numbers of all nodes.
    fn write_nodes(self, out: &mut Writer)
        requires executions_len { (v : ℕ) → at self.executions.now v ≤ execution_max }
        requires executions_in_bounds { Room out.old (numbers_written (nodes_to self.executions.now self.parents.now (length self.executions.now))) }
        ensures { Puts out.old out.new (numbers_written (nodes_to self.entry.executions.now self.entry.parents.now (length self.entry.executions.now))) }
    {
        for (execution, set) in self.executions.iter().zip(self.parents) {
            out.write_node(*execution, *set);
        }
    }

    // The record, at the front of the bytes; its length. The rules as the record would meet them come first, then 21, and 19 where the bytes are too few.
    fn write(self, bytes: &mut [u8]) -> Result<u64, Refusal>
        ensures outcome { outcome_of result ≡ before_writing (table_of self.entry.executions.now self.entry.parents.now self.entry.edition self.entry.id self.entry.period) bytes.old }
        ensures bytes_after { record { answer = answered result; lent = bytes.new } ≡ writing (table_of self.entry.executions.now self.entry.parents.now self.entry.edition self.entry.id self.entry.period) bytes.old }
    {
        let size = self.try_record()?;
        let n = self.executions.len();
        unless(tables::all_zero(self.executions, n), Reason::NoneRuns, 0)?;
        unless(bytes.len() < size, Reason::WrongLength, bytes.len())?;
        let mut out = Writer { bytes, at: 0 };
        self.write_head(&mut out);
        self.write_nodes(&mut out);
        Ok(size as u64)
    }
}

// Writes the record of two lists: 19 where they differ in length, then 3 to 8 as the record would meet them, 21, and 19 where the bytes are too few.
// C reads the answer, and calls this with these six through `planner_write_record`.
pub fn write_record(
    executions: &[u64],
    parents: &[u64],
    bytes: &mut [u8],
    edition: u64,
    id: u64,
    period: u64,
) -> Answer
    ensures { record { answer = result; lent = bytes.new } ≡ write_call executions.now parents.now bytes.old edition id period }
{
    if executions.len() != parents.len() {
        return Answer::refused(Reason::WrongLength.at(0));
    }
    let task = Task {
        edition,
        id,
        period,
        executions,
        parents,
    };
    Answer::from(task.write(bytes))
}

// Writes the record of a table: that of its nodes' two lists.
pub fn write_table(table: TaskTable, bytes: &mut [u8]) -> Result<u64, Refusal>
    requires { table.count ≤ count_max }
    ensures outcome { outcome_of result ≡ before_writing (table_of (take table.count table.execution) (take table.count table.parents) table.edition table.id table.period) bytes.old }
    ensures bytes_after { record { answer = answered result; lent = bytes.new } ≡ write_call (take table.count table.execution) (take table.count table.parents) bytes.old table.edition table.id table.period }
{
    let task = Task {
        edition: table.edition,
        id: table.id,
        period: table.period,
        executions: &table.execution[..table.count],
        parents: &table.parents[..table.count],
    };
    task.write(bytes)
}
