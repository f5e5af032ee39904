// Reads the text of a Standard Task Graph into a table, and has its record written.
#![tactic(auto)]

ghost use Rattle.std.specs.Prelude.{◌≡◌, false, [], ℕ, ◌+◌, ◌≤◌, ◌<◌, length, IfOk};
ghost use Rattle.refusals.specs.Numbers.{number_of};
ghost use Rattle.refusals.specs.Answer.{answered};
ghost use Rattle.tables.specs.Limits.{count_max};
ghost use Rattle.records.specs.Nodes.{with_node};
ghost use Rattle.graphs.specs.Expected.{task_from, predecessor_from};
ghost use Rattle.graphs.specs.Expected.Due.{number, many};
ghost use Rattle.graphs.specs.Expected.Next.{word, done};
ghost use Rattle.graphs.specs.Graph.{no_graph, graph_of};
ghost use Rattle.graphs.specs.Record.{graph_call};
ghost use Rattle.graphs.specs.Inner.Taken.{then_taken, number_taken, reading_at, Leads};

use graphwords::{Fault, Number};
use refusals::{Answer, Reason, Refusal};
use tables::TaskTable;

// The edition in which a node may run nothing, as dummies do.
const EDITION: u64 = 2;

// The nodes that the count leaves out.
const DUMMIES: u64 = 2;

// A count is at most this.
const TASKS_MAX: u64 = TaskTable::COUNT_MAX - DUMMIES;

// A task's time and the set of its predecessors.
#[derive(Clone, Copy, Debug, PartialEq, Eq)]
pub struct Task {
    pub time: u64,
    pub set: u64,
}

// What a text comes to: its table, and whether a comment ended the reading.
// No `Result`: document 01 lets a refusal come "from any reader of a table, a table that is all zeros" (`no_graph` of specs/Graph.antt).
#[derive(Clone, Copy)]
pub struct Graph {
    pub outcome: Result<(), Refusal>,
    pub table: TaskTable,
    pub commented: bool,
}

// A refusal beside a table that is all zeros.
fn no_graph(refusal: Refusal, commented: bool) -> Graph
    ensures { result ≡ no_graph commented refusal }
{
    Graph {
        outcome: Err(refusal),
        table: TaskTable::empty(),
        commented,
    }
}

// A text, and how far its words were taken.
#[derive(Clone, Copy)]
struct Words<'a> {
    text: &'a [u8],
    at: usize,
    ghost inside: { at ≤ length text.now },
}

impl Words<'_> {
    // The next word, and only then its range.
    fn take_number(&mut self, broken: Reason, low: u64, high: u64) -> Result<Number, Refusal>
        ensures taken { result ≡ number_taken (number_of broken) low high self.old.text.now self.old.at }
        ensures past { IfOk result (λ number. number.end ≡ self.new.at) }
        ensures text { self.new.text ≡ self.old.text }
    {
        match graphwords::read_word(self.text, self.at) {
            Ok(number) if (low..=high).contains(&number.value) => {
                self.at = number.end;
                Ok(number)
            }
            Ok(number) => Err(broken.at(number.place)),
            Err(Fault::Other { place }) => Err(Reason::BadLayout.at(place)),
            Err(Fault::Ended) => Err(Reason::BadLayout.at(self.text.len())),
        }
    }

    // As many predecessors as count says, each below n and given once, as a set.
    fn take_predecessors(&mut self, count: u64, n: u64) -> Result<u64, Refusal>
        requires { (1 ≤ n) × (n ≤ count_max) }
        ensures leads { (t : TaskTable) (i time : ℕ) → t.count ≡ n → Leads self.old.text.now self.old.at (predecessor_from t i time count []) result (λ set. reading_at self.old.text.now (task_from (with_node t i time set) (i + 1)) self.new.at) }
        ensures text { self.new.text ≡ self.old.text }
    {
        let mut set = 0;
        for _ in 0..count {
            let number = self.take_number(Reason::BadParent, 0, n - 1)?;
            let node = number.value as usize;
            if sets::is_member(set, node) {
                return Err(Reason::BadParent.at(number.place));
            }
            set = sets::with_member(set, node);
        }
        Ok(set)
    }

    // Task i: its number, its time, the number of its predecessors and these, each below n.
    fn take_task(&mut self, i: u64, n: u64) -> Result<Task, Refusal>
        requires { (i < n) × (n ≤ count_max) }
        ensures leads { (t : TaskTable) → t.count ≡ n → Leads self.old.text.now self.old.at (word (number t i)) result (λ task. reading_at self.old.text.now (task_from (with_node t i task.time task.set) (i + 1)) self.new.at) }
        ensures text { self.new.text ≡ self.old.text }
    {
        self.take_number(Reason::BadLayout, i, i)?;
        let time = self.take_number(Reason::BadExecution, 0, TaskTable::EXECUTION_MAX)?;
        let count = self.take_number(Reason::BadParent, 0, n)?;
        let set = self.take_predecessors(count.value, n)?;
        Ok(Task {
            time: time.value,
            set,
        })
    }

    // The tasks of a table whose head was read, into it.
    fn take_tasks(&mut self, head: TaskTable) -> Result<TaskTable, Refusal>
        requires { head.count ≤ count_max }
        ensures leads { Leads self.old.text.now self.old.at (task_from head 0) result (λ table. reading_at self.old.text.now (done table) self.new.at) }
        ensures sized { IfOk result (λ table. table.count ≤ length table.execution) }
        ensures text { self.new.text ≡ self.old.text }
    {
        let mut table = head;
        for i in 0..head.count {
            let task = self.take_task(i as u64, head.count as u64)?;
            table.execution[i] = task.time;
            table.parents[i] = task.set;
        }
        Ok(table)
    }

    // All words up to the last task's, with the caller's id and period.
    fn take_table(&mut self, id: u64, period: u64) -> Result<TaskTable, Refusal>
        requires { self.old.at ≡ 0 }
        ensures leads { graph_of self.old.text.now id period ≡ then_taken (no_graph false) result (λ table. reading_at self.old.text.now (done table) self.new.at) }
        ensures sized { IfOk result (λ table. table.count ≤ length table.execution) }
        ensures text { self.new.text ≡ self.old.text }
    {
        if !(1..=TaskTable::ID_MAX).contains(&id) {
            return Err(Reason::BadId.at(0));
        }
        if !(1..=TaskTable::PERIOD_MAX).contains(&period) {
            return Err(Reason::BadPeriod.at(0));
        }
        let count = self.take_number(Reason::ManyTasks, 0, TASKS_MAX)?;
        self.take_tasks(TaskTable {
            edition: EDITION,
            id,
            period,
            count: (count.value + DUMMIES) as usize,
            ..TaskTable::empty()
        })
    }

    // After the last task: a comment or nothing; and not all times are 0.
    fn end(&self, table: TaskTable) -> Graph
        requires { table.count ≤ length table.execution }
        ensures { result ≡ reading_at self.now.text.now (done table) self.now.at }
    {
        let place = graphwords::word_at(self.text, self.at);
        let commented = place < self.text.len();
        if commented && self.text[place] != b'#' {
            return no_graph(Reason::BadLayout.at(place), false);
        }
        if tables::all_zero(&table.execution, table.count) {
            return no_graph(Reason::NoneRuns.at(0), commented);
        }
        Graph {
            outcome: Ok(()),
            table,
            commented,
        }
    }
}

// The table of a text, with the caller's id and period; or the refusal of the first rule that is broken.
pub fn read_graph(text: &[u8], id: u64, period: u64) -> Graph
    ensures { result ≡ graph_of text.now id period }
{
    let mut words = Words { text, at: 0 };
    match words.take_table(id, period) {
        Ok(table) => words.end(table),
        Err(refusal) => no_graph(refusal, false),
    }
}

// A text's table, written; the value is the number of bytes.
fn write_text(text: &[u8], bytes: &mut [u8], id: u64, period: u64) -> Result<u64, Refusal>
    ensures { record { answer = answered result; lent = bytes.new } ≡ graph_call text.now bytes.old id period }
{
    let graph = read_graph(text, id, period);
    graph.outcome?;
    writers::write_table(graph.table, bytes)
}

// Writes the record of a text: what its table's record is.
pub fn write_graph(text: &[u8], bytes: &mut [u8], id: u64, period: u64) -> Answer
    ensures { record { answer = result; lent = bytes.new } ≡ graph_call text.now bytes.old id period }
{
    Answer::from(write_text(text, bytes, id, period))
}
