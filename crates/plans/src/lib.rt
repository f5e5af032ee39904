// A plan's words from a table, and from a record. The words are C's, longer than a plan (the C interface), and those of them that count segments and
// nodes are written last: so s and n stand beside them.
#![tactic(auto)]

ghost use Rattle.std.specs.Prelude.{◌≡◌, ◌++◌, ◌+◌, ◌*◌, ◌≤◌, ◌≢◌, ltb, length, drop, IfOk, IfErr};
ghost use Rattle.refusals.specs.Answer.{answered};
ghost use Rattle.tables.specs.Cost.{costed};
ghost use Rattle.tables.specs.Inner.Plannable.{Plannable};
ghost use Rattle.ways.specs.Inner.Tidy.{Tidy};
ghost use Rattle.ways.specs.Closure.{loops};
ghost use Rattle.rings.specs.Ring.{loop_of};
ghost use Rattle.plans.specs.Diagram.{segment_count};
ghost use Rattle.plans.specs.Words.{word_count, words_max, front_words, written};
ghost use Rattle.plans.specs.Calls.{before_reading, plan_call};
ghost use Rattle.plans.specs.Inner.Drawn.{tested, told, SegmentsOf, NodesOf, Totalled};
ghost use Rattle.plans.specs.Inner.Table.{table_plan};

use refusals::{Answer, Reason, Refusal};
use shares::Times;
use sweeps::{Swept, Trace};
use tables::TaskTable;

// The limit of specs/: the most words that a plan has.
pub const WORDS_MAX: usize = 387;

// Whether a record is to be read at all: 26 where the cost is too high, 16 where too few words are lent.
#[tactic(auto, unfolding(crate::specs::Calls::before_reading))]
pub fn before_reading(words: usize, cost: u64) -> Result<(), Refusal>
    ensures { result ≡ before_reading words cost }
{
    if TaskTable::COST_MAX < cost {
        return Err(Reason::HighCost.at(0));
    }
    if words < WORDS_MAX {
        return Err(Reason::FewWords.at(0));
    }
    Ok(())
}

// The rules after the reader's: 10 with its loop where nodes were left when the diagram was run, 11 where its path is longer than the period, else
// what the later rules say; an answer that refuses goes out as it is.
fn tested(
    parents: &[u64; 64],
    swept: Swept,
    n: usize,
    period: u64,
    later: Answer,
) -> Result<(), Answer>
    requires { (n ≤ 64) × Tidy parents.now n × (loops parents.now n ≡ ltb swept.done n) }
    ensures { result ≡ tested (ltb swept.done n) (loop_of parents.now n) (ltb period swept.cut.time) later }
{
    if swept.done < n {
        return Err(Answer::refused(rings::loop_of(parents, n)));
    }
    let answer = if period < swept.cut.time {
        Answer::refused(Reason::LongPath.at(0))
    } else {
        later
    };
    if answer.refusal != 0 {
        return Err(answer);
    }
    Ok(())
}

// The head and the segments' triples.
fn write_segments(words: &mut [u64], trace: &Trace, s: usize, n: usize, times: Times)
    requires { ((t : TaskTable) × SegmentsOf t n s times trace.now) × (words_max ≤ length words.old) }
    ensures { (t : TaskTable) → SegmentsOf t n s times trace.now → words.new ≡ front_words t ++ drop (3 + 3 * segment_count t) words.old }
{
    segments::cut_words(words, &trace.segments[..s], &trace.finishes);
    let deal = times.deal_of(words, s);
    times.fill_numerators(words, s, deal);
    words[0] = deal.over;
    words[1] = s as u64;
    words[2] = n as u64;
}

// The nodes' triples, in the part after the last segment; the number of words of the whole plan.
fn write_nodes(words: &mut [u64], trace: &Trace, execution: &[u64; 64], n: usize) -> usize
    requires { (t : TaskTable) × NodesOf t n trace.now execution.now words.old }
    ensures { (t : TaskTable) → NodesOf t n trace.now execution.now words.old → (result ≡ word_count (segment_count t) t.count) × (words.new ≡ written t words.old) }
{
    let over = words[0];
    let s = words[1] as usize;
    let sums = shares::sums_of(words, s);
    let from = 3 + 3 * s;
    shares::fill_nodes(
        &mut words[from..],
        &sums,
        &trace.first,
        &trace.last,
        execution,
        n,
        over,
    );
    from + 3 * n
}

// What planning a table comes to: how many words the plan has, and the table's work, path and longest execution.
#[derive(Clone, Copy, Debug, PartialEq, Eq)]
pub struct Planning {
    pub words: usize,
    pub work: u64,
    pub path: u64,
    pub longest: u64,
}

// The plan of a table with a cost: 10, 11, then the answer of the caller's later rules, as 12 and 13 of an admission, and only then are words written.
// A caller that has none gives Answer::accepted(0). It is no `Result` of a `Refusal`: any answer is taken, and one that refuses is handed back as it
// is, with its value.
pub fn plan_table(
    words: &mut [u64],
    table: TaskTable,
    cost: u64,
    later: Answer,
) -> Result<Planning, Answer>
    requires { Plannable (costed table cost) × (words_max ≤ length words.old) }
    ensures words_after { record { answer = told result; lent = words.new } ≡ table_plan later words.old (costed table cost) }
    ensures totalled { IfOk result (Totalled (costed table cost)) }
    ensures refusing { IfErr result (λ answer. answer.refusal ≢ 0) }
{
    let n = table.count;
    let period = table.period;
    let parents = table.parents; // copied, since a struct whose field is lent is copied whole
    let mut execution = table.execution;
    tables::add_cost(&mut execution, n, cost);
    let mut trace = Trace::empty();
    let swept = sweeps::sweep(&mut trace, &parents, &execution, n);
    tested(&parents, swept, n, period, later)?;
    let weighed = ways::weigh(&execution, n);
    let times = Times {
        period,
        work: weighed.work,
        path: swept.cut.time,
    };
    write_segments(words, &trace, swept.cut.number, n, times);
    let count = write_nodes(words, &trace, &execution, n);
    Ok(Planning {
        words: count,
        work: times.work,
        path: times.path,
        longest: weighed.longest,
    })
}

// The number of words of the plan of a record's task, or the first refusal.
fn plan_record(bytes: &[u8], words: &mut [u64], cost: u64) -> Result<u64, Refusal>
    ensures { record { answer = answered result; lent = words.new } ≡ plan_call bytes.now words.old cost }
{
    before_reading(words.len(), cost)?;
    let table = records::read_table(bytes)?;
    let planning = plan_table(words, table, cost, Answer::accepted(0))?;
    Ok(planning.words as u64)
}

// Plans the task of a record, each step with the cost, into the words; the answer's value is the number of words.
pub fn plan(bytes: &[u8], words: &mut [u64], cost: u64) -> Answer
    ensures { record { answer = result; lent = words.new } ≡ plan_call bytes.now words.old cost }
{
    Answer::from(plan_record(bytes, words, cost))
}
