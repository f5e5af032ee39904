// The rules that a supplier's plan is held to, one by one. The task's own cut is read from our own plan of it. In a
// contract, what a rule doesn't look at is left empty in `held_by`.
#![tactic(auto)]

ghost use Rattle.std.specs.Prelude.{◌≡◌, true, ◌&&◌, List, [], ℕ, ◌+◌, ◌*◌, ◌^◌, ◌≤◌, ◌<◌, leb, length};
ghost use Rattle.plain.specs.At.{at};
ghost use Rattle.tables.specs.Limits.{period_max, count_max, run_max, work_max, over_max};
ghost use Rattle.sets.specs.Greatest.{greatest};
ghost use Rattle.shares.specs.Words.{threads_at, length_at, numerator_at, offset_at, deadline_at, density_at};
ghost use Rattle.shares.specs.Inner.Asked.{numerator_max};
ghost use Rattle.rules.specs.Rules.{over_fits, same_cut, shared_out, summed, followed, halved, thinned, rounded};
ghost use Rattle.rules.specs.Inner.Own.{windowed, held_by, PlanIn, SharedIn};

use sets::Members;
use tables::TaskTable;

// The greatest Q of specs/: twice the work of 64 nodes that all run as long as they may.
const OVER_MAX: u64 = 2 * TaskTable::COUNT_MAX * (TaskTable::EXECUTION_MAX + TaskTable::COST_MAX);

// A plan's words, as they are lent: at most 64 segments and 64 nodes, with room for all. The public rules take bare words, with `PlanIn` and `SharedIn`
// in their clauses: docs/CONTRACTS.md names them, so they are no inner functions, and what they take may not narrow.
#[derive(Clone, Copy)]
struct Plan<'a> {
    words: &'a [u64],
    ghost few_segments: { at words.now 1 ≤ count_max },
    ghost few_nodes: { at words.now 2 ≤ count_max },
    ghost room: { 3 + 3 * at words.now 1 + 3 * at words.now 2 ≤ length words.now },
}

#[derive(Clone, Copy)]
struct Segment {
    threads: u64,
    length: u64,
    numerator: u64,
}

#[derive(Clone, Copy)]
struct Node {
    offset: u64,
    deadline: u64,
    density: u64,
}

impl Plan<'_> {
    fn over(self) -> u64
        ensures { result ≡ at self.entry.words.now 0 }
    {
        self.words[0]
    }

    fn segments(self) -> usize
        ensures { result ≡ at self.entry.words.now 1 }
    {
        self.words[1] as usize
    }

    fn nodes(self) -> usize
        ensures { result ≡ at self.entry.words.now 2 }
    {
        self.words[2] as usize
    }

    fn segment(self, j: usize) -> Segment
        requires { j < at self.words.now 1 }
        ensures { result ≡ record { threads = threads_at self.entry.words.now j; length = length_at self.entry.words.now j; numerator = numerator_at self.entry.words.now j } }
    {
        let k = 3 + 3 * j;
        Segment {
            threads: self.words[k],
            length: self.words[k + 1],
            numerator: self.words[k + 2],
        }
    }

    // The nodes stand past the segments.
    fn node(self, v: usize) -> Node
        requires { v < at self.words.now 2 }
        ensures { result ≡ record { offset = offset_at self.entry.words.now v; deadline = deadline_at self.entry.words.now v; density = density_at self.entry.words.now v } }
    {
        let k = 3 + 3 * self.segments() + 3 * v;
        Node {
            offset: self.words[k],
            deadline: self.words[k + 1],
            density: self.words[k + 2],
        }
    }
}

// 1: Q lies in its range.
pub fn over_fits(plan: &[u64]) -> bool
    requires { PlanIn plan.now }
    ensures { result ≡ over_fits plan.now }
{
    (1..=OVER_MAX).contains(&plan[0])
}

// 2: the segments are the task's own cut.
pub fn same_cut(own: &[u64], plan: &[u64]) -> bool
    requires { PlanIn own.now × PlanIn plan.now }
    ensures { result ≡ same_cut (held_by own.now [] [] 0 0) plan.now }
{
    let own = Plan { words: own };
    let plan = Plan { words: plan };
    if plan.segments() != own.segments() {
        return false;
    }
    (0..own.segments()).all(|j| {
        let (given, cut) = (plan.segment(j), own.segment(j));
        given.threads == cut.threads && given.length == cut.length
    })
}

// 3: the numerators sum to period × Q. They are taken away from it one by one: added up, foreign ones could wrap.
pub fn shared_out(plan: &[u64], period: u64) -> bool
    requires { PlanIn plan.now × (period ≤ period_max) × (over_fits plan.now ≡ true) }
    ensures { result ≡ shared_out (held_by [] [] [] period 0) plan.now }
{
    let plan = Plan { words: plan };
    let mut left = period * plan.over();
    for j in 0..plan.segments() {
        let numerator = plan.segment(j).numerator;
        if left < numerator {
            return false;
        }
        left -= numerator;
    }
    left == 0
}

// Whether a node that runs from `from` to `to` runs through all of begin..end.
fn runs_through(from: u64, to: u64, begin: u64, end: u64) -> bool
    ensures { result ≡ (leb from begin && leb end to) }
{
    from <= begin && end <= to
}

// What the plan gives the segments that node v runs in. Where it runs is read from the own plan: in stretched time, from its offset to its deadline.
fn share_of(own: Plan, plan: Plan, v: usize) -> u64
    requires by_index { (P : List ℕ) × (X : List ℕ) × (T : ℕ) × (C : ℕ) × SharedIn own.words.now plan.words.now P X T C }
    requires v_bound { v < at own.words.now 2 }
    ensures { result ≡ windowed own.entry.words.now (numerator_at plan.entry.words.now) v }
{
    let node = own.node(v);
    let to = node.offset + node.deadline;
    let mut begin = 0;
    let mut share = 0;
    for j in 0..own.segments() {
        let end = begin + own.segment(j).numerator;
        if runs_through(node.offset, to, begin, end) {
            share += plan.segment(j).numerator;
        }
        begin = end;
    }
    share
}

// 4: each node's deadline is the sum over its segments.
pub fn summed(own: &[u64], plan: &[u64]) -> bool
    requires { (P : List ℕ) × (X : List ℕ) × (T : ℕ) × (C : ℕ) × SharedIn own.now plan.now P X T C }
    ensures { result ≡ summed (held_by own.now [] [] 0 0) plan.now }
{
    let own = Plan { words: own };
    let plan = Plan { words: plan };
    (0..own.nodes()).all(|v| plan.node(v).deadline == share_of(own, plan, v))
}

// The greatest offset plus deadline of a node's parents, 0 without parents.
fn parents_end(plan: Plan, set: u64) -> u64
    requires { ((k : ℕ) → at plan.words.now k < 2 ^ 63) × (set < 2 ^ at plan.words.now 2) }
    ensures { result ≡ greatest (at plan.entry.words.now 2) set (λ p. offset_at plan.entry.words.now p + deadline_at plan.entry.words.now p) }
{
    let mut latest: u64 = 0;
    for p in Members::of(set) {
        let parent = plan.node(p);
        latest = latest.max(parent.offset + parent.deadline);
    }
    latest
}

// 5: offsets follow the parents.
pub fn followed(own: &[u64], plan: &[u64], parents: &[u64; 64]) -> bool
    requires { (X : List ℕ) × (T : ℕ) × (C : ℕ) × SharedIn own.now plan.now parents.now X T C }
    ensures { result ≡ followed (held_by own.now parents.now [] 0 0) plan.now }
{
    let own = Plan { words: own };
    let plan = Plan { words: plan };
    (0..own.nodes()).all(|v| plan.node(v).offset == parents_end(plan, parents[v]))
}

// Whether a deadline is at least half the execution.
fn is_half(execution: u64, over: u64, deadline: u64) -> bool
    requires { (execution ≤ run_max) × (over ≤ over_max) × (deadline < 2 ^ 63) }
    ensures { result ≡ leb (execution * over) (2 * deadline) }
{
    execution * over <= 2 * deadline
}

// 6: no node's deadline is below half its execution.
pub fn halved(own: &[u64], plan: &[u64], executions: &[u64; 64]) -> bool
    requires { (P : List ℕ) × (T : ℕ) × (C : ℕ) × SharedIn own.now plan.now P executions.now T C }
    ensures { result ≡ halved (held_by own.now [] executions.now 0 0) plan.now }
{
    let own = Plan { words: own };
    let plan = Plan { words: plan };
    (0..own.nodes()).all(|v| is_half(executions[v], plan.over(), plan.node(v).deadline))
}

// Whether a segment's work × period × Q, here called whole, is at most twice the task's work × its numerator. These products can pass 64 bits, so
// both sides are divided by twice the work, the left one rounded up.
fn is_thin(piece: u64, whole: u64, work: u64, numerator: u64) -> bool
    requires { (piece ≤ work) × (1 ≤ work) × (work ≤ work_max) × (whole ≤ numerator_max) }
    ensures { result ≡ leb (piece * whole) (2 * work * numerator) }
{
    let twice = 2 * work;
    piece * (whole / twice) + (piece * (whole % twice) + (twice - 1)) / twice <= numerator
}

// 7: no segment is denser than twice work over period.
pub fn thinned(plan: &[u64], period: u64, work: u64) -> bool
    requires { (own : List ℕ) × (P : List ℕ) × (X : List ℕ) × SharedIn own plan.now P X period work }
    ensures { result ≡ thinned (held_by [] [] [] period work) plan.now }
{
    let plan = Plan { words: plan };
    let whole = period * plan.over();
    (0..plan.segments()).all(|j| {
        let segment = plan.segment(j);
        is_thin(
            segment.threads * segment.length,
            whole,
            work,
            segment.numerator,
        )
    })
}

// 8: densities are rounded as ours.
pub fn rounded(own: &[u64], plan: &[u64], executions: &[u64; 64]) -> bool
    requires by_index { (P : List ℕ) × (T : ℕ) × (C : ℕ) × SharedIn own.now plan.now P executions.now T C }
    requires plan_value { summed (held_by own.now [] [] 0 0) plan.now ≡ true }
    ensures { result ≡ rounded (held_by own.now [] executions.now 0 0) plan.now }
{
    let own = Plan { words: own };
    let plan = Plan { words: plan };
    (0..own.nodes()).all(|v| {
        let node = plan.node(v);
        node.density == shares::millionths(executions[v], plan.over(), node.deadline)
    })
}
