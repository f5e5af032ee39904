// The timing diagram of a task, run from cut to cut: the nodes that have started stand in a queue by their finishes, and the first finish that
// is not done is the next cut.
#![tactic(auto)]

ghost use Rattle.std.specs.Prelude.{◌≡◌, List, ℕ, ◌≤◌, ◌<◌, replicate};
ghost use Rattle.plain.specs.At.{at};
ghost use Rattle.sets.specs.Rule.{set_of};
ghost use Rattle.sets.specs.Size.{size};
ghost use Rattle.segments.specs.Inner.Listed.{threads_of, enders_of};
ghost use Rattle.diagrams.specs.Inner.Sweep.{Sweep};
ghost use Rattle.diagrams.specs.Inner.Moved.{MovedOn};
ghost use Rattle.diagrams.specs.Inner.Traced.{SweepIn, Traced};

use segments::Segment;
use sets::Members;

// What a run leaves: the segments, the nodes' finishes, and the numbers of the cuts at which each node starts and finishes. Fixed memory: one array of
// structs for the last three takes 384 bytes more, and the segment step has 2,048 on the stack (`bench stack`).
#[derive(Clone, Copy)]
pub struct Trace {
    pub segments: [Segment; 64],
    pub finishes: [u64; 64],
    pub first: [u8; 64],
    pub last: [u8; 64],
}

impl Trace {
    // Before the run.
    pub fn empty() -> Self
        ensures { result ≡ record { segments = replicate 64 (record { threads = 0; ender = 0 }); finishes = replicate 64 0; first = replicate 64 0; last = replicate 64 0 } }
    {
        Self {
            segments: [Segment {
                threads: 0,
                ender: 0,
            }; 64],
            finishes: [0; 64],
            first: [0; 64],
            last: [0; 64],
        }
    }
}

// A cut of the time: its number and its time.
#[derive(Clone, Copy)]
pub struct Cut {
    pub number: usize,
    pub time: u64,
}

// The started nodes: how many, and their set.
#[derive(Clone, Copy)]
pub struct Started {
    pub tail: usize,
    pub set: u64,
}

// The nodes that are done: how many, their set, and who waited for the last of them.
#[derive(Clone, Copy)]
pub struct Done {
    pub head: usize,
    pub set: u64,
    pub woken: u64,
}

// The queue and who waits for whom stand beside the trace, in the 2,048 bytes of the stack that the segment step has (fixed memory); each function borrows what
// it writes of the trace, and one value for all would have to say of each that the rest stays.
// Looks at each node that is woken at a cut: it starts where all its parents are done, and else waits for the last that is not.
fn look(
    list: &mut [u8; 64],
    finishes: &mut [u64; 64],
    first: &mut [u8; 64],
    waits: &mut [u64; 64],
    parents: &[u64; 64],
    executions: &[u64; 64],
    done: Done,
    from: Started,
    cut: Cut,
) -> Started
    requires { (n : ℕ) × (c : ℕ → ℕ) × (m : List ℕ) × (en : List ℕ) × (z : List ℕ) × (head : ℕ) × Sweep parents.now executions.now n c m en z head done.set cut.number cut.time list.old finishes.old first.old waits.old from.tail from.set done.woken }
    ensures { (n : ℕ) (c : ℕ → ℕ) (m en z : List ℕ) (head : ℕ) → Sweep parents.now executions.now n c m en z head done.set cut.number cut.time list.old finishes.old first.old waits.old from.tail from.set done.woken → Sweep parents.now executions.now n c m en z head done.set cut.number cut.time list.new finishes.new first.new waits.new result.tail result.set 0 }
{
    let mut tail = from.tail;
    let mut set = from.set;
    for v in Members::of(done.woken) {
        let missing = parents[v] & !done.set;
        if missing == 0 {
            first[v] = cut.number as u8;
            finishes[v] = cut.time + executions[v];
            queues::put(list, finishes, tail, v as u8);
            tail += 1;
            set = sets::with_member(set, v);
        } else {
            let p = sets::last_of(missing);
            waits[p] = sets::with_member(waits[p], v);
        }
    }
    Started { tail, set }
}

// Takes every node that finishes at a cut off the queue, and gathers who waited for one of them.
fn finish(
    last: &mut [u8; 64],
    list: &[u8; 64],
    finishes: &[u64; 64],
    waits: &[u64; 64],
    tail: usize,
    from: Done,
    cut: Cut,
) -> Done
    requires { (P : List ℕ) × (X : List ℕ) × (n : ℕ) × (c : ℕ → ℕ) × (m : List ℕ) × (en : List ℕ) × (f : List ℕ) × (started : ℕ) × Sweep P X n c m en last.old from.head from.set cut.number cut.time list.now finishes.now f waits.now tail started 0 }
    ensures by_index { (P X : List ℕ) (n : ℕ) (c : ℕ → ℕ) (m en f : List ℕ) (started : ℕ) → Sweep P X n c m en last.old from.head from.set cut.number cut.time list.now finishes.now f waits.now tail started 0 → Sweep P X n c m en last.new result.head result.set cut.number cut.time list.now finishes.now f waits.now tail started result.woken }
    ensures head_lt_head { from.head < tail → at finishes.now (at list.now from.head) ≡ cut.time → from.head < result.head }
{
    let mut set = from.set;
    let mut woken: u64 = 0;
    for head in from.head..tail {
        let v = list[head] as usize;
        if finishes[v] != cut.time {
            return Done { head, set, woken };
        }
        last[v] = cut.number as u8;
        set = sets::with_member(set, v);
        woken |= waits[v];
    }
    Done {
        head: tail,
        set,
        woken,
    }
}

// Moves the time on from a cut to the finish of node v, the next one: where that is later, one segment more, in which the given nodes run.
fn move_on(segments: &mut [Segment; 64], finishes: &[u64; 64], running: u64, v: u8, cut: Cut) -> Cut
    requires { (cut.number < 64) × (v < 64) }
    ensures { MovedOn cut.number cut.time v (at finishes.now v) (size running) (threads_of segments.old) (enders_of segments.old) (threads_of segments.new) (enders_of segments.new) result.number result.time }
{
    let to = finishes[v as usize];
    if cut.time < to {
        segments[cut.number] = Segment {
            threads: sets::size_of(running) as u8,
            ender: v,
        };
        return Cut {
            number: cut.number + 1,
            time: to,
        };
    }
    cut
}

// At first nobody is done, and all are to be looked at.
fn nobody(n: usize) -> Done
    requires { n ≤ 64 }
    ensures { result ≡ record { head = 0; set = 0; woken = set_of n (λ k. 1) } }
{
    Done {
        head: 0,
        set: 0,
        woken: sets::all_below(n),
    }
}

// What a run comes to: its last cut, whose number is that of the segments and whose time is the path, and the number of nodes done.
#[derive(Clone, Copy)]
pub struct Swept {
    pub cut: Cut,
    pub done: usize,
}

// Runs the timing diagram of a table. Where fewer than n nodes are done in the end, the others hold a loop. It goes from cut to cut, and ends between
// looking and finishing, once no started node is left: no `for` knows the cuts before they are met.
pub fn sweep(trace: &mut Trace, parents: &[u64; 64], executions: &[u64; 64], n: usize) -> Swept
    requires { SweepIn parents.now executions.now n }
    ensures { Traced parents.now executions.now n result.done result.cut.number result.cut.time (threads_of trace.new.segments) (enders_of trace.new.segments) trace.new.finishes trace.new.first trace.new.last }
{
    let mut list = [0u8; 64];
    let mut waits = [0u64; 64];
    let mut cut = Cut { number: 0, time: 0 };
    let mut done = nobody(n);
    let mut begun = Started { tail: 0, set: 0 };
    loop {
        begun = look(
            &mut list,
            &mut trace.finishes,
            &mut trace.first,
            &mut waits,
            parents,
            executions,
            done,
            begun,
            cut,
        );
        let head = done.head;
        if begun.tail <= head {
            return Swept { cut, done: head };
        }
        let v = list[head];
        let running = begun.set & !done.set;
        cut = move_on(&mut trace.segments, &trace.finishes, running, v, cut);
        done = finish(
            &mut trace.last,
            &list,
            &trace.finishes,
            &waits,
            begun.tail,
            done,
            cut,
        );
    }
}
