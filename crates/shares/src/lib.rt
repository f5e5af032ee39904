// Shares of the period: heavy and light segments, Q, deadline numerators, densities. The words are C's, longer than a plan (the C interface), and
// those of them that count segments and nodes are written last: so s and n stand beside them.
#![tactic(auto)]

ghost use Rattle.std.specs.Prelude.{◌≡◌, ◌++◌, ℕ, ◌+◌, ◌*◌, ◌-◌, ◌≤◌, ◌<◌, length, drop};
ghost use Rattle.plain.specs.At.{at};
ghost use Rattle.plain.specs.Sums.{sum_to};
ghost use Rattle.tables.specs.Limits.{count_max, density_max};
ghost use Rattle.shares.specs.Heavy.{is_heavy};
ghost use Rattle.shares.specs.Inner.Kinds.{kinds};
ghost use Rattle.shares.specs.Deal.{deal, numerator};
ghost use Rattle.shares.specs.Density.{millionths};
ghost use Rattle.shares.specs.Figures.{figures, smaller, smallest_to};
ghost use Rattle.shares.specs.Words.{threads_at, length_at, numerator_at};
ghost use Rattle.shares.specs.Triples.{triples};
ghost use Rattle.shares.specs.Inner.Spans.{offset_by, span_by};
ghost use Rattle.shares.specs.Inner.Written.{Numbered};
ghost use Rattle.shares.specs.Inner.Asked.{DensityIn, HeavyIn, NumeratorIn, DealIn, FillIn, SumsIn, NodesIn};

// How the period is dealt out: Q, what a heavy segment gets per unit of work, what a light one gets per unit of length.
#[derive(Clone, Copy)]
pub struct Deal {
    pub over: u64,
    pub heavy: u64,
    pub light: u64,
}

// The number of heavy segments, their work, and the length of the light ones.
#[derive(Clone, Copy)]
pub struct Kinds {
    pub heavies: usize,
    pub work: u64,
    pub length: u64,
}

// A node's density in millionths, rounded up; 0 for a join, which gets nothing.
pub fn millionths(execution: u64, over: u64, numerator: u64) -> u64
    requires { DensityIn execution over numerator }
    ensures { result ≡ millionths execution over numerator }
{
    if numerator == 0 {
        return 0;
    }
    (execution * over * tables::MILLION + (numerator - 1)) / numerator
}

// A task's period, work and path: they say which of its segments are heavy, and so how the period is dealt out.
#[derive(Clone, Copy)]
pub struct Times {
    pub period: u64,
    pub work: u64,
    pub path: u64,
}

impl Times {
    // Whether a segment is heavy.
    pub fn is_heavy(self, threads: u64) -> bool
        requires { HeavyIn self.period self.path threads }
        ensures { result ≡ is_heavy self.period self.work self.path threads }
    {
        self.work < threads * (2 * self.period - self.path)
    }

    // The heavy segments counted, with their work and the length of the light ones.
    pub fn kinds_of(self, words: &[u64], s: usize) -> Kinds
        requires { DealIn words.now s self.period self.work self.path }
        ensures { result ≡ kinds self.period self.work self.path s (threads_at words.now) (length_at words.now) }
    {
        let mut kinds = Kinds {
            heavies: 0,
            work: 0,
            length: 0,
        };
        for j in 0..s {
            let threads = words[3 + 3 * j];
            let length = words[4 + 3 * j];
            if self.is_heavy(threads) {
                kinds.heavies += 1;
                kinds.work += threads * length;
            } else {
                kinds.length += length;
            }
        }
        kinds
    }

    // How a task's period is dealt out.
    pub fn deal_of(self, words: &[u64], s: usize) -> Deal
        requires { DealIn words.now s self.period self.work self.path }
        ensures { result ≡ deal self.period self.work self.path s (threads_at words.now) (length_at words.now) }
    {
        let kinds = self.kinds_of(words, s);
        if kinds.heavies == s {
            Deal {
                over: self.work,
                heavy: self.period,
                light: 0,
            }
        } else if kinds.heavies == 0 {
            Deal {
                over: self.path,
                heavy: 0,
                light: self.period,
            }
        } else {
            Deal {
                over: 2 * kinds.work,
                heavy: 2 * self.period - kinds.length,
                light: kinds.work,
            }
        }
    }

    // The deadline numerator of a segment.
    pub fn numerator_of(self, d: Deal, threads: u64, length: u64) -> u64
        requires { NumeratorIn d self.period self.path threads length }
        ensures { result ≡ numerator d self.period self.work self.path threads length }
    {
        if self.is_heavy(threads) {
            d.heavy * threads * length
        } else {
            length * d.light
        }
    }

    // The numerators of s segments, each written beside its threads and length.
    pub fn fill_numerators(self, words: &mut [u64], s: usize, d: Deal)
        requires { FillIn words.old s d self.period self.path }
        ensures { Numbered d self.period self.work self.path s words.old words.new }
    {
        for j in 0..s {
            words[5 + 3 * j] = self.numerator_of(d, words[3 + 3 * j], words[4 + 3 * j]);
        }
    }
}

// D at each cut: entry j is what the first j segments are given, summed.
pub fn sums_of(words: &[u64], s: usize) -> [u64; 65]
    requires { SumsIn words.now s }
    ensures { (j : ℕ) → j ≤ s → at result j ≡ sum_to j (numerator_at words.now) }
{
    let mut sums = [0u64; 65];
    for j in 0..s {
        sums[j + 1] = sums[j] + words[5 + 3 * j];
    }
    sums
}

// The node part of a plan: the words from the first past the segments on.
// A node runs, in stretched time, from D at its first cut to D at its last.
pub fn fill_nodes(
    out: &mut [u64],
    sums: &[u64; 65],
    first: &[u8; 64],
    last: &[u8; 64],
    executions: &[u64; 64],
    n: usize,
    over: u64,
)
    requires { NodesIn sums.now first.now last.now executions.now n over (length out.old) }
    ensures { out.new ≡ triples (offset_by sums.now first.now) (span_by sums.now first.now last.now) (λ v. millionths (at executions.now v) over (span_by sums.now first.now last.now v)) n ++ drop (3 * n) out.old }
{
    for v in 0..n {
        let k = 3 * v;
        let offset = sums[first[v] as usize];
        let d = sums[last[v] as usize] - offset;
        out[k] = offset;
        out[k + 1] = d;
        out[k + 2] = millionths(executions[v], over, d);
    }
}

// The total and the largest of a task's densities.
#[derive(Clone, Copy)]
pub struct Figures {
    pub sum: u64,
    pub largest: u64,
}

// The figures of a task, from the node words of its plan: (offset, deadline, density) for each of its n nodes.
pub fn figures_of(nodes: &[u64], n: usize) -> Figures
    requires n_le_count_max { (n ≤ count_max) × (3 * n ≤ length nodes.now) }
    requires by_index { (v : ℕ) → v < n → at nodes.now (3 * v + 2) ≤ density_max }
    ensures { result ≡ figures n (λ v. at nodes.now (3 * v + 2)) }
{
    let mut figures = Figures { sum: 0, largest: 0 };
    for v in 0..n {
        let density = nodes[3 * v + 2];
        figures.sum += density;
        figures.largest = figures.largest.max(density);
    }
    figures
}

// The smaller of two deadlines; 0 is none, and no Option: so `Row::shortest` keeps it, which C lends (the C interface).
fn smaller(a: u64, b: u64) -> u64
    ensures { result ≡ smaller a b }
{
    match (a, b) {
        (0, _) => b,
        (_, 0) => a,
        _ => a.min(b),
    }
}

// The smallest deadline of a task's n nodes, from the node words of its plan; a join has none.
pub fn shortest_of(nodes: &[u64], n: usize) -> u64
    requires { (n ≤ count_max) × (3 * n ≤ length nodes.now) }
    ensures { result ≡ smallest_to n (λ v. at nodes.now (3 * v + 1)) }
{
    let mut shortest = 0;
    for v in 0..n {
        shortest = smaller(shortest, nodes[3 * v + 1]);
    }
    shortest
}
