// Refusal 10: the smallest node that is reached from itself, and one round through it.
#![tactic(auto)]

ghost use Rattle.std.specs.Prelude.{◌≡◌, true, ◌≤◌, ◌<◌};
ghost use Rattle.sets.specs.Rule.{set_of};
ghost use Rattle.ways.specs.Inner.Tidy.{Tidy};
ghost use Rattle.ways.specs.Closure.{goes_round, loops};
ghost use Rattle.rings.specs.Inside.{inside};
ghost use Rattle.rings.specs.Ring.{named, ring, loop_of};

use refusals::Refusal;

// The parent sets of n nodes, as a table has them.
#[derive(Clone, Copy)]
struct Parents<'a> {
    sets: &'a [u64; 64],
    n: usize,
    ghost few: { n ≤ 64 },
    ghost tidy: { Tidy sets.now n },
}

impl Parents<'_> {
    // Whether r is reached from itself inside a set: each node that is met is taken up once, and its parents in the set are met.
    fn goes_round(self, set: u64, r: usize) -> bool
        requires { r < self.n }
        ensures { result ≡ goes_round (inside self.entry.sets.now self.entry.n set) self.entry.n r }
    {
        let mut met = self.sets[r] & set;
        let mut taken: u64 = 0;
        let mut left = met;
        // What is left grows as it is walked, so no `for` serves.
        while left != 0 {
            if sets::is_member(left, r) {
                return true;
            }
            let p = left.trailing_zeros() as usize;
            taken = sets::with_member(taken, p);
            met |= self.sets[p] & set;
            left = met & !taken;
        }
        false
    }

    // The smallest node that is reached from itself: the nodes are tried upward, and one of them is it.
    fn named(self, all: u64) -> usize
        requires { (all ≡ set_of self.n (λ v. 1)) × (loops self.sets.now self.n ≡ true) }
        ensures { result ≡ named self.entry.sets.now self.entry.n }
    {
        for v in 0..self.n {
            if self.goes_round(all, v) {
                return v;
            }
        }
        self.n
    }

    // One round through a node: each node, from 0 upward, is left out where that node is still reached from itself without it.
    fn ring(self, all: u64, node: usize) -> u64
        requires { (node < self.n) × (all ≡ set_of self.n (λ v. 1)) }
        ensures { result ≡ ring self.entry.sets.now self.entry.n node }
    {
        let mut set = all;
        for k in 0..self.n {
            let less = sets::without_member(set, k);
            if self.goes_round(less, node) {
                set = less;
            }
        }
        set
    }
}

// The refusal of a task with a loop.
pub fn loop_of(parents: &[u64; 64], n: usize) -> Refusal
    requires { (n ≤ 64) × Tidy parents.now n × (loops parents.now n ≡ true) }
    ensures { result ≡ loop_of parents.now n }
{
    let parents = Parents { sets: parents, n };
    let all = sets::all_below(n);
    let node = parents.named(all);
    let ring = parents.ring(all, node);
    Refusal::looped(node, ring)
}
