// A set of nodes in one 64-bit word.
#![tactic(auto)]

ghost use Rattle.std.specs.Prelude.{◌≡◌, ◌≤◌, ◌<◌};
ghost use Rattle.std.specs.Iterator.{at_most};
ghost use Rattle.sets.specs.Member.{is_member};
ghost use Rattle.sets.specs.Without.{without_member};
ghost use Rattle.sets.specs.Inner.Put.{with_member};
ghost use Rattle.sets.specs.Size.{size};
ghost use Rattle.sets.specs.Rule.{set_of};
ghost use Rattle.sets.specs.Inner.Last.{Last};
ghost use Rattle.sets.specs.Inner.Walk.{TakesFirst};

// Whether k is in s.
pub fn is_member(s: u64, k: usize) -> bool
    requires { k < 64 }
    ensures { result ≡ is_member k s }
{
    (s >> k) & 1 == 1
}

// s with k put in.
pub fn with_member(s: u64, k: usize) -> u64
    requires { k < 64 }
    ensures { result ≡ with_member k s }
{
    s | (1 << k)
}

// s with k left out.
pub fn without_member(s: u64, k: usize) -> u64
    requires { k < 64 }
    ensures { result ≡ without_member k s }
{
    s & !(1 << k)
}

// The number of members.
pub fn size_of(s: u64) -> u64
    ensures { result ≡ size s }
{
    u64::from(s.count_ones())
}

// All numbers below n.
pub fn all_below(n: usize) -> u64
    requires { n ≤ 64 }
    ensures { result ≡ set_of n (λ k. 1) }
{
    if n < 64 { (1 << n) - 1 } else { u64::MAX }
}

// The last member of a set that has one. A `while`, and no `ilog2`: document 01 has "parents are walked by trailing zeros" (docs/DECISIONS.md, 28). A run of
// neighbours is passed at a step: once the zeros below a run are filled, adding 1 leaves as many zeros as there are numbers up to the run's end.
pub fn last_of(s: u64) -> usize
    requires { s ≡ 0 → ⊥ }
    ensures { Last result s }
{
    let mut left = s;
    let mut past: usize = 0;
    while left != 0 {
        let filled = left | (left - 1);
        if filled == u64::MAX {
            return 63;
        }
        past = u64::trailing_zeros(filled + 1) as usize;
        left = left & (filled + 1);
    }
    past - 1
}

// The members of a set, from the first on: those that are left.
#[derive(Clone, Copy, Debug, PartialEq, Eq)]
pub struct Members {
    pub left: u64,
}

impl Members {
    pub fn of(s: u64) -> Self
        ensures { result.left ≡ s }
    {
        Self { left: s }
    }
}

impl Iterator for Members {
    type Item = usize;

    ghost next_gives = { TakesFirst };

    ghost remaining = { λ s. at_most s.left };

    fn next(&mut self) -> Option<usize> {
        if self.left == 0 {
            return None;
        }
        let first = self.left.trailing_zeros() as usize;
        self.left &= self.left - 1;
        Some(first)
    }
}
