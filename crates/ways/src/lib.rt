// The work and the longest execution of a task. Starts, finishes and the loop are definitions here, and come out of running the timing diagram.
#![tactic(auto)]

ghost use Rattle.std.specs.Prelude.{◌≡◌, ℕ, ◌≤◌};
ghost use Rattle.plain.specs.At.{at};
ghost use Rattle.ways.specs.Inner.Weights.{weight_max};
ghost use Rattle.ways.specs.Totals.{work_of, longest_of};

// The sum of the weights, and the greatest.
#[derive(Clone, Copy)]
pub struct Weighed {
    pub work: u64,
    pub longest: u64,
}

// The work and the longest of n weights, which stand as a table has them (tables::TaskTable). The number stands beside the array, as in the definitions (`work_of X n`): tables hold both.
pub fn weigh(weights: &[u64; 64], n: usize) -> Weighed
    requires { (n ≤ 64) × ((v : ℕ) → at weights.now v ≤ weight_max) }
    ensures { (result.work ≡ work_of weights.now n) × (result.longest ≡ longest_of weights.now n) }
{
    let mut weighed = Weighed {
        work: 0,
        longest: 0,
    };
    for v in 0..n {
        let weight = weights[v];
        weighed.work += weight;
        weighed.longest = weighed.longest.max(weight);
    }
    weighed
}
