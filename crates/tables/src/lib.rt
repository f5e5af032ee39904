// The table of one task: what a record says, by value.
#![tactic(auto)]

ghost use Rattle.std.specs.Prelude.{◌≡◌, map, ℕ, ◌≤◌, length};
ghost use Rattle.plain.specs.At.{at};
ghost use Rattle.tables.specs.Limits.{edition_max, id_max, period_max, count_max, execution_max, least_execution, cost_max, run_max, million};
ghost use Rattle.tables.specs.Table.{empty_table};
ghost use Rattle.tables.specs.Runs.{all_zero};
ghost use Rattle.tables.specs.Cost.{with_cost};

// A parent set is one word: bit p of parents[v] is set where v waits for p. Document 01: "The table read from a record holds 64 execution times and 64 parent
// sets, a set being one 64-bit word. Entries past the node count are 0."
#[derive(Clone, Copy)]
pub struct TaskTable {
    pub edition: u64,
    pub id: u64,
    pub period: u64,
    pub count: usize,
    pub execution: [u64; 64],
    pub parents: [u64; 64],
}

// One, in millionths.
pub const MILLION: u64 = 1_000_000;

impl TaskTable {
    pub const EDITION_MAX: u64 = 2;

    pub const ID_MAX: u64 = 65535;

    pub const PERIOD_MAX: u64 = 16777215;

    pub const COUNT_MAX: u64 = 64;

    pub const EXECUTION_MAX: u64 = 65535;

    pub const COST_MAX: u64 = 255;

    pub fn empty() -> Self
        ensures { result ≡ empty_table }
    {
        Self {
            edition: 0,
            id: 0,
            period: 0,
            count: 0,
            execution: [0; 64],
            parents: [0; 64],
        }
    }
}

// The least execution of an edition: from edition 2 on a node may be a join, which runs for no time.
pub fn least_execution(edition: u64) -> u64
    ensures { result ≡ least_execution edition }
{
    if edition == 1 { 1 } else { 0 }
}

// Whether the first n executions are all 0. The number stands beside the list, here and below, as in the definition (`all_zero X n`): tables hold both.
pub fn all_zero(executions: &[u64], n: usize) -> bool
    requires { n ≤ length executions.now }
    ensures { result ≡ all_zero executions.now n }
{
    executions[..n].iter().all(|written| *written == 0)
}

// A node's execution, with the cost of its dispatch; a join pays nothing.
fn with_cost(written: u64, cost: u64) -> u64
    requires { with_cost cost written ≤ run_max }
    ensures { result ≡ with_cost cost written }
{
    if written == 0 { 0 } else { written + cost }
}

// The executions of n nodes, each with the cost; past them stands 0, which stays.
pub fn add_cost(executions: &mut [u64; 64], n: usize, cost: u64)
    requires { (n ≤ count_max) × ((v : ℕ) → with_cost cost (at executions.old v) ≤ run_max) × ((v : ℕ) → n ≤ v → at executions.old v ≡ 0) }
    ensures { executions.new ≡ map (with_cost cost) executions.old }
{
    for execution in executions[..n].iter_mut() {
        *execution = with_cost(*execution, cost);
    }
}

// Each constant is the limit that specs/ gives the name.
pub fn limits_named()
    ensures edition_max { TaskTable.EDITION_MAX ≡ edition_max }
    ensures id_max { TaskTable.ID_MAX ≡ id_max }
    ensures period_max { TaskTable.PERIOD_MAX ≡ period_max }
    ensures count_max { TaskTable.COUNT_MAX ≡ count_max }
    ensures execution_max { TaskTable.EXECUTION_MAX ≡ execution_max }
    ensures cost_max { TaskTable.COST_MAX ≡ cost_max }
    ensures million { MILLION ≡ million }
{}
