// The counts of a whole building's file: each of its records planned alone.
#![tactic(auto)]

ghost use Rattle.std.specs.Prelude.{◌≡◌, ℕ, ◌≤◌, ◌<◌, MatchResult, length};
ghost use Rattle.refusals.specs.Answer.{answered};
ghost use Rattle.tables.specs.Limits.{cost_max};
ghost use Rattle.plans.specs.Words.{words_max};
ghost use Rattle.buildings.specs.Counts.{numbers_max, no_counts};
ghost use Rattle.buildings.specs.Building.{file_max, before_walking, building_call};
ghost use Rattle.buildings.specs.Inner.Tally.{task_sums, tally_of, with_tally};
ghost use Rattle.buildings.specs.Inner.Sized.{Sized, Low};
ghost use Rattle.buildings.specs.Inner.PlanOf.{PlanOf};

use plans::Planning;
use refusals::{Answer, Reason, Refusal};
use shares::Times;
use tables::TaskTable;

// The limit of specs/: so many bytes of a file are walked.
pub const FILE_MAX: usize = 1_048_576;

// The refusal numbers run up to 28, and 0 is none.
pub const NUMBERS: usize = 29;

// What is counted of a file's records. refused[k] counts those that planning refuses by k; all behind it count accepted ones only.
#[repr(C)]
#[derive(Clone, Copy, Default)]
pub struct Counts {
    pub records: u64,
    pub accepted: u64,
    pub refused: [u64; NUMBERS],
    pub nodes: u64,
    pub segments: u64,
    pub work: u64,
    pub heavy: u64,
    pub light: u64,
    pub dense: u64,
}

// What a file comes to: how the walk ended, and the counts of the records before that. Both lie as C's struct planner_counts has them, so the answer is no
// Result here,
// and a refusal is counted under its number.
#[repr(C)]
#[derive(Clone, Copy)]
pub struct Building {
    pub answer: Answer,
    pub counts: Counts,
}

// What an accepted record adds.
#[derive(Clone, Copy)]
pub struct Sums {
    pub nodes: u64,
    pub segments: u64,
    pub work: u64,
    pub heavy: u64,
    pub light: u64,
    pub dense: u64,
}

impl Counts {
    // One record more, that is refused or adds so much.
    fn add(&mut self, tally: Result<Sums, Refusal>)
        requires { (n : ℕ) × (n < file_max) × Sized n self.old × MatchResult tally Low (λ r. r.number < numbers_max) }
        ensures { self.new ≡ with_tally self.old tally }
    {
        self.records += 1;
        match tally {
            Ok(sums) => {
                self.accepted += 1;
                self.nodes += sums.nodes;
                self.segments += sums.segments;
                self.work += sums.work;
                self.heavy += sums.heavy;
                self.light += sums.light;
                self.dense += sums.dense;
            }
            Err(refusal) => self.refused[refusal.number as usize] += 1,
        }
    }
}

// What an accepted task adds, read off its plan's words.
fn sums_of(words: &[u64], period: u64, planning: Planning) -> Sums
    requires { (t : TaskTable) × PlanOf t words.now period planning }
    ensures { (t : TaskTable) → PlanOf t words.now period planning → result ≡ task_sums t }
{
    let s = words[1] as usize;
    let n = words[2] as usize;
    let Planning { work, path, .. } = planning;
    let kinds = Times { period, work, path }.kinds_of(words, s);
    let figures = shares::figures_of(&words[3 + 3 * s..], n);
    Sums {
        nodes: n as u64,
        segments: s as u64,
        work,
        heavy: kinds.heavies as u64,
        light: (s - kinds.heavies) as u64,
        dense: u64::from(tables::MILLION < figures.largest),
    }
}

// What a record adds, planned alone; its plan stays in the words.
fn tally_of(bytes: &[u8], words: &mut [u64], cost: u64) -> Result<Sums, Refusal>
    requires { (cost ≤ cost_max) × (words_max ≤ length words.old) }
    ensures { result ≡ tally_of bytes.now cost }
{
    let table = records::read_table(bytes)?;
    let planning = plans::plan_table(words, table, cost, Answer::accepted(0))?;
    Ok(sums_of(words, table.period, planning))
}

// Whether a file is to be walked at all: 26 where the cost is too high, 27 where the file is too long.
#[tactic(auto, unfolding(crate::specs::Building::before_walking))]
fn before_walking(size: usize, cost: u64) -> Result<(), Refusal>
    ensures { result ≡ before_walking size cost }
{
    if TaskTable::COST_MAX < cost {
        return Err(Reason::HighCost.at(0));
    }
    if FILE_MAX < size {
        return Err(Reason::LongFile.at(0));
    }
    Ok(())
}

// Counts the records of a file, up to its end or to the refusal that ends the walk, and says how many they are.
fn count_records(file: &[u8], cost: u64, counts: &mut Counts) -> Result<u64, Refusal>
    requires { counts.old ≡ no_counts }
    ensures { record { answer = answered result; counts = counts.new } ≡ building_call file.now cost }
{
    before_walking(file.len(), cost)?;
    let mut words = [0u64; plans::WORDS_MAX];
    let mut at: usize = 0;
    // A `while`: each record tells where the next one begins, and a refusal tells its place in the whole file, so an iterator is no plainer.
    while at < file.len() {
        let found = files::record_at(file, at)?;
        let size = found.value as usize;
        counts.add(tally_of(files::part_of(file, found.next, size), &mut words, cost));
        at = found.next + size;
    }
    Ok(counts.records)
}

// Plans each record of a file alone, with the cost, and counts.
pub fn count_building(file: &[u8], cost: u64) -> Building
    ensures { result ≡ building_call file.now cost }
{
    let mut counts = Counts::default();
    let answer = Answer::from(count_records(file, cost, &mut counts));
    Building { answer, counts }
}
