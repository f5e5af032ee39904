// Reads a plan record into a plan's words.
#![tactic(auto)]

ghost use Rattle.std.specs.Prelude.{◌≡◌, List, ℕ, ◌+◌, ◌*◌, ◌≤◌, length, take, drop};
ghost use Rattle.refusals.specs.Answer.{answered};
ghost use Rattle.tables.specs.Limits.{count_max};
ghost use Rattle.numbers.specs.Number.{plan_more};
ghost use Rattle.records.specs.Ranged.{whole_in};
ghost use Rattle.plans.specs.Words.{words_max};
ghost use Rattle.planreaders.specs.Plan.{several, list_at, PlanRead, plan_of};
ghost use Rattle.planreaders.specs.Reading.{filled_with, read_plan_call};
ghost use Rattle.planreaders.specs.Inner.Listed.{list_step, told};

use records::Read;
use refusals::{Answer, Reason, Refusal};
use tables::TaskTable;

// A plan record's number has at most this many bytes after its first.
const PLAN_MORE: u64 = 8;

// The number at a place, whole. Two functions hand a place on here: a reader as `records` has one would be its twin.
fn read_value(plan: &[u8], at: usize) -> Result<Read, Refusal>
    requires { at ≤ length plan.now }
    ensures { result ≡ whole_in plan_more plan.now at }
{
    records::step_of(
        numbers::number_within(&plan[at..], PLAN_MORE),
        at,
        plan.len(),
    )
}

// A list, its triples to the front of the words: told with its count, and the place after it.
fn read_list(plan: &[u8], at: usize, words: &mut [u64]) -> Result<Read, Refusal>
    requires { (at ≤ length plan.now) × (3 * count_max ≤ length words.old) }
    ensures value { result ≡ list_step (list_at plan.now at) }
    ensures by_index { (values : List ℕ) (next : ℕ) → list_at plan.now at ≡ several values next → words.new ≡ filled_with (drop 1 values) words.old }
{
    let whole = read_value(plan, at);
    let count = records::in_range(whole, at, Reason::BadPlan.number(), 1, TaskTable::COUNT_MAX)?;
    let mut next = count.next;
    for word in &mut words[..3 * count.value as usize] {
        let read = read_value(plan, next)?;
        *word = read.value;
        next = read.next;
    }
    Ok(Read { next, ..count })
}

// What a plan record comes to beside the plan's words: its id, and how many words they are.
#[derive(Clone, Copy, Debug, PartialEq, Eq)]
pub struct PlanRecord {
    pub id: u64,
    pub words: usize,
}

// A plan's words from its record. Where the record is refused, some may be written.
pub fn read_words(plan: &[u8], words: &mut [u64]) -> Result<PlanRecord, Refusal>
    requires { words_max ≤ length words.old }
    ensures value { result ≡ told (plan_of plan.now) }
    ensures by_index { (id : ℕ) (found : List ℕ) → plan_of plan.now ≡ PlanRead.read id found → words.new ≡ filled_with found words.old }
{
    let id = read_value(plan, 0)?;
    let over = read_value(plan, id.next)?;
    let segments = read_list(plan, over.next, &mut words[3..])?;
    let behind = 3 + 3 * segments.value as usize;
    let nodes = read_list(plan, segments.next, &mut words[behind..])?;
    if nodes.next < plan.len() {
        return Err(Reason::BytesFollow.at(nodes.next));
    }
    words[0] = over.value;
    words[1] = segments.value;
    words[2] = nodes.value;
    Ok(PlanRecord {
        id: id.value,
        words: behind + 3 * nodes.value as usize,
    })
}

// The first words of one slice to the front of another.
pub fn copy_words(from: &[u64], count: usize, words: &mut [u64])
    requires { (count ≤ length from.now) × (count ≤ length words.old) }
    ensures { words.new ≡ filled_with (take count from.now) words.old }
{
    words[..count].copy_from_slice(&from[..count]);
}

// The id of a plan record, read into spare words: only where all of it was accepted are they copied to the others.
fn read_aside(plan: &[u8], words: &mut [u64]) -> Result<u64, Refusal>
    ensures { record { answer = answered result; lent = words.new } ≡ read_plan_call plan.now words.old }
{
    if words.len() < plans::WORDS_MAX {
        return Err(Reason::FewWords.at(0));
    }
    let mut spare = [0u64; plans::WORDS_MAX];
    let read = read_words(plan, &mut spare)?;
    copy_words(&spare, read.words, words);
    Ok(read.id)
}

// Reads a plan record into the words, and answers its id. A refusal, however late, writes none of them.
pub fn read_plan(plan: &[u8], words: &mut [u64]) -> Answer
    ensures { record { answer = result; lent = words.new } ≡ read_plan_call plan.now words.old }
{
    Answer::from(read_aside(plan, words))
}
