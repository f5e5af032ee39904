// Writes a plan record. Every rule is tried before the first byte is written, so that a refusal has written nothing.
#![tactic(auto)]

ghost use Rattle.std.specs.Prelude.{◌≡◌, ◌+◌, ◌≤◌, length};
ghost use Rattle.std.proofs.lemmas.List.Edits.{sets};
ghost use Rattle.refusals.specs.Answer.{answered};
ghost use Rattle.plain.specs.Tests.{between};
ghost use Rattle.tables.specs.Limits.{count_max};
ghost use Rattle.numbers.specs.Number.{plan_more};
ghost use Rattle.numbers.specs.Shortest.{all_shortest};
ghost use Rattle.plans.specs.Words.{words_max};
ghost use Rattle.planwriters.specs.Writing.{are_small, plan_record_of, before_writing, write_plan_call};
ghost use Rattle.planwriters.specs.Inner.Fits.{Small, Fits};

use refusals::{Answer, Reason, Refusal};
use tables::TaskTable;

// The first value that nine groups of seven bits do not hold.
const VALUE_LIMIT: u64 = 1 << 63;

// Whether nine groups hold every value.
fn are_small(values: &[u64]) -> bool
    ensures { result ≡ are_small values.now }
{
    values.iter().all(|&value| value < VALUE_LIMIT)
}

// How many bytes the values take, one after the other.
fn size_of(values: &[u64]) -> usize
    requires { Small values.now × (length values.now ≤ words_max) }
    ensures { result ≡ length (all_shortest plan_more values.now) }
{
    values.iter().map(|&value| numbers::length_of(value)).sum()
}

// Writes the values from a place on, and tells the place after them.
fn write_values(values: &[u64], bytes: &mut [u8], from: usize) -> usize
    requires { Small values.now × (from + length (all_shortest plan_more values.now) ≤ length bytes.old) }
    ensures value { result ≡ from + length (all_shortest plan_more values.now) }
    ensures bytes_after { bytes.new ≡ sets bytes.old from (all_shortest plan_more values.now) }
{
    let mut at = from;
    for &value in values {
        at = numbers::write_number(bytes, at, value);
    }
    at
}

// Whether a list's count is one that a plan can have.
fn is_count(value: u64) -> bool
    ensures { result ≡ between 1 value count_max }
{
    (1..=TaskTable::COUNT_MAX).contains(&value)
}

// The rules, in their order. The order of the numbers is nothing to their limit and their size, so both are asked of the words as they stand.
#[tactic(auto, unfolding(crate::specs::Writing::before_writing))]
fn before_writing(words: &[u64], room: usize, id: u64) -> Result<(), Refusal>
    ensures { result ≡ before_writing words.now room id }
{
    if words.len() < plans::WORDS_MAX {
        return Err(Reason::FewWords.at(0));
    }
    let s = words[1];
    if !is_count(s) {
        return Err(Reason::BadPlan.at(1));
    }
    let n = words[2];
    if !is_count(n) {
        return Err(Reason::BadPlan.at(2));
    }
    let written = &words[..(3 + 3 * s + 3 * n) as usize];
    if VALUE_LIMIT <= id || !are_small(written) {
        return Err(Reason::BigWord.at(0));
    }
    if room < numbers::length_of(id) + size_of(written) {
        return Err(Reason::WrongLength.at(room));
    }
    Ok(())
}

// The numbers of the record, part by part: each list after its count. The place after them.
fn write_numbers(words: &[u64], bytes: &mut [u8], id: u64) -> usize
    requires { Fits words.now (length bytes.old) id }
    ensures value { result ≡ length (plan_record_of id words.now) }
    ensures bytes_after { bytes.new ≡ sets bytes.old 0 (plan_record_of id words.now) }
{
    let nodes = (3 + 3 * words[1]) as usize;
    let end = nodes + 3 * words[2] as usize;
    let head_at = numbers::write_number(bytes, 0, id);
    let segments_at = write_values(&words[..2], bytes, head_at);
    let count_at = write_values(&words[3..nodes], bytes, segments_at);
    let nodes_at = write_values(&words[2..3], bytes, count_at);
    write_values(&words[nodes..end], bytes, nodes_at)
}

// How many bytes the plan of the words takes with an id; the first refusal of the rules writes none.
fn write_record(words: &[u64], bytes: &mut [u8], id: u64) -> Result<u64, Refusal>
    ensures { record { answer = answered result; lent = bytes.new } ≡ write_plan_call words.now bytes.old id }
{
    before_writing(words, bytes.len(), id)?;
    Ok(write_numbers(words, bytes, id) as u64)
}

// Writes the plan of the words with an id: 16, 24 at a count's word, 28, and 19 where the bytes are too few.
pub fn write_plan(words: &[u64], bytes: &mut [u8], id: u64) -> Answer
    ensures { record { answer = result; lent = bytes.new } ≡ write_plan_call words.now bytes.old id }
{
    Answer::from(write_record(words, bytes, id))
}
