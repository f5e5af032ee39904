// Mends a task record that a sloppy editor wrote: reads it leniently, counting what is to be mended, and has its table written anew.
#![tactic(auto)]

ghost use Rattle.std.specs.Prelude.{◌≡◌, ◌+◌, ◌≤◌, length};
ghost use Rattle.refusals.specs.Numbers.{number_of};
ghost use Rattle.tables.specs.Limits.{count_max};
ghost use Rattle.tables.specs.Table.{empty_table};
ghost use Rattle.menders.specs.Taken.{any_form, taken};
ghost use Rattle.menders.specs.Listed.{parent_list};
ghost use Rattle.menders.specs.Draft.{nodes_taken, draft_of};
ghost use Rattle.menders.specs.Mending.{mending_of, mend_call};
ghost use Rattle.menders.specs.Inner.Within.{Within};
ghost use Rattle.menders.specs.Inner.Reader.{step_to, list_to, drawn_from};

use listings::Listing;
use numbers::{Fault, Number};
use refusals::{Answer, Reason, Refusal};
use tables::TaskTable;

// A given parent count is at most this.
const PARENTS_MAX: u64 = 255;

// How far the given record was read, and how many of the numbers before that place are padded.
#[derive(Clone, Copy, Debug, PartialEq, Eq)]
pub struct Spot {
    pub at: usize,
    pub padded: u64,
}

// What is to be mended of a record: numbers padded, lists reordered, parents dropped.
#[repr(C)]
#[derive(Clone, Copy, Debug, Default, PartialEq, Eq)]
pub struct Counts {
    pub padded: u64,
    pub reordered: u64,
    pub dropped: u64,
}

// What a given record comes to. No `Result`, since document 01 has a refusal come "from any reader of a table", with "a table that is all zeros"; it has no
// counts.
#[derive(Clone, Copy)]
pub struct Draft {
    pub outcome: Result<(), Refusal>,
    pub table: TaskTable,
    pub counts: Counts,
}

// The answer, and the counts of what was mended. C reads both structs as seven words in a row.
#[repr(C)]
#[derive(Clone, Copy, Debug, PartialEq, Eq)]
pub struct Mending {
    pub answer: Answer,
    pub counts: Counts,
}

// A given record while it is read: its bytes, and the spot up to which its numbers were taken.
#[derive(Clone, Copy)]
struct Reader<'a> {
    bytes: &'a [u8],
    spot: Spot,
    ghost within: { Within bytes.now spot },
}

impl Reader<'_> {
    // Goes on behind a number that was found here, up to which so many are padded; its value.
    // In line, as the next two: out of line a long record takes twice the time.
    #[inline(always)]
    fn pass(&mut self, number: Number, padded: u64) -> u64
        requires { (self.old.spot.at + number.length ≤ length self.old.bytes.now) × (padded ≤ self.old.spot.at + number.length) }
        ensures bytes { self.new.bytes.now ≡ self.old.bytes.now }
        ensures spot { self.new.spot ≡ record { at = self.old.spot.at + number.length; padded = padded } }
        ensures value { result ≡ number.value }
    {
        self.spot = Spot {
            at: self.spot.at + number.length,
            padded,
        };
        number.value
    }

    // The next number, in any form.
    #[inline(always)]
    fn take_any_form(&mut self) -> Result<u64, Refusal>
        ensures bytes { self.new.bytes.now ≡ self.old.bytes.now }
        ensures step { step_to result self.new.spot ≡ any_form self.old.bytes.now self.old.spot }
    {
        let rest = &self.bytes[self.spot.at..];
        // Nearly all take one byte. `read_number` tries these first, too; tried here as well, a long record takes a tenth fewer instructions.
        if let [byte @ 0..=127, ..] = *rest {
            let number = Number {
                value: u64::from(byte),
                length: 1,
            };
            return Ok(self.pass(number, self.spot.padded));
        }
        match numbers::read_number(rest) {
            Ok(number) => Ok(self.pass(number, self.spot.padded)),
            Err(Fault::NotShortest(number)) => Ok(self.pass(number, self.spot.padded + 1)),
            Err(Fault::Ended) => Err(Reason::Ended.at(self.bytes.len())),
            Err(Fault::TooLong) => Err(Reason::TooLong.at(self.spot.at)),
        }
    }

    // The next number, and only then its range.
    #[inline(always)]
    fn take_number(&mut self, broken: Reason, low: u64, high: u64) -> Result<u64, Refusal>
        ensures bytes { self.new.bytes.now ≡ self.old.bytes.now }
        ensures step { step_to result self.new.spot ≡ taken (number_of broken) low high self.old.bytes.now self.old.spot }
    {
        let from = self.spot.at;
        let value = self.take_any_form()?;
        if !(low..=high).contains(&value) {
            return Err(broken.at(from));
        }
        Ok(value)
    }

    // The next parent count, and that many parents, each below n. On a copy of the reader: behind `self` its spot would be written at each parent.
    fn take_parents(&mut self, n: u64) -> Result<Listing, Refusal>
        requires { (1 ≤ n) × (n ≤ count_max) }
        ensures bytes { self.new.bytes.now ≡ self.old.bytes.now }
        ensures list { list_to result self.new.spot ≡ parent_list n self.old.bytes.now self.old.spot }
    {
        let mut given = *self;
        let count = given.take_number(Reason::BadParent, 0, PARENTS_MAX)?;
        let mut list = Listing::none(given.spot.padded);
        for _ in 0..count {
            let parent = given.take_number(Reason::BadParent, 0, n - 1)?;
            list = list.with_parent(parent, given.spot.padded);
        }
        *self = given;
        Ok(list)
    }

    // The nodes of a table whose head was read, into it, and nothing after them; what is to be mended of the whole record.
    fn take_nodes(&mut self, table: &mut TaskTable) -> Result<Counts, Refusal>
        requires { (1 ≤ table.old.count) × (table.old.count ≤ count_max) }
        ensures { drawn_from table.new result ≡ nodes_taken table.old.count 0 table.old 0 0 self.old.bytes.now self.old.spot }
    {
        let n = table.count;
        let least = tables::least_execution(table.edition);
        let mut counts = Counts::default();
        for v in 0..n {
            let longest = TaskTable::EXECUTION_MAX;
            let execution = self.take_number(Reason::BadExecution, least, longest)?;
            let list = self.take_parents(n as u64)?;
            table.execution[v] = execution;
            table.parents[v] = list.set;
            counts.reordered += list.reordered;
            counts.dropped += list.dropped;
        }
        if self.spot.at < self.bytes.len() {
            return Err(Reason::BytesFollow.at(self.spot.at));
        }
        counts.padded = self.spot.padded;
        Ok(counts)
    }
}

// The table of a given record, into an empty one that is lent: by value it would be copied from function to function. Its counts.
fn take_table(bytes: &[u8], table: &mut TaskTable) -> Result<Counts, Refusal>
    requires { table.old ≡ empty_table }
    ensures { drawn_from table.new result ≡ draft_of bytes.now }
{
    let spot = Spot { at: 0, padded: 0 };
    let mut given = Reader { bytes, spot };
    let edition = given.take_number(Reason::BadEdition, 1, TaskTable::EDITION_MAX)?;
    let id = given.take_number(Reason::BadId, 1, TaskTable::ID_MAX)?;
    let period = given.take_number(Reason::BadPeriod, 1, TaskTable::PERIOD_MAX)?;
    let count = given.take_number(Reason::BadCount, 1, TaskTable::COUNT_MAX)?;
    table.edition = edition;
    table.id = id;
    table.period = period;
    table.count = count as usize;
    given.take_nodes(table)
}

// The table that a given record holds, with its counts; or the refusal of the first rule that it breaks.
pub fn read_draft(bytes: &[u8]) -> Draft
    ensures { result ≡ draft_of bytes.now }
{
    let mut table = TaskTable::empty();
    match take_table(bytes, &mut table) {
        Ok(counts) => Draft {
            outcome: Ok(()),
            table,
            counts,
        },
        Err(refusal) => Draft {
            outcome: Err(refusal),
            table: TaskTable::empty(),
            counts: Counts::default(),
        },
    }
}

// The length of the mended record, and what was mended. Where the reading or the writing refuses, nothing was.
fn write_mended(given: &[u8], bytes: &mut [u8]) -> Result<(u64, Counts), Refusal>
    ensures { record { after = record { answer = (mending_of result).answer; lent = bytes.new }; counts = (mending_of result).counts } ≡ mend_call given.now bytes.old }
{
    let draft = read_draft(given);
    draft.outcome?;
    let size = writers::write_table(draft.table, bytes)?;
    Ok((size, draft.counts))
}

// Writes the mended record of a given one: what its table's record is. C reads the answer and the counts.
pub fn mend(given: &[u8], bytes: &mut [u8]) -> Mending
    ensures counts_after { record { after = record { answer = result.answer; lent = bytes.new }; counts = result.counts } ≡ mend_call given.now bytes.old }
    ensures value_in_bounds { result.answer.value ≤ length bytes.old }
{
    match write_mended(given, bytes) {
        Ok((size, counts)) => Mending {
            answer: Answer::accepted(size),
            counts,
        },
        Err(refusal) => Mending {
            answer: Answer::refused(refusal),
            counts: Counts::default(),
        },
    }
}
