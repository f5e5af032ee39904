// Walks a file of records, each preceded by its length.
#![tactic(auto)]

ghost use Rattle.std.specs.Prelude.{◌≡◌, ◌+◌, ◌≤◌, length, IfOk};
ghost use Rattle.files.specs.File.{length_at, record_at, part_of};

use numbers::Fault;
use records::Read;
use refusals::{Reason, Refusal};

// The length of the record at a place, and the place after it. A fault of the length stands at its place, whatever it is.
fn length_at(file: &[u8], at: usize) -> Result<Read, Refusal>
    requires { at ≤ length file.now }
    ensures value { result ≡ length_at file.now at }
    ensures within { IfOk result (λ r. r.next ≤ length file.now) }
{
    match numbers::read_number(&file[at..]) {
        Ok(size) => Ok(Read {
            value: size.value,
            next: at + size.length,
        }),
        Err(Fault::Ended) => Err(Reason::Ended.at(at)),
        Err(Fault::TooLong) => Err(Reason::TooLong.at(at)),
        Err(Fault::NotShortest(_)) => Err(Reason::NotShortest.at(at)),
    }
}

// What stands at a place: a record, with its length as the value and its first byte as the next place; or the refusal that ends the walk.
pub fn record_at(file: &[u8], at: usize) -> Result<Read, Refusal>
    requires { at ≤ length file.now }
    ensures { result ≡ record_at file.now at }
{
    let record = length_at(file, at)?;
    let left = (file.len() - record.next) as u64;
    if left < record.value {
        return Err(Reason::Ended.at(file.len()));
    }
    Ok(record)
}

// The record itself: the part of the file that it occupies.
pub fn part_of(file: &[u8], begin: usize, size: usize) -> &[u8]
    requires { begin + size ≤ length file.now }
    ensures { result.now ≡ part_of file.now begin size }
{
    &file[begin..begin + size]
}
