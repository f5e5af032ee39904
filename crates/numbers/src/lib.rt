// Numbers in groups of seven bits, lowest group first.
#![tactic(auto)]

ghost use Rattle.std.specs.Prelude.{◌≡◌, ℕ, ◌+◌, ◌^◌, ◌<◌, ◌≤◌, List, length};
ghost use Rattle.std.proofs.lemmas.List.Edits.{sets};
ghost use Rattle.numbers.specs.Number.{before, joined, number, record_more, worth};
ghost use Rattle.numbers.specs.Shortest.{shortest};
ghost use Rattle.numbers.specs.Inner.Word.{word_more};

// A number with the bytes it takes.
#[derive(Clone, Copy, Debug, PartialEq, Eq)]
pub struct Number {
    pub value: u64,
    pub length: usize,
}

// Why there is none. A padded one has its value and length all the same.
#[derive(Clone, Copy, Debug, PartialEq, Eq)]
pub enum Fault {
    Ended,
    TooLong,
    NotShortest(Number),
}

// A record's number has at most this many bytes after its first.
const RECORD_MORE: u64 = 3;

// A byte that is a number by itself.
fn one_byte(byte: u8) -> Number
    ensures { result ≡ worth byte 1 }
{
    Number {
        value: u64::from(byte),
        length: 1,
    }
}

// A byte with its top bit set, before a number of at most eight bytes.
fn joined(byte: u8, rest: Number) -> Number
    requires { (rest.value < 128 ^ 8) × (rest.length ≤ 8) }
    ensures { result ≡ joined byte rest }
{
    Number {
        value: u64::from(byte % 128) + 128 * rest.value,
        length: rest.length + 1,
    }
}

// The same before a rest of at most eight bytes that was read.
#[tactic(auto, using(crate::proofs::Cases::before_none, crate::proofs::Cases::before_some), unfolding(crate::specs::Number::before))]
fn before(byte: u8, rest: Result<Number, Fault>) -> Result<Number, Fault>
    requires { (more : ℕ) × (s : List ℕ) × (rest ≡ number more s) × (more ≤ 7) }
    ensures { result ≡ before byte rest }
{
    match rest {
        Ok(number) if number.value == 0 => Err(Fault::NotShortest(joined(byte, number))),
        Ok(number) => Ok(joined(byte, number)),
        Err(Fault::NotShortest(number)) => Err(Fault::NotShortest(joined(byte, number))),
        Err(fault) => Err(fault),
    }
}

// The number at the front of rest, of at most more bytes after its first.
#[tactic(auto, using(crate::proofs::Cases::none, crate::proofs::Cases::last, crate::proofs::Cases::not_last, crate::proofs::Cases::follows))]
pub fn number_within(rest: &[u8], more: u64) -> Result<Number, Fault>
    requires { more ≤ 8 }
    ensures { result ≡ number more rest.now }
{
    match rest {
        [] => Err(Fault::Ended),
        [byte @ 0..=127, ..] => Ok(one_byte(*byte)),
        [byte, rest @ ..] if 0 < more => before(*byte, number_within(rest, more - 1)),
        _ => Err(Fault::TooLong),
    }
}

// A record's number that is mostly of two bytes or three: more numbers follow, so these are tried first.
#[tactic(auto, using(crate::proofs::Cases::two_bytes, crate::proofs::Cases::three_bytes))]
fn read_long(rest: &[u8]) -> Result<Number, Fault>
    ensures { result ≡ number record_more rest.now }
{
    match *rest {
        [first @ 128..=255, second @ 1..=127, ..] => Ok(joined(first, one_byte(second))),
        [first @ 128..=255, second @ 128..=255, third @ 1..=127, ..] => Ok(joined(
            first,
            joined(second, one_byte(third)),
        )),
        _ => number_within(rest, RECORD_MORE),
    }
}

// A record's number at the front of rest. Nearly all are one byte, so that is tried first, in a function that is small enough to be inlined. Where nothing is
// left is told here too: behind a call it would keep the loops of callers out of their registers.
#[tactic(auto, using(crate::proofs::Cases::none, crate::proofs::Cases::last))]
#[inline(always)]
pub fn read_number(rest: &[u8]) -> Result<Number, Fault>
    ensures { result ≡ number record_more rest.now }
{
    match *rest {
        [] => Err(Fault::Ended),
        [byte @ 0..=127, ..] => Ok(one_byte(byte)),
        _ => read_long(rest),
    }
}

// How many bytes a word takes in shortest form: one for each seven bits that are begun, and one for 0.
pub fn length_of(value: u64) -> usize
    ensures { result ≡ length (shortest word_more value) }
{
    value.max(1).ilog2() as usize / 7 + 1
}

// Writes a word in shortest form at a place, and tells the place after it.
pub fn write_number(bytes: &mut [u8], from: usize, value: u64) -> usize
    requires { from + length (shortest word_more value) ≤ length bytes.old }
    ensures value { result ≡ from + length (shortest word_more value) }
    ensures bytes_after { bytes.new ≡ sets bytes.old from (shortest word_more value) }
{
    let mut left = value;
    let mut at = from;
    // A `while`: only the quotient tells how many bytes are to come, so a `for` over the places would need `length_of` first, which is no plainer.
    while 128 <= left {
        bytes[at] = (128 + left % 128) as u8;
        left /= 128;
        at += 1;
    }
    bytes[at] = (left % 128) as u8;
    at + 1
}
