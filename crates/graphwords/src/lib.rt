// The words of a text, from the left: where each begins, and the number of one that is all digits.
#![tactic(auto)]

ghost use Rattle.std.specs.Prelude.{◌≡◌, true, ◌+◌, ◌-◌, ◌*◌, ◌≤◌, length};
ghost use Rattle.std.specs.List.{prefix_len};
ghost use Rattle.graphwords.specs.Words.{is_parting, words_at};
ghost use Rattle.graphwords.specs.Decimal.{is_digit};
ghost use Rattle.graphwords.specs.Inner.Found.{cap, capped, found_in, Begins};

// Past every limit of a text: numbers are counted no further.
const CAP: u64 = 65_536;

// A word that is a number, and the place past it.
#[derive(Clone, Copy, Debug, PartialEq, Eq)]
pub struct Number {
    pub value: u64,
    pub place: usize,
    pub end: usize,
}

// What stands where a number was looked for.
#[derive(Clone, Copy, Debug, PartialEq, Eq)]
pub enum Fault {
    Ended,
    Other { place: usize },
}

fn is_parting(byte: u8) -> bool
    ensures { result ≡ is_parting byte }
{
    matches!(byte, b' ' | b'\n' | b'\r')
}

// How many partings a text begins with.
fn partings(text: &[u8]) -> usize
    ensures { result ≡ prefix_len is_parting text.now }
{
    text.iter().take_while(|byte| is_parting(**byte)).count()
}

// Where the first word from a place on begins: the text's length where there is none.
pub fn word_at(text: &[u8], from: usize) -> usize
    requires { from ≤ length text.now }
    ensures { Begins text.now from result }
{
    from + partings(&text[from..])
}

// A number with one digit more.
fn with_digit(value: u64, digit: u8) -> u64
    requires { (value ≤ cap) × (is_digit digit ≡ true) }
    ensures { result ≡ capped (10 * value + (digit - 48)) }
{
    (10 * value + u64::from(digit - b'0')).min(CAP)
}

// The first word from a place on, read to its end.
pub fn read_word(text: &[u8], from: usize) -> Result<Number, Fault>
    requires { from ≤ length text.now }
    ensures { result ≡ found_in (words_at text.now from) }
{
    let place = word_at(text, from);
    if place == text.len() {
        return Err(Fault::Ended);
    }
    let mut value = 0;
    for (passed, byte) in text[place..].iter().enumerate() {
        if is_parting(*byte) {
            return Ok(Number {
                value,
                place,
                end: place + passed,
            });
        }
        if !byte.is_ascii_digit() {
            return Err(Fault::Other { place });
        }
        value = with_digit(value, *byte);
    }
    Ok(Number {
        value,
        place,
        end: text.len(),
    })
}
