// Standard input, as the programs read it.
#![tactic(auto)]

ghost use Rattle.std.specs.Prelude.{ℕ, List, ◌≤◌, ◌<◌, length, take, IfSome};
ghost use Rattle.std.specs.Io.KnownBytes.{Consumes};

use std::io::{Read, Write};

// Reads until the buffer is full, the input ends or a read fails; as many bytes were put at the buffer's start.
pub fn read_full<R: Read>(reader: &mut R, buffer: &mut [u8]) -> usize
    ensures in_bounds { result ≤ length buffer.new }
    ensures bytes { Consumes (R.remaining reader.old) (R.remaining reader.new) (take result buffer.new) }
{
    let mut done: usize = 0;
    // A read says how far it came, so no `for` serves.
    while done < buffer.len() {
        match reader.read(&mut buffer[done..]) {
            Ok(0) | Err(_) => break,
            Ok(count) => done += count,
        }
    }
    done
}

// Whether the input, of which nothing was read, is at its end: a read that fails is no empty record, and no empty text.
pub fn at_end<R: Read>(reader: &mut R) -> bool {
    let mut byte = [0u8; 1];
    reader.read(&mut byte).is_ok()
}

// How many bytes of the input were put at the buffer's start, or none where it cannot be read.
pub fn read_input<R: Read>(reader: &mut R, buffer: &mut [u8]) -> Option<usize>
    ensures in_bounds { IfSome result (λ got. got ≤ length buffer.new) }
    ensures bytes { IfSome result (λ got. 0 < got → Consumes (R.remaining reader.old) (R.remaining reader.new) (take got buffer.new)) }
{
    let got = read_full(reader, buffer);
    if got == 0 && !at_end(reader) {
        return None;
    }
    Some(got)
}

// Prints what a function writes of the input into `out`, or says under the program's name that the input cannot be read. No clause can say what a handle
// prints:
// the gate compares it.
pub fn print_sheet<F: FnOnce(&[u8], &mut [u8]) -> usize>(
    rt: HostRuntime,
    program: &str,
    input: &mut [u8],
    out: &mut [u8],
    sheet: F,
)
    requires callable { F.IsAlwaysCallable sheet }
    requires upper_bound { (text : _) (old : _) (count : _) (new : _) → F.post sheet text old count new → count ≤ length old.now }
{
    let Some(got) = read_input(&mut rt.stdin(), input) else {
        eprintln!(rt; "{program}: standard input cannot be read").ok();
        return;
    };
    let count = sheet(&input[..got], out);
    rt.stdout().write_all(&out[..count]).ok();
}
