// The text that plancheck prints, written into a lent buffer.
#![tactic(auto)]

ghost use Rattle.std.specs.Prelude.{◌≡◌, ◌+◌, ◌≤◌, length};
ghost use Rattle.texts.specs.Inner.Page.{Puts};
ghost use Rattle.sheets.specs.Lines.{refused_line};
ghost use Rattle.sheets.specs.Printed.{printed};
ghost use Rattle.sheets.specs.Inner.Printable.{SheetRoom};
ghost use Rattle.planchecks.specs.Pair.{on_pair};
ghost use Rattle.planchecks.specs.Inner.Pair.{two_records, contents};
ghost use Rattle.planchecks.specs.Sheet.{pair_text, check_sheet};

use refusals::{Reason, Refusal};
use sheets::Head;
use texts::Page;

// So many bytes of the input are read.
pub const INPUT_MAX: usize = 8_192;

// The sheet of a plan that is judged, or the line of its refusal.
fn put_judged(page: &mut Page, bytes: &[u8], plan: &[u8])
    requires { SheetRoom page.old }
    ensures { Puts page.old (pair_text bytes.now plan.now) page.new }
{
    let mut words = [0u64; plans::WORDS_MAX];
    match judges::judge(bytes, plan, &mut words, 0) {
        Ok(judging) => {
            let head = Head {
                id: judging.id,
                period: judging.period,
                work: judging.work,
                path: judging.path,
            };
            sheets::put_sheet(page, head, &words);
        }
        Err(refusal) => sheets::put_refusal(page, refusal),
    }
}

// The two records of an input: the second lies behind the first, with nothing after it.
fn two_records(input: &[u8]) -> Result<(&[u8], &[u8]), Refusal>
    ensures { contents result ≡ two_records input.now }
{
    let first = files::record_at(input, 0)?;
    let size = first.value as usize;
    let second = files::record_at(input, first.next + size)?;
    let last = second.value as usize;
    let end = second.next + last;
    if end < input.len() {
        return Err(Reason::BytesFollow.at(end));
    }
    Ok((
        files::part_of(input, first.next, size),
        files::part_of(input, second.next, last),
    ))
}

// The sheet of the plan that an input holds behind its task, or the line of a refusal.
fn put_pair(page: &mut Page, input: &[u8])
    requires { SheetRoom page.old }
    ensures { Puts page.old (on_pair refused_line pair_text input.now) page.new }
{
    match two_records(input) {
        Ok((bytes, plan)) => put_judged(page, bytes, plan),
        Err(refusal) => sheets::put_refusal(page, refusal),
    }
}

// The text of an input; a smaller buffer than SHEET_MAX is left as it is.
pub fn sheet(input: &[u8], out: &mut [u8]) -> usize
    ensures out_after { record { count = result; out = out.new } ≡ printed (check_sheet input.now) out.old }
    ensures upper_bound { result ≤ length out.old }
{
    let read = &input[..INPUT_MAX.min(input.len())];
    sheets::print(out, |page| put_pair(page, read))
}
