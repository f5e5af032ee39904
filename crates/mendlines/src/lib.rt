// The line that mend prints, written into a lent buffer.
#![tactic(auto)]

ghost use Rattle.std.specs.Prelude.{◌≡◌, ◌≤◌, length};
ghost use Rattle.texts.specs.Inner.Page.{Puts};
ghost use Rattle.sheets.specs.Printed.{printed};
ghost use Rattle.sheets.specs.Inner.Printable.{SheetRoom};
ghost use Rattle.mendlines.specs.Line.{mend_line};

use menders::Mending;
use refusals::Refusal;
use texts::Page;

// The counts, or the refusal. C reads a mending, so that its answer is no `Result`: refusal 0 is acceptance.
fn put_mending(page: &mut Page, mending: Mending)
    requires { SheetRoom page.old }
    ensures { Puts page.old (mend_line mending) page.new }
{
    if mending.answer.refusal != 0 {
        return sheets::put_refusal(page, Refusal::told_by(mending.answer));
    }
    let counts = mending.counts;
    page.put_line(&[
        (b"padded ", counts.padded),
        (b"reordered ", counts.reordered),
        (b"dropped ", counts.dropped),
    ]);
}

// The line of a mending; a smaller buffer than SHEET_MAX is left as it is.
pub fn line(mending: Mending, out: &mut [u8]) -> usize
    ensures out_after { record { count = result; out = out.new } ≡ printed (mend_line mending) out.old }
    ensures upper_bound { result ≤ length out.old }
{
    sheets::print(out, |page| put_mending(page, mending))
}
