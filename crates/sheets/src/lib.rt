// The text that plansheet prints, written into a lent buffer.
#![tactic(auto)]

mod lines;

ghost use Rattle.std.specs.Prelude.{◌≡◌, ◌≤◌, List, ℕ, length};
ghost use Rattle.std.specs.Borrow.{MutBor};
ghost use Rattle.tables.specs.Cost.{costed};
ghost use Rattle.tables.specs.Inner.Plannable.{Plannable};
ghost use Rattle.plans.specs.Calls.{on_table};
ghost use Rattle.texts.specs.declared.Page.{Page};
ghost use Rattle.texts.specs.Inner.Page.{Puts};
ghost use Rattle.sheets.specs.Lines.{refused_line};
ghost use Rattle.sheets.specs.Sheet.{sheet_text};
ghost use Rattle.sheets.specs.Printed.{table_sheet, sheet_cost, sheet_of, printed, Prints};
ghost use Rattle.sheets.specs.Inner.Printable.{Printable, SheetRoom};

pub use lines::Head;
use lines::Part;
use refusals::{Answer, Refusal};
use tables::TaskTable;
use texts::Page;

// The limit of specs/: so many bytes hold every sheet.
pub const SHEET_MAX: usize = 16_384;

// Prints what `put` writes at the buffer's start, and answers its number of bytes; a smaller buffer than SHEET_MAX is left as it is.
pub fn print<F: FnOnce(&mut Page)>(out: &mut [u8], put: F) -> usize
    requires { (page : MutBor Page) → SheetRoom page.now → F.pre put page }
    ensures { (text : List ℕ) → ((old new : MutBor Page) → F.post put old tt new → Puts old.now text new.now) → Prints text out.old result out.new }
{
    if out.len() < SHEET_MAX {
        return 0;
    }
    let mut page = Page { out, end: 0 };
    put(&mut page);
    page.end
}

// Writes the sheet of a plan's words.
pub fn put_sheet(page: &mut Page, head: Head, words: &[u64])
    requires room { SheetRoom page.old }
    requires printable { Printable words.now }
    ensures { Puts page.old (sheet_text head words.now) page.new }
{
    let s = words[1] as usize;
    let n = words[2] as usize;
    let nodes = &words[3 + 3 * s..];
    let figures = shares::figures_of(nodes, n);
    lines::put_task_line(page, head, words[0]);
    lines::put_triple_lines(page, Part::Segments, &words[3..], s);
    lines::put_triple_lines(page, Part::Nodes, nodes, n);
    page.put_line(&[(b"sum ", figures.sum), (b"max ", figures.largest)]);
}

// Writes the line of a refusal.
pub fn put_refusal(page: &mut Page, refusal: Refusal)
    requires { SheetRoom page.old }
    ensures { Puts page.old (refused_line refusal) page.new }
{
    page.put_line(&[
        (b"refused ", refusal.number),
        (b"at ", refusal.place as u64),
    ]);
}

// Writes the sheet of a table that was read, without a cost.
pub fn put_table(page: &mut Page, table: &TaskTable)
    requires room { SheetRoom page.old }
    requires plannable { Plannable (costed table.now sheet_cost) }
    ensures { Puts page.old (on_table refused_line table_sheet (costed table.now sheet_cost)) page.new }
{
    let mut words = [0u64; plans::WORDS_MAX];
    match plans::plan_table(&mut words, *table, 0, Answer::accepted(0)) {
        Ok(planning) => {
            let head = Head {
                id: table.id,
                period: table.period,
                work: planning.work,
                path: planning.path,
            };
            put_sheet(page, head, &words);
        }
        Err(answer) => put_refusal(page, Refusal::told_by(answer)),
    }
}

// Writes the sheet of a record.
fn put_record(page: &mut Page, bytes: &[u8])
    requires { SheetRoom page.old }
    ensures { Puts page.old (sheet_of bytes.now) page.new }
{
    match records::read_table(bytes) {
        Ok(table) => put_table(page, &table),
        Err(refusal) => put_refusal(page, refusal),
    }
}

// The sheet of a record; a smaller buffer than SHEET_MAX is left as it is.
pub fn sheet(bytes: &[u8], out: &mut [u8]) -> usize
    ensures out_after { record { count = result; out = out.new } ≡ printed (sheet_of bytes.now) out.old }
    ensures upper_bound { result ≤ length out.old }
{
    print(out, |page| put_record(page, bytes))
}
