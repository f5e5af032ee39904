// The text that graphsheet prints, written into a lent buffer.
#![tactic(auto)]

ghost use Rattle.std.specs.Prelude.{◌≡◌, ◌≤◌, length};
ghost use Rattle.tables.specs.Limits.{period_max};
ghost use Rattle.tables.specs.Range.{InRange};
ghost use Rattle.tables.specs.Cost.{costed};
ghost use Rattle.plans.specs.Calls.{on_table};
ghost use Rattle.texts.specs.Inner.Page.{Puts};
ghost use Rattle.sheets.specs.Lines.{refused_line};
ghost use Rattle.sheets.specs.Printed.{table_sheet, sheet_cost, printed};
ghost use Rattle.sheets.specs.Inner.Printable.{SheetRoom};
ghost use Rattle.graphsheets.specs.Sheet.{graph_in, relaxed, graph_sheet};

use graphs::Graph;
use refusals::{Answer, Reason, Refusal};
use tables::TaskTable;
use texts::Page;

// So many bytes of a text are read.
pub const TEXT_MAX: usize = 65_536;

// The id of every task that is printed.
const SHEET_ID: u64 = 1;

// The graph of what is read of a text.
fn read_text(text: &[u8]) -> Graph
    ensures { result ≡ graph_in text.now }
{
    let read = &text[..TEXT_MAX.min(text.len())];
    graphs::read_graph(read, SHEET_ID, TaskTable::PERIOD_MAX)
}

// The sheet of a table that was read, planned first for its path and then with twice that.
fn put_relaxed(page: &mut Page, table: &TaskTable)
    requires room { SheetRoom page.old }
    requires in_range { InRange table.now }
    requires largest { table.now.period ≡ period_max }
    ensures { Puts page.old (on_table refused_line table_sheet (costed (relaxed table.now) sheet_cost)) page.new }
{
    let mut words = [0u64; plans::WORDS_MAX];
    match plans::plan_table(&mut words, *table, 0, Answer::accepted(0)) {
        Ok(planning) => {
            let relaxed = TaskTable {
                period: 2 * planning.path,
                ..*table
            };
            sheets::put_table(page, &relaxed);
        }
        Err(answer) => sheets::put_refusal(page, Refusal::told_by(answer)),
    }
}

// The sheet of a text's task, or the line of its refusal.
fn put_graph(page: &mut Page, text: &[u8])
    requires { SheetRoom page.old }
    ensures { Puts page.old (graph_sheet text.now) page.new }
{
    let graph = read_text(text);
    if text.len() > TEXT_MAX && !graph.commented {
        return sheets::put_refusal(page, Reason::BadLayout.at(TEXT_MAX));
    }
    match graph.outcome {
        Ok(()) => put_relaxed(page, &graph.table),
        Err(refusal) => sheets::put_refusal(page, refusal),
    }
}

// The sheet of a text; a smaller buffer than SHEET_MAX is left as it is.
pub fn sheet(text: &[u8], out: &mut [u8]) -> usize
    ensures out_after { record { count = result; out = out.new } ≡ printed (graph_sheet text.now) out.old }
    ensures upper_bound { result ≤ length out.old }
{
    sheets::print(out, |page| put_graph(page, text))
}
