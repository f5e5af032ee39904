// The text that buildingsheet prints, written into a lent buffer.
#![tactic(auto)]

ghost use Rattle.std.specs.Prelude.{◌≡◌, ◌≤◌, length};
ghost use Rattle.texts.specs.Lines.{line};
ghost use Rattle.texts.specs.Inner.Page.{HasRoom, Puts, words_of};
ghost use Rattle.sheets.specs.Printed.{printed};
ghost use Rattle.sheets.specs.Inner.Printable.{SheetRoom};
ghost use Rattle.buildingsheets.specs.Sheet.{count_lines, unless_zero, number_lines, building_text, building_in, building_sheet};

use buildings::{Building, NUMBERS};
use texts::Page;

// So many bytes of a file are read.
pub const SHEET_FILE: usize = 65_536;

// A line for each count, after its word.
fn put_counts(page: &mut Page, counts: &[(&[u8], u64)])
    requires { HasRoom page.old (count_lines (words_of counts.now)) }
    ensures { Puts page.old (count_lines (words_of counts.now)) page.new }
{
    for (word, count) in counts {
        page.put_line(&[(*word, *count)]);
    }
}

// A line of fixed words with their numbers; nothing where n is 0.
fn put_unless_zero(page: &mut Page, n: u64, fields: &[(&[u8], u64)])
    requires { HasRoom page.old (unless_zero n (line (words_of fields.now))) }
    ensures { Puts page.old (unless_zero n (line (words_of fields.now))) page.new }
{
    if n != 0 {
        page.put_line(fields);
    }
}

// The lines of the refusal numbers by which a record was refused.
fn put_numbers(page: &mut Page, refused: &[u64; NUMBERS])
    requires { HasRoom page.old (number_lines refused.now) }
    ensures { Puts page.old (number_lines refused.now) page.new }
{
    for (k, &count) in refused.iter().enumerate() {
        put_unless_zero(page, count, &[(b"refused ", k as u64), (b"count ", count)]);
    }
}

// The counts of a building, and how its walk ended. C reads a building, so that its answer is no `Result`: refusal 0 is acceptance.
fn put_building(page: &mut Page, building: Building)
    requires { SheetRoom page.old }
    ensures { Puts page.old (building_text building) page.new }
{
    let Building { answer, counts } = building;
    put_counts(
        page,
        &[
            (b"records ", counts.records),
            (b"accepted ", counts.accepted),
        ],
    );
    put_numbers(page, &counts.refused);
    put_counts(
        page,
        &[
            (b"nodes ", counts.nodes),
            (b"segments ", counts.segments),
            (b"work ", counts.work),
        ],
    );
    put_counts(
        page,
        &[
            (b"heavy ", counts.heavy),
            (b"light ", counts.light),
            (b"dense ", counts.dense),
        ],
    );
    put_unless_zero(
        page,
        answer.refusal,
        &[(b"ended ", answer.refusal), (b"at ", answer.place)],
    );
}

// The building in what is read of a file.
fn building_in(file: &[u8]) -> Building
    ensures { result ≡ building_in file.now }
{
    buildings::count_building(&file[..SHEET_FILE.min(file.len())], 0)
}

// The sheet of a file.
fn put_file(page: &mut Page, file: &[u8])
    requires { SheetRoom page.old }
    ensures { Puts page.old (building_sheet file.now) page.new }
{
    put_building(page, building_in(file));
}

// The same in a buffer; a smaller buffer than SHEET_MAX is left as it is.
pub fn sheet(file: &[u8], out: &mut [u8]) -> usize
    ensures out_after { record { count = result; out = out.new } ≡ printed (building_sheet file.now) out.old }
    ensures upper_bound { result ≤ length out.old }
{
    sheets::print(out, |page| put_file(page, file))
}
