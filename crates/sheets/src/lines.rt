// The lines of a sheet.
ghost use Rattle.std.specs.Prelude.{◌≡◌, ◌+◌, ◌*◌, ◌≤◌, ◌<◌, length};
ghost use Rattle.texts.specs.Inner.Page.{HasRoom, Puts};
ghost use Rattle.sheets.specs.Lines.{task_line, triple_line, triple_at, triples_to};

use texts::{Page, Triple};

// What the first line gives of a task, beside the plan's Q.
#[derive(Clone, Copy)]
pub struct Head {
    pub id: u64,
    pub period: u64,
    pub work: u64,
    pub path: u64,
}

// Whose triples: a plan has one for each segment and one for each node.
#[derive(Clone, Copy)]
pub enum Part {
    Segments,
    Nodes,
}

pub fn put_task_line(page: &mut Page, head: Head, over: u64)
    requires { HasRoom page.old (task_line head over) }
    ensures { Puts page.old (task_line head over) page.new }
{
    page.put_line(&[
        (b"task ", head.id),
        (b"period ", head.period),
        (b"work ", head.work),
        (b"path ", head.path),
        (b"over ", over),
    ]);
}

fn triple_at(triples: &[u64], k: usize) -> Triple
    requires { 3 * k + 2 < length triples.now }
    ensures { result ≡ triple_at triples.now k }
{
    Triple {
        x: triples[3 * k],
        y: triples[3 * k + 1],
        z: triples[3 * k + 2],
    }
}

// The line of triple k.
fn put_triple_line(page: &mut Page, part: Part, k: u64, triple: Triple)
    requires { HasRoom page.old (triple_line part k triple) }
    ensures { Puts page.old (triple_line part k triple) page.new }
{
    let Triple { x, y, z } = triple;
    match part {
        Part::Segments => page.put_line(&[
            (b"seg ", k),
            (b"threads ", x),
            (b"length ", y),
            (b"deadline ", z),
        ]),
        Part::Nodes => page.put_line(&[
            (b"node ", k),
            (b"offset ", x),
            (b"deadline ", y),
            (b"density ", z),
        ]),
    }
}

// The lines of n triples.
pub fn put_triple_lines(page: &mut Page, part: Part, triples: &[u64], n: usize)
    requires n_in_bounds { 3 * n ≤ length triples.now }
    requires room { HasRoom page.old (triples_to n part triples.now) }
    ensures { Puts page.old (triples_to n part triples.now) page.new }
{
    for k in 0..n {
        put_triple_line(page, part, k as u64, triple_at(triples, k));
    }
}
