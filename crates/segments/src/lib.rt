// The cut of a timing diagram into segments.
#![tactic(auto)]

ghost use Rattle.std.specs.Prelude.{length};
ghost use Rattle.plain.specs.At.{at};
ghost use Rattle.segments.specs.Inner.Ended.{length_by, CutIn};
ghost use Rattle.segments.specs.Inner.Listed.{threads_of, enders_of};
ghost use Rattle.segments.specs.Inner.Words.{CutWords};

// How many threads run in a segment, and a node that finishes where it ends: no copy of the cuts is kept.
#[derive(Clone, Copy)]
pub struct Segment {
    pub threads: u8,
    pub ender: u8,
}

// Writes threads and length of each segment to words 3 + 3j and 4 + 3j.
pub fn cut_words(words: &mut [u64], segments: &[Segment], finishes: &[u64; 64])
    requires { CutIn (threads_of segments.now) (enders_of segments.now) finishes.now (length segments.now) (length words.old) }
    ensures { CutWords (at (threads_of segments.now)) (length_by (enders_of segments.now) finishes.now) (length segments.now) words.old words.new }
{
    let mut t: u64 = 0;
    for (j, segment) in segments.iter().enumerate() {
        let to = finishes[segment.ender as usize];
        words[3 + 3 * j] = segment.threads as u64;
        words[4 + 3 * j] = to - t;
        t = to;
    }
}
