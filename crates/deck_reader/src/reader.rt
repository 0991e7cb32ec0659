// Document 01's form: a reader that carries the lent bytes and its place. It starts at the front, reads the part that
// stands at its place, and goes on to the place behind it: the design, the lists, T and the end. The functions here hold
// such a reader; they are thin, and the work is in `looker` and `filler`, on a plain slice and place. `read_deck` calls
// `look_deck` and `fill_deck`, whose parameters are plain.
ghost use Rattle.std.specs.Prelude.{◌≡◌, length, Ok};
ghost use Rattle.timing.specs.Lists.{placed};
ghost use Rattle.timing.specs.Decks.{Tables, read_deck};
ghost use Rattle.timing.specs.Calls.{deck_answer, made};
ghost use Rattle.deck_reader.specs.Reading.{verdict_of, deck_from, Fits};

use super::{filler, looker};
use packed_lists::take_number;
use timing::{DeckCounts, Verdict};

#[derive(Clone, Copy)]
pub(crate) struct DeckReader<'a> {
    pub(crate) bytes: &'a [u8],
    pub(crate) at: usize,
}

impl<'a> DeckReader<'a> {
    // The reader of all the bytes.
    pub(crate) fn at_front(bytes: &'a [u8]) -> DeckReader<'a>
        ensures { (result.bytes ≡ bytes.entry) × (result.at ≡ 0) }
    {
        DeckReader { bytes, at: 0 }
    }

    // The reader of the same bytes, moved to another place.
    pub(crate) fn onward(self, at: usize) -> DeckReader<'a>
        ensures { (result.bytes ≡ self.entry.bytes) × (result.at ≡ at) }
    {
        DeckReader {
            bytes: self.bytes,
            at,
        }
    }
}

// The first go. A part behind one that was refused is not looked at.
pub(crate) fn look_deck(
    s: &[u8],
    edges: usize,
    listed: usize,
    paths: usize,
    marked: usize,
) -> Verdict
    ensures { let tables : Tables = record { edges = edges; listed = listed; paths = paths; marked = marked } in
        result ≡ verdict_of (read_deck s.now tables) }
{
    let r = DeckReader::at_front(s);
    let behind_design = looker::look_design(r.bytes, r.at, edges)?;
    let r = r.onward(behind_design);
    let behind_lists = looker::look_lists(r.bytes, r.at, listed, paths, marked)?;
    let r = r.onward(behind_lists);
    looker::look_tail(r.bytes, r.at)
}

// The second go, when the first has passed.
pub(crate) fn fill_deck(
    s: &[u8],
    starts: &mut [u32],
    ends: &mut [u32],
    early: &mut [i32],
    late: &mut [i32],
    listed: &mut [u32],
    lengths: &mut [u32],
    marked: &mut [u32],
) -> DeckCounts
    requires { Fits s.now 0
        (record {
          edges = length starts.old;
          listed = length listed.old;
          paths = length lengths.old;
          marked = length marked.old;
        })
        × (length ends.old ≡ length starts.old)
        × (length early.old ≡ length starts.old)
        × (length late.old ≡ length starts.old) }
    ensures { let d = deck_from s.now 0 in
        (Ok result ≡ deck_answer (made d))
        × (starts.new ≡ placed d.design.starts starts.old)
        × (ends.new ≡ placed d.design.ends ends.old)
        × (early.new ≡ placed d.design.early early.old)
        × (late.new ≡ placed d.design.late late.old)
        × (listed.new ≡ placed d.list.edges listed.old)
        × (lengths.new ≡ placed d.list.lengths lengths.old)
        × (marked.new ≡ placed d.design.marked marked.old) }
{
    let r = DeckReader::at_front(s);
    let design = filler::fill_design(r.bytes, r.at, starts, ends, early, late);
    let r = r.onward(design.next);
    let lists = filler::fill_lists(r.bytes, r.at, listed, lengths, marked);
    let r = r.onward(lists.next);
    let allowed = take_number(r.bytes, r.at);
    DeckCounts {
        nodes: design.nodes,
        edges: design.edges,
        listed: lists.listed,
        paths: lists.paths,
        marked: lists.marked,
        allowed: allowed.value,
    }
}
