// Decks: read into tables, and written to a room.
use crate::BLOCK;
use crate::input::{EDGES, Input};
use crate::say::{full, say_kept, table, written};
use entries::front;
use print::refused;
use std::io::{self, Write};
use timing::DeckCounts;

// No slice has more places, nor has a room.
const LISTED: usize = 8200;

const PATHS: usize = 1040;

const MARKED: usize = 4200;

const BYTES: usize = 131072;

// The tables that a reader is lent.
#[derive(Drop)]
struct Tables<'a> {
    starts: &'a mut [u32],
    ends: &'a mut [u32],
    early: &'a mut [i32],
    late: &'a mut [i32],
    listed: &'a mut [u32],
    lengths: &'a mut [u32],
    marked: &'a mut [u32],
}

// A deck: n, T and its seven slices.
#[derive(Clone, Copy)]
struct Deck<'a> {
    n: u32,
    allowed: u32,
    starts: &'a [u32],
    ends: &'a [u32],
    early: &'a [i32],
    late: &'a [i32],
    listed: &'a [u32],
    lengths: &'a [u32],
    marked: &'a [u32],
}

// What a refusal fills of the tables.
const NOTHING: DeckCounts = DeckCounts {
    nodes: 0,
    edges: 0,
    listed: 0,
    paths: 0,
    marked: 0,
    allowed: 0,
};

// Reads a deck, and prints the answer and the tables. Gives what was read.
fn read<'a, W: Write>(
    out: &mut W,
    bytes: &[u8],
    tables: Tables<'a>,
) -> io::Result<Option<Deck<'a>>> {
    let Tables {
        starts,
        ends,
        early,
        late,
        listed,
        lengths,
        marked,
    } = tables;
    let answer = deck_reader::read_deck(bytes, starts, ends, early, late, listed, lengths, marked);
    match answer {
        Ok(c) => write!(
            out,
            "deck {} {} {} {} {} {}",
            c.nodes, c.edges, c.listed, c.paths, c.marked, c.allowed
        )?,
        Err(r) => refused(out, r)?,
    }
    let c = answer.unwrap_or(NOTHING);
    let mut kept = 0;
    table(out, starts, c.edges, &mut kept)?;
    table(out, ends, c.edges, &mut kept)?;
    table(out, early, c.edges, &mut kept)?;
    table(out, late, c.edges, &mut kept)?;
    table(out, listed, c.listed, &mut kept)?;
    table(out, lengths, c.paths, &mut kept)?;
    table(out, marked, c.marked, &mut kept)?;
    say_kept(out, kept)?;
    if answer.is_err() {
        return Ok(None);
    }
    Ok(Some(Deck {
        n: c.nodes,
        allowed: c.allowed,
        starts: front(starts, c.edges),
        ends: front(ends, c.edges),
        early: front(early, c.edges),
        late: front(late, c.edges),
        listed: front(listed, c.listed),
        lengths: front(lengths, c.paths),
        marked: front(marked, c.marked),
    }))
}

// Writes a deck, and prints the answer and the room. Gives the place behind what was written.
fn write<W: Write>(out: &mut W, d: Deck<'_>, room: &mut [u8]) -> io::Result<Option<usize>> {
    let answer = deck_writer::write_deck(
        d.n, d.starts, d.ends, d.early, d.late, d.marked, d.listed, d.lengths, d.allowed, room,
    );
    write!(out, "write ")?;
    written(out, answer, room)?;
    Ok(answer.ok())
}

// What was read is written to a room as long as the bytes that were read.
#[inline(never)]
pub(crate) fn read_case<W: Write>(out: &mut W, input: &mut Input<'_>) -> io::Result<()> {
    let mut starts = [0; EDGES];
    let mut ends = [0; EDGES];
    let mut early = [0; EDGES];
    let mut late = [0; EDGES];
    let mut listed = [0; LISTED];
    let mut lengths = [0; PATHS];
    let mut marked = [0; MARKED];
    let tables = Tables {
        starts: input.lent(&mut starts),
        ends: input.lent(&mut ends),
        early: input.lent(&mut early),
        late: input.lent(&mut late),
        listed: input.lent(&mut listed),
        lengths: input.lent(&mut lengths),
        marked: input.lent(&mut marked),
    };
    let bytes = input.bytes();
    if let Some(deck) = read(out, bytes, tables)? {
        let mut room = [0; BLOCK];
        write(out, deck, full(&mut room, bytes.len()))?;
    }
    Ok(())
}

// Reads a deck from bytes, into tables as long as the deck.
#[inline(never)]
fn read_back<W: Write>(out: &mut W, bytes: &[u8], d: Deck<'_>) -> io::Result<()> {
    let mut starts = [0; EDGES];
    let mut ends = [0; EDGES];
    let mut early = [0; EDGES];
    let mut late = [0; EDGES];
    let mut listed = [0; LISTED];
    let mut lengths = [0; PATHS];
    let mut marked = [0; MARKED];
    let tables = Tables {
        starts: full(&mut starts, d.starts.len()),
        ends: full(&mut ends, d.starts.len()),
        early: full(&mut early, d.starts.len()),
        late: full(&mut late, d.starts.len()),
        listed: full(&mut listed, d.listed.len()),
        lengths: full(&mut lengths, d.lengths.len()),
        marked: full(&mut marked, d.marked.len()),
    };
    read(out, bytes, tables)?;
    Ok(())
}

// What was written is read into tables as long as the deck.
#[inline(never)]
pub(crate) fn write_case<W: Write>(out: &mut W, input: &mut Input<'_>) -> io::Result<()> {
    let mut room = [0; BYTES];
    let mut starts = [0; EDGES];
    let mut ends = [0; EDGES];
    let mut early = [0; EDGES];
    let mut late = [0; EDGES];
    let mut listed = [0; LISTED];
    let mut lengths = [0; PATHS];
    let mut marked = [0; MARKED];
    let n = input.number();
    let allowed = input.number();
    let room = input.lent(&mut room);
    let deck = Deck {
        n,
        allowed,
        starts: input.slice(&mut starts),
        ends: input.slice(&mut ends),
        early: input.delays(&mut early),
        late: input.delays(&mut late),
        listed: input.slice(&mut listed),
        lengths: input.slice(&mut lengths),
        marked: input.slice(&mut marked),
    };
    if let Some(end) = write(out, deck, room)? {
        read_back(out, front(room, end), deck)?;
    }
    Ok(())
}
