// Runs the records on standard input, 16 bytes each, and prints a line for each. Byte 0 says what
// to do: 0 writes the number in bytes 4 to 7, lowest first, at the place in byte 1 of a room of as
// many bytes AA as byte 2 says; 1 reads at the place in byte 1 of the bytes from 4 on, as many as
// byte 2 says; 3 writes the row of the three numbers in bytes 4 to 15 as 0 writes one; anything else
// takes the number in bytes 4 to 7 as a packed delay, and packs it again.
#![tactic(auto)]

ghost use Rattle.std.specs.Prelude.{◌≤◌};

use packed_delays::{pack_delay, unpack_delay};
use print::{bytes, refused};
use std::io::{self, BufWriter, Read, Write};
use timing::{Refusal, Taken};

// How many bytes of the input are read, at most.
const BLOCK: u64 = 65536;

type Record = [u8; 16];

// The number in the four bytes from `i` on of a record.
fn word(record: &Record, i: usize) -> u32
    requires { i ≤ 12 }
{
    u32::from_le_bytes([record[i], record[i + 1], record[i + 2], record[i + 3]])
}

// How many bytes a record gives to a case, up to so many.
fn size(record: &Record, most: usize) -> usize
    ensures { result ≤ most }
{
    usize::from(record[2]).min(most)
}

// What a writer answered, and the room.
fn written<W: Write>(
    out: &mut W,
    place: usize,
    answer: Result<usize, Refusal>,
    room: &[u8],
) -> io::Result<()> {
    write!(out, " at {place}: ")?;
    match answer {
        Ok(end) => write!(out, "end {end}")?,
        Err(r) => refused(out, r)?,
    }
    write!(out, ",")?;
    bytes(out, room)
}

fn write_case<W: Write>(out: &mut W, room: &mut [u8], place: usize, x: u32) -> io::Result<()> {
    let answer = packed::write_number(room, place, x);
    write!(out, "write {x}")?;
    written(out, place, answer, room)
}

fn row_case<W: Write>(
    out: &mut W,
    room: &mut [u8],
    place: usize,
    a: u32,
    b: u32,
    c: u32,
) -> io::Result<()> {
    let answer = packed::write_row(room, place, a, b, c);
    write!(out, "row {a} {b} {c}")?;
    written(out, place, answer, room)
}

fn read_case<W: Write>(out: &mut W, s: &[u8], place: usize) -> io::Result<()> {
    write!(out, "read")?;
    bytes(out, s)?;
    write!(out, " at {place}: ")?;
    match packed::read_number(s, place) {
        Ok(Taken { value, next }) => write!(out, "value {value} next {next}"),
        Err(r) => refused(out, r),
    }
}

fn delay_case<W: Write>(out: &mut W, x: u32) -> io::Result<()> {
    let d = unpack_delay(x);
    write!(out, "delay {x}: {d} packed {}", pack_delay(d))
}

// A case by its number: an enum would name each once more, where the functions' names say it.
fn case<W: Write>(out: &mut W, record: &Record) -> io::Result<()> {
    let place = usize::from(record[1]);
    let mut room = [0xAA; 20];
    match record[0] {
        0 => write_case(out, &mut room[..size(record, 12)], place, word(record, 4)),
        1 => read_case(out, &record[4..4 + size(record, 12)], place),
        3 => row_case(
            out,
            &mut room[..size(record, 20)],
            place,
            word(record, 4),
            word(record, 8),
            word(record, 12),
        ),
        _ => delay_case(out, word(record, 4)),
    }
}

fn run<W: Write>(out: &mut W, s: &[u8]) -> io::Result<()> {
    for record in s.as_chunks().0 {
        case(out, record)?;
        writeln!(out)?;
    }
    Ok(())
}

fn main(rt: HostRuntime) -> io::Result<()> {
    let mut input = Vec::new(rt.alloc());
    rt.stdin().take(BLOCK).read_to_end(&mut input)?;
    let mut out = BufWriter::new(rt.alloc(), rt.stdout())?;
    run(&mut out, &input)?;
    out.flush()
}
