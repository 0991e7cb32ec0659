// What the programs print, to a writer that the caller hands in: standard output, behind a buffer. What is
// printed is compared, not proved.
#![tactic(auto)]

ghost use Rattle.std.specs.Prelude.{◌≡◌, Some, nat_abs};
ghost use Rattle.std.specs.Fmt.{signed_decimal};

use std::fmt;
use std::io::{self, Write};
use timing::Refusal;

pub fn text<W: Write>(out: &mut W, s: &[u8]) -> io::Result<()> {
    out.write_all(s)
}

pub fn number<W: Write>(out: &mut W, n: u64) -> io::Result<()> {
    write!(out, "{n}")
}

// Each byte as a space and two hexadecimal digits.
pub fn bytes<W: Write>(out: &mut W, s: &[u8]) -> io::Result<()> {
    for b in s {
        write!(out, " {b:02x}")?;
    }
    Ok(())
}

// A space and a number.
pub fn spaced<W: Write>(out: &mut W, n: u64) -> io::Result<()> {
    write!(out, " {n}")
}

// Each number behind a space.
pub fn words<W: Write>(out: &mut W, s: &[u32]) -> io::Result<()> {
    for x in s {
        write!(out, " {x}")?;
    }
    Ok(())
}

// How far a time is from 0.
pub fn magnitude(t: i64) -> u64
    ensures { result ≡ nat_abs t }
{
    t.unsigned_abs()
}

// A time in a format: its sign, and how far it is from 0.
#[derive(Clone, Copy)]
pub struct PrintedTime(pub i64);

impl fmt::Display for PrintedTime {
    ghost output = { λ t. Some (signed_decimal t.0) };

    fn fmt<W: fmt::Write>(&self, f: &mut fmt::Formatter<W>) -> fmt::Result {
        if self.0 < 0 {
            f.write_str("-")?;
        }
        write!(f, "{}", magnitude(self.0))
    }
}

pub fn time<W: Write>(out: &mut W, t: i64) -> io::Result<()> {
    write!(out, "{}", PrintedTime(t))
}

pub fn delay<W: Write>(out: &mut W, d: i32) -> io::Result<()> {
    time(out, d as i64)
}

// A refusal as the deck program prints it: both places, where it has two (22 to 24).
pub fn refused<W: Write>(out: &mut W, r: Refusal) -> io::Result<()> {
    write!(out, "refused {} at {}", r.number, r.place)?;
    if matches!(r.number, 22..=24) {
        write!(out, " edge {}", r.index)?;
    }
    Ok(())
}
