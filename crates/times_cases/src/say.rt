// What is printed of the answers.
use print::{PrintedTime, refused};
use std::io::{self, Write};
use timing::{Refusal, Times};

// Of many copies or nodes the first 64 are printed, and then every 512th.
fn printed(k: usize) -> bool {
    k < 64 || k % 512 == 511
}

pub(crate) fn say_refused<W: Write>(out: &mut W, r: Refusal) -> io::Result<()> {
    refused(out, r)?;
    writeln!(out)
}

// Four times, and the end of the line.
pub(crate) fn say_times<W: Write>(out: &mut W, times: Option<Times>) -> io::Result<()> {
    match times {
        Some(t) => writeln!(
            out,
            "{} {} {} {}",
            PrintedTime(t.arrival),
            PrintedTime(t.required),
            PrintedTime(t.slack),
            PrintedTime(t.earliest)
        ),
        None => writeln!(out, "none"),
    }
}

// A line for each of so many copies or nodes.
pub(crate) fn say_lines<W: Write, F: Fn(usize) -> Option<Times>>(
    out: &mut W,
    name: &str,
    count: usize,
    times_at: F,
) -> io::Result<()>
    requires { F.IsAlwaysCallable times_at }
{
    for k in 0..count {
        if printed(k) {
            write!(out, "{name} {k} ")?;
            say_times(out, times_at(k))?;
        }
    }
    Ok(())
}

// All places, also those that were not written.
pub(crate) fn say_arrivals<W: Write>(out: &mut W, arrivals: &[i64]) -> io::Result<()> {
    write!(out, "arrivals")?;
    for (k, t) in arrivals.iter().enumerate() {
        if printed(k) {
            write!(out, " {}", PrintedTime(*t))?;
        }
    }
    writeln!(out)
}
