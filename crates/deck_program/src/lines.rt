// The lines of the deck program.
use crate::text::Text;
use entries::time_at;
use print::PrintedTime;
use std::fmt::Write as _;
use std::io;
use timing::Times;

// A graph's slices.
#[derive(Clone, Copy)]
pub(crate) struct Graph<'a> {
    pub nodes: &'a [u32],
    pub endpoint: &'a [u32],
    pub from: &'a [u32],
    pub to: &'a [u32],
    pub via: &'a [u32],
}

// The times of copies or nodes.
#[derive(Clone, Copy)]
pub(crate) struct TimeSlices<'a> {
    pub arrivals: &'a [i64],
    pub requireds: &'a [i64],
    pub slacks: &'a [i64],
    pub earliests: &'a [i64],
}

impl TimeSlices<'_> {
    fn at(self, k: usize) -> Times {
        Times {
            arrival: time_at(self.arrivals, k),
            required: time_at(self.requireds, k),
            slack: time_at(self.slacks, k),
            earliest: time_at(self.earliests, k),
        }
    }
}

// The counts, and all copies and edges. A last word says where paths end.
pub(crate) fn put_graph<W: io::Write>(
    out: &mut Text<'_, W>,
    g: Graph<'_>,
    times: TimeSlices<'_>,
) -> io::Result<()> {
    writeln!(out, "copies {} edges {}", g.nodes.len(), g.from.len())?;
    out.end_line()?;
    for (copy, (node, endpoint)) in g.nodes.iter().zip(g.endpoint).enumerate() {
        let t = times.at(copy);
        let end = if *endpoint == 1 { " end" } else { "" };
        writeln!(
            out,
            "copy {copy} node {node} arrival {} required {} slack {} earliest {}{end}",
            PrintedTime(t.arrival),
            PrintedTime(t.required),
            PrintedTime(t.slack),
            PrintedTime(t.earliest)
        )?;
        out.end_line()?;
    }
    for ((from, to), via) in g.from.iter().zip(g.to).zip(g.via) {
        writeln!(out, "edge {from} {to} {via}")?;
        out.end_line()?;
    }
    Ok(())
}

pub(crate) fn put_nodes<W: io::Write>(
    out: &mut Text<'_, W>,
    known: &[u32],
    times: TimeSlices<'_>,
) -> io::Result<()> {
    for (node, known) in known.iter().enumerate() {
        if *known == 0 {
            writeln!(out, "node {node} none")?;
        } else {
            let t = times.at(node);
            writeln!(
                out,
                "node {node} {} {} {} {}",
                PrintedTime(t.arrival),
                PrintedTime(t.required),
                PrintedTime(t.slack),
                PrintedTime(t.earliest)
            )?;
        }
        out.end_line()?;
    }
    Ok(())
}
