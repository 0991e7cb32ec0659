// The records of nodes, from the times of their copies.
//
// `node_record` goes over the copies for the times of one node (`node`), and `node_records` goes over
// them once for all nodes (`gather`).
#![tactic(auto)]

ghost use Rattle.std.specs.Prelude.{◌≡◌, length};
ghost use Rattle.timing.specs.Calls.{record_of, test_records, has_times, arrival_of, required_of, slack_of, earliest_of, records_after};

mod gather;
mod node;
mod tests;

use crate::gather::fill_records;
use crate::node::node_times;
use crate::tests::{record_tests, records_tests};
use timing::{NodeRecord, Refusal, Verdict};

// The record of node `v`, from n and the node and the four times of each copy.
pub fn node_record(
    n: u32,
    nodes: &[u32],
    arrivals: &[i64],
    requireds: &[i64],
    slacks: &[i64],
    earliests: &[i64],
    v: u32,
) -> Result<NodeRecord, Refusal>
    ensures { let ats = arrivals.now in
        let rts = requireds.now in
        let sts = slacks.now in
        let ets = earliests.now in
        result ≡ record_of n nodes.now ats rts sts ets v }
{
    record_tests(
        n,
        nodes.len(),
        arrivals.len(),
        requireds.len(),
        slacks.len(),
        earliests.len(),
    )?;
    let times = node_times(n, nodes, arrivals, requireds, slacks, earliests, v);
    Ok(NodeRecord { node: v, times })
}

// The records of all nodes, from n and the node and the four times of each copy, in one pass over
// the copies. Each lent slice has one place for each node: `known` says 1 where the node has times
// and 0 where it has none, and `na`, `nr`, `ns`, `ne` are its arrival, required time, slack and
// earliest arrival, or 0. A refusal changes nothing.
pub fn node_records(
    n: u32,
    nodes: &[u32],
    arrivals: &[i64],
    requireds: &[i64],
    slacks: &[i64],
    earliests: &[i64],
    known: &mut [u32],
    na: &mut [i64],
    nr: &mut [i64],
    ns: &mut [i64],
    ne: &mut [i64],
) -> Verdict
    ensures { let ats = arrivals.now in
        let rts = requireds.now in
        let sts = slacks.now in
        let ets = earliests.now in
        let tested = test_records n nodes.now ats rts sts ets
        (length known.old) (length na.old) (length nr.old)
        (length ns.old) (length ne.old) in
        (result ≡ tested)
        × (known.new ≡ records_after has_times n nodes.now ats rts sts ets tested known.old)
        × (na.new ≡ records_after arrival_of n nodes.now ats rts sts ets tested na.old)
        × (nr.new ≡ records_after required_of n nodes.now ats rts sts ets tested nr.old)
        × (ns.new ≡ records_after slack_of n nodes.now ats rts sts ets tested ns.old)
        × (ne.new ≡ records_after earliest_of n nodes.now ats rts sts ets tested ne.old) }
{
    records_tests(
        n,
        nodes.len(),
        arrivals.len(),
        requireds.len(),
        slacks.len(),
        earliests.len(),
        known.len(),
        na.len(),
        nr.len(),
        ns.len(),
        ne.len(),
    )?;
    fill_records(
        nodes, arrivals, requireds, slacks, earliests, known, na, nr, ns, ne,
    );
    Ok(())
}
