// Places that hold their own numbers; and the endpoint numbers of a design's nodes.
ghost use Rattle.std.specs.Prelude.{◌≡◌, ◌≤◌, length, take};
ghost use Rattle.timing.specs.Lists.{upto};
ghost use Rattle.removal.specs.Endpoints.{stored_at, AllOnes, NodesBelow, EndpointsOf};
ghost use Rattle.removal.specs.Numbered.{NumberRoom, Numbered};

// Writes its own number to each of the first n places.
pub(crate) fn number_places(t: &mut [u32], n: usize)
    requires { (n ≤ length t.old) × (n ≤ 16384) }
    ensures { take n t.new ≡ upto n 0 }
{
    for i in 0..n {
        t[i] = i as u32;
    }
}

// Stores v at each of some places.
fn store_at(t: &mut [u32], places: &[u32], v: u32)
    requires { NodesBelow (length t.old) places.now }
    ensures { t.new ≡ stored_at places.now v t.old }
{
    for &at in places {
        t[at as usize] = v;
    }
}

// The endpoint numbers of n nodes, where all places are 1: 0 where an edge starts, and 1 again at marked nodes. So 1 is
// left at sinks and at marked nodes, where paths end.
pub(crate) fn number_endpoints(t: &mut [u32], n: usize, starts: &[u32], marked: &[u32])
    requires { (n ≤ length t.old) × AllOnes n t.old × NodesBelow n starts.now × NodesBelow n marked.now }
    ensures { EndpointsOf n starts.now marked.now (take n t.new) }
{
    store_at(t, starts, 0);
    store_at(t, marked, 1);
}

// Writes the numbers by which a design is lent as a graph, with a copy for each of its n nodes and an edge for each edge: their own
// numbers, and the nodes' endpoint numbers.
pub(crate) fn number_design(
    n: usize,
    starts: &[u32],
    marked: &[u32],
    numbers: &mut [u32],
    endpoint: &mut [u32],
    names: &mut [u32],
)
    requires { NumberRoom n starts.now marked.now numbers.old endpoint.old names.old }
    ensures { Numbered n starts.now marked.now numbers.new endpoint.new names.new }
{
    number_places(numbers, n);
    number_endpoints(endpoint, n, starts, marked);
    number_places(names, starts.len());
}
