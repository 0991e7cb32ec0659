// Where the tables stand in the scratch, and their readers.
ghost use Rattle.std.specs.Prelude.{◌≡◌, ◌<◌, take};
ghost use Rattle.removal.specs.Rows.{Ready, run_from};

use crate::classes::Lists;

// `lists` tells where the tables of the list stand (`classes`). `first` has a word for each copy: how many marks there are at
// the nodes below its own; and `base` where its slots stand in the scratch, with one word more, where the last ones end. The edges are in order of
// their ends, and of those with one end by name: `into` has for each copy where the edges into it end, and those into the next one begin; `start`, `name`
// and `default` have a word for each edge: the copy where it starts, the design edge that it names, and the place of the slot to which the empty mark at its end leads, or that of what is dead.
// The slots stand next, and then the tables that the passes work in, each with a word for each edge: `seen` is 1 while the patches of a row are
// collected, where an edge has one, `cover` counts the reached marks that patch it, `patch` and `lead` are the patches of the row at hand, and `comes`
// has the flags from which its edges come.
#[derive(Clone, Copy)]
pub(crate) struct Layout {
    pub(crate) copies: usize,
    pub(crate) edges: usize,
    pub(crate) lists: Lists,
    pub(crate) first: usize,
    pub(crate) base: usize,
    pub(crate) into: usize,
    pub(crate) start: usize,
    pub(crate) name: usize,
    pub(crate) default: usize,
    pub(crate) slots: usize,
    pub(crate) seen: usize,
    pub(crate) cover: usize,
    pub(crate) patch: usize,
    pub(crate) lead: usize,
    pub(crate) comes: usize,
}

// Where the edges into copy c begin.
pub(crate) fn run_from(l: Layout, scratch: &[u32], c: usize) -> usize
    requires { Ready l scratch.now × (c < l.copies) }
    ensures { result ≡ run_from l (take l.slots scratch.now) c }
{
    if c == 0 {
        return 0;
    }
    let before = l.into + (c - 1);
    scratch[before] as usize
}
