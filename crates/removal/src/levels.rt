// The classes of a list, level by level: those of one edge, of two, and so on.
ghost use Rattle.std.specs.Prelude.{◌≡◌, ℕ, ◌+◌, ◌*◌, ◌≤◌, ◌<◌, length, get_or};
ghost use Rattle.timing.specs.Lists.{sum};
ghost use Rattle.removal.specs.Tables.{Startable, Started};
ghost use Rattle.removal.specs.Levels.{Begun, Edged, item_of, Numberable, Passed};

use crate::classes::Lists;
use crate::items::sort_items;

// How many paths are left after a level, and how many classes there are so far.
#[derive(Clone, Copy)]
struct Level {
    left: usize,
    id: usize,
}

// Where each path ends in the flat list; and each path with class 0, as nothing of it is numbered yet.
fn path_ends(lengths: &[u32], ends: &mut [u32], who: &mut [u32])
    requires { (sum lengths.now ≤ 16384)
        × (length lengths.now ≤ 2048)
        × (length lengths.now ≤ length ends.old)
        × (length lengths.now ≤ length who.old) }
    ensures { Begun lengths.now ends.new who.new }
{
    let mut at: u32 = 0;
    for (k, &edges) in lengths.iter().enumerate() {
        at += edges;
        ends[k] = at;
        who[k] = k as u32;
    }
}

// The items of a level: the edge before what is numbered of a path, the class of that, and the path.
fn level_items(listed: &[u32], ends: &[u32], who: &[u32], items: &mut [u64], d: usize)
    requires { Edged listed.now ends.now who.now d × (length items.old ≡ length who.now) }
    ensures { (i : ℕ) → i < length who.now
        → get_or items.new i 0 ≡ item_of listed.now ends.now d (get_or who.now i 0) }
{
    for (i, &w) in who.iter().enumerate() {
        let k = (w % 2048) as usize;
        let e = listed[ends[k] as usize - d];
        items[i] = e as u64 * 67108864 + w as u64;
    }
}

// Numbers the classes of a level, whose items are in order: a new one where the edge and the class after it are not those of the item
// before. A path that ends here makes its class dead; the others go on to the next level.
#[tactic(auto, using(crate::proofs::Listing::NumberLaws::id_most))]
fn number_level(
    lengths: &[u32],
    items: &[u64],
    who: &mut [u32],
    s: &mut [u32],
    l: Lists,
    d: usize,
    from: usize,
) -> Level
    requires { Numberable lengths.now items.now who.old s.old l from }
    ensures { let n = length items.now in
        Passed lengths.now items.now s.old s.new who.new l d from n result.left result.id }
{
    let mut left = 0;
    let mut id = from;
    let mut last: u64 = 18446744073709551615;
    for &x in items {
        let key = x / 2048;
        if key != last {
            id += 1;
            s[l.one + id] = key as u32;
            last = key;
        }
        let k = (x % 2048) as usize;
        if lengths[k] as usize == d {
            s[l.loc + id] = 32767;
        } else {
            who[left] = (id * 2048 + k) as u32;
            left += 1;
        }
    }
    Level { left, id }
}

// All classes; gives how many there are. The places of classes are all 0 before. `ends`, `who`, `items` and `spare` have a word for each path to work in.
pub(crate) fn number_classes(
    listed: &[u32],
    lengths: &[u32],
    s: &mut [u32],
    l: Lists,
    ends: &mut [u32],
    who: &mut [u32],
    items: &mut [u64],
    spare: &mut [u64],
) -> usize
    requires startable { Startable l listed.now lengths.now s.old }
    requires lengths_in_bounds { (length lengths.now ≤ length ends.old)
        × (length lengths.now ≤ length who.old)
        × (length lengths.now ≤ length items.old)
        × (length lengths.now ≤ length spare.old) }
    ensures { Started l listed.now lengths.now s.old s.new result }
{
    path_ends(lengths, ends, who);
    let mut n = lengths.len();
    let mut d = 1;
    let mut id = 0;
    while 0 < n {
        let waiting = &mut items[..n];
        level_items(listed, ends, &who[..n], waiting, d);
        sort_items(waiting, &mut spare[..n]);
        let level = number_level(lengths, waiting, who, s, l, d, id);
        n = level.left;
        id = level.id;
        d += 1;
    }
    id
}
