// Writing a deck as bytes into a lent room.
#![tactic(auto)]

ghost use Rattle.std.specs.Prelude.{◌≡◌};
ghost use Rattle.timing.specs.Graphs.{design};
ghost use Rattle.timing.specs.Marks.{path_list};
ghost use Rattle.timing.specs.Decks.{Deck, packed_deck};
ghost use Rattle.timing.specs.Calls.{deck_write_tests, writing, room_after_writing};

use timing::Refusal;
use verdicts::refuse;

mod counts;
mod writer;

// Writes a deck at the front of the room. Nothing is written before it is known that all of it fits.
pub fn write_deck(
    n: u32,
    starts: &[u32],
    ends: &[u32],
    early: &[i32],
    late: &[i32],
    marked: &[u32],
    listed: &[u32],
    lengths: &[u32],
    allowed: u32,
    room: &mut [u8],
) -> Result<usize, Refusal>
    ensures { let D = design n starts.now ends.now early.now late.now
        marked.now in
        let L = path_list listed.now lengths.now in
        let d : Deck = record { design = D; list = L; allowed = allowed } in
        (result ≡ writing (deck_write_tests d) room.old (packed_deck d))
        × (room.new ≡ room_after_writing (deck_write_tests d) room.old (packed_deck d)) }
{
    counts::write_tests(n, starts, ends, early, late, marked, listed, lengths)?;
    let size = writer::deck_size(
        n, starts, ends, early, late, marked, listed, lengths, allowed,
    );
    if room.len() < size {
        return Err(refuse(35, 0));
    }
    Ok(writer::put_deck(
        n, starts, ends, early, late, marked, listed, lengths, allowed, room,
    ))
}
