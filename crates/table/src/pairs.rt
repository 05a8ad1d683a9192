// The check of a connected socket's peer.
ghost use Rattle.std.specs.Prelude.{◌≡◌, ◌||◌, eqb, ltb};
ghost use Rattle.storage.specs.Layout.{HasSlot, HasSlots};
ghost use Rattle.storage.specs.Cells.{cell_at, state_of};
ghost use Rattle.table.specs.OnePass.{points_back, peer_checks};

use storage::{CLOSED, CONNECTED};
use words::Handle;

// No socket is in a slot of this tag.
fn is_gone(tag: u64) -> bool
    ensures { result ≡ eqb tag 0 || ltb 4 tag }
{
    tag == CLOSED || CONNECTED < tag
}

// The peer in slot `j` points back, if it is open; `shut`: the outbox of `me` is closed.
#[tactic(auto, unfolding(storage::specs::Cells::cell_at, storage::specs::Cells::state_of, crate::specs::OnePass::points_back))]
fn points_back(words: &[u64], j: usize, me: Handle, shut: bool) -> bool
    requires { HasSlot j words.now }
    ensures { result ≡ points_back me.0 shut (state_of (cell_at words.now j)) }
{
    let b = 8 + 16 * j;
    let tag = words[b + 1];
    if tag != CONNECTED {
        return is_gone(tag);
    }
    words[b + 6] == me.0 && (words[b + 7] != 0) == shut
}

// The peer `p` of `me`: another socket that lives or has lived. No method of `Table`, which would ask
// for all rows.
#[tactic(auto, unfolding(storage::specs::Cells::cell_at, crate::specs::OnePass::peer_checks))]
pub fn peer_checks(words: &[u64], n: usize, me: Handle, p: Handle, shut: bool) -> bool
    requires { HasSlots n words.now }
    ensures { result ≡ peer_checks n words.now me.0 p.0 shut }
{
    let j = storage::handles::slot_of(p);
    let generation = p.0 / 65536;
    if n <= j || generation < 1 || p.0 == me.0 {
        return false;
    }
    let current = words[8 + 16 * j];
    if current != generation {
        return generation < current;
    }
    points_back(words, j, me, shut)
}
