// Handles and slots: which slot a handle means, and the lowest slot that is free.
ghost use Rattle.std.specs.Prelude.{◌≡◌, ◌≤◌, ◌<◌};
ghost use Rattle.rules.specs.Table.{slot_of, handle};
ghost use Rattle.storage.specs.Layout.{HasSlots};
ghost use Rattle.storage.specs.Cells.{cell_at};
ghost use Rattle.storage.specs.Finding.{occupied, waiting, open_in, live_in, free_cell, lowest};

use crate::{Cell, LAST_GENERATION, Slot, State};
use words::Handle;

pub fn slot_of(h: Handle) -> usize
    ensures { result ≡ slot_of h.0 }
{
    (h.0 % 65536) as usize
}

pub fn handle(generation: u64, i: usize) -> Handle
    requires { (generation ≤ 4294967295) × (i < 65536) }
    ensures { result.0 ≡ handle generation i }
{
    Handle(generation * 65536 + i as u64)
}

// A socket is in the slot.
pub fn is_occupied(state: State) -> bool
    ensures { result ≡ occupied state }
{
    !matches!(state, State::Closed)
}

// A server that accept has not returned yet.
pub fn is_waiting(state: State) -> bool
    ensures { result ≡ waiting state }
{
    matches!(state, State::Connected(connection) if connection.waits != 0)
}

// The handle's socket is open, be it still pending.
#[tactic(auto, unfolding(crate::specs::Finding::open_in))]
pub fn is_open(words: &[u64], n: usize, h: Handle) -> bool
    requires { HasSlots n words.now }
    ensures { result ≡ open_in n words.now h.0 }
{
    let i = slot_of(h);
    if n <= i {
        return false;
    }
    let Slot { generation, state } = crate::load(words, i);
    generation == h.0 / 65536 && is_occupied(state)
}

// The entries take this handle.
#[tactic(auto, unfolding(crate::specs::Finding::live_in, crate::specs::Finding::open_in))]
pub fn is_live(words: &[u64], n: usize, h: Handle) -> bool
    requires { HasSlots n words.now }
    ensures { result ≡ live_in n words.now h.0 }
{
    is_open(words, n, h) && !is_waiting(crate::load(words, slot_of(h)).state)
}

// A slot closed at its last generation is never used again.
#[tactic(auto, unfolding(crate::specs::Finding::free_cell))]
fn is_free(cell: Cell) -> bool
    ensures { result ≡ free_cell cell }
{
    !is_occupied(cell.into()) && cell.generation < LAST_GENERATION
}

// The lowest slot for a new socket.
pub fn lowest_free(words: &[u64], n: usize) -> Option<usize>
    requires { HasSlots n words.now }
    ensures { result ≡ lowest n (λ i. free_cell (cell_at words.now i)) }
{
    (0..n).find(|&i| is_free(crate::load_cell(words, i)))
}
