// readiness, on a table that has been admitted.
// Stays: the lent lists are parameters, as in the other eleven calls. A struct for the one that writes none of them is no plainer.
#![tactic(auto)]

ghost use Rattle.std.specs.Prelude.{◌≡◌, length};
ghost use Rattle.rules.specs.Outcome.{Call};
ghost use Rattle.storage.specs.Layout.{HasSlot, HasSlots};
ghost use Rattle.storage.specs.Rows.{lent};
ghost use Rattle.table.specs.Admission.{Admitted};
ghost use Rattle.promise.specs.Answers.{told};
ghost use Rattle.promise.specs.Promise.{lists, Runs};
ghost use Rattle.readying.specs.Parts.{readable_of, room_in, writable_in, ready_in};

use promise::Accepted;
use storage::{Connection, State, handles};
use words::{Errno, Handle};

// What a socket is ready for, as C has it.
// Stays: the C interface: `ready_in` adds these numbers.
const READABLE: u64 = 1;

const WRITABLE: u64 = 2;

const HUNG_UP: u64 = 4;

// "readable if bytes are queued or the inbox is closed"
#[tactic(auto, unfolding(crate::specs::Parts::readable_of))]
fn readable(connection: Connection) -> u64
    ensures { result ≡ readable_of connection }
{
    if connection.inbox.queued() != 0 || connection.inbox_closed {
        READABLE
    } else {
        0
    }
}

#[tactic(auto, unfolding(crate::specs::Parts::room_in))]
fn has_room(state: State, c: usize) -> bool
    ensures { result ≡ room_in c state }
{
    matches!(state, State::Connected(connection) if connection.inbox.queued() < c)
}

// "writable if the outbox is open and the peer inbox has room": the peer is in slot `j`
#[tactic(auto, unfolding(crate::specs::Parts::writable_in))]
fn writable(words: &[u64], c: usize, j: usize, connection: Connection) -> u64
    requires { HasSlot j words.now }
    ensures { result ≡ writable_in c words.now j connection }
{
    if !connection.outbox_closed && has_room(storage::load(words, j).state, c) {
        WRITABLE
    } else {
        0
    }
}

#[tactic(auto, using(storage::proofs::Finds::open_slot), unfolding(crate::specs::Parts::ready_in, crate::specs::Parts::readable_of, crate::specs::Parts::writable_in))]
fn ready(words: &[u64], n: usize, c: usize, connection: Connection) -> u64
    requires { HasSlots n words.now }
    ensures { result ≡ ready_in n c words.now connection }
{
    if !handles::is_open(words, n, connection.peer) {
        return READABLE | HUNG_UP;
    }
    let j = handles::slot_of(connection.peer);
    readable(connection) + writable(words, c, j, connection)
}

pub fn readiness_admitted(
    words: &[u64],
    bytes: &[u8],
    tokens: &[u32],
    wakes: &[u64],
    releases: &[u32],
    n: usize,
    c: usize,
    h: Handle,
) -> Result<Accepted, Errno>
    requires { Admitted n c (lent words.now bytes.now tokens.now) (length wakes.now) (length releases.now) }
    ensures { Runs (Call.Readiness h.0) n c (lent words.now bytes.now tokens.now) (lent words.now bytes.now tokens.now) (lists wakes.now releases.now) (lists wakes.now releases.now) (told result) }
{
    if !handles::is_live(words, n, h) {
        return Err(Errno::EBADF);
    }
    let slot = storage::load(words, handles::slot_of(h));
    match slot.state {
        // no live socket is closed
        State::Closed => Err(Errno::DAMAGED),
        State::Unbound | State::Bound(_) => Ok(Accepted::new(0, 0)),
        State::Listening(listener) if listener.pending == 0 => Ok(Accepted::new(0, 0)),
        State::Listening(_) => Ok(Accepted::new(READABLE, 0)),
        State::Connected(connection) => Ok(Accepted::new(ready(words, n, c, connection), 0)),
    }
}
