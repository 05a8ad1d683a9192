// The storage that the host lends, and a slot of it as a value. docs/STORAGE.md has the picture.
// Stays: the lent lists, N and C are parameters of their own, since a function writes one and only reads another: a struct of all would ask to write every one.
// Stays: what may not change. A slot's index and C are numbers, whose ranges are clauses: a type that holds the range would ask more of callers.
#![tactic(auto)]

pub mod handles;
pub mod inboxes;
pub mod names;
pub mod queues;

ghost use Rattle.std.specs.Prelude.{◌≡◌, ◌≤◌};
ghost use Rattle.storage.specs.Layout.{sizes_of, HasSlot};
ghost use Rattle.storage.specs.Cells.{cell_at, store_at, state_of, cell_of, plain_cell, with_inbox};
ghost use Rattle.storage.specs.declared.State.TheVariants.{Connected};

use inbox::Inbox;
use words::Handle;

// The least lengths of what a host lends.
#[derive(Clone, Copy, Debug, PartialEq, Eq)]
pub struct Sizes {
    pub words: usize,
    pub bytes: usize,
    pub tokens: usize,
    pub wakes: usize,
    pub releases: usize,
}

// The tags of slots, as they stand in the words.
pub const CLOSED: u64 = 0;

pub const UNBOUND: u64 = 1;

pub const BOUND: u64 = 2;

pub const LISTENING: u64 = 3;

pub const CONNECTED: u64 = 4;

// The last generation of a slot.
pub const LAST_GENERATION: u64 = 4294967295;

// A slot's sixteen words.
// Stays: what may not change. The tag and the flags are words as they lie there, damaged ones too; `State` is what they mean.
#[derive(Clone, Copy, Debug, Default, PartialEq, Eq)]
pub struct Cell {
    pub generation: u64,
    pub tag: u64,
    pub name: u64,
    pub backlog: u64,
    pub head: u64,
    pub pending: u64,
    pub peer: u64,
    pub inbox_closed: u64,
    pub outbox_closed: u64,
    pub byte: u64,
    pub written_total: u64,
    pub read_total: u64,
    pub first: u64,
    pub items: u64,
    pub waits: u64,
    pub place: u64,
}

// A listening socket: the length of its name, its backlog, and where its pending servers stand in
// its ring of handles.
#[derive(Clone, Copy, Debug, PartialEq, Eq)]
pub struct Listener {
    pub name: usize,
    pub backlog: u64,
    pub head: usize,
    pub pending: usize,
}

// A connected socket. A pending server waits in the queue of slot `waits - 1`, at `place` of that
// ring; for a socket that has been given out both are 0.
// Stays: what may not change: `connection_of` and `cell_of` have `waits` and `place` as words.
#[derive(Clone, Copy)]
pub struct Connection {
    pub peer: Handle,
    pub inbox: Inbox,
    pub inbox_closed: bool,
    pub outbox_closed: bool,
    pub waits: usize,
    pub place: usize,
}

// A slot's state. A bound socket has the length of its name.
#[derive(Clone, Copy)]
pub enum State {
    Closed,
    Unbound,
    Bound(usize),
    Listening(Listener),
    Connected(Connection),
}

#[derive(Clone, Copy)]
pub struct Slot {
    pub generation: u64,
    pub state: State,
}

// The least sizes for `n` slots of capacity `c`.
#[tactic(auto, using(crate::proofs::Strides::square, crate::proofs::Strides::area))]
pub fn least_sizes(n: usize, c: usize) -> Sizes
    requires { (n ≤ 1024) × (c ≤ 65536) }
    ensures { result ≡ sizes_of n c }
{
    Sizes {
        words: 8 + 272 * n + n * n,
        bytes: c * n + 255 * n,
        tokens: 256 * n,
        wakes: n + 1,
        releases: 256 * n,
    }
}

pub fn load(words: &[u64], i: usize) -> Slot
    requires { HasSlot i words.now }
    ensures { result ≡ record { generation = (cell_at words.now i).generation; state = state_of (cell_at words.now i) } }
{
    let cell = load_cell(words, i);
    Slot {
        generation: cell.generation,
        state: cell.into(),
    }
}

pub fn store(words: &mut [u64], i: usize, slot: Slot)
    requires { HasSlot i words.old }
    ensures { words.new ≡ store_at words.old i (cell_of slot.generation slot.state) }
{
    store_cell(words, i, slot.into());
}

// A connection with another inbox, into slot `i`.
pub fn store_inbox(
    words: &mut [u64],
    i: usize,
    generation: u64,
    connection: Connection,
    inbox: Inbox,
)
    requires { HasSlot i words.old }
    ensures { words.new ≡ store_at words.old i (cell_of generation (Connected (with_inbox connection inbox))) }
{
    let state = State::Connected(Connection {
        inbox,
        ..connection
    });
    store(words, i, Slot { generation, state });
}

#[tactic(auto, unfolding(crate::specs::Cells::cell_at))]
pub fn load_cell(words: &[u64], i: usize) -> Cell
    requires { HasSlot i words.now }
    ensures { result ≡ cell_at words.now i }
{
    let b = 8 + 16 * i;
    Cell {
        generation: words[b + 0],
        tag: words[b + 1],
        name: words[b + 2],
        backlog: words[b + 3],
        head: words[b + 4],
        pending: words[b + 5],
        peer: words[b + 6],
        inbox_closed: words[b + 7],
        outbox_closed: words[b + 8],
        byte: words[b + 9],
        written_total: words[b + 10],
        read_total: words[b + 11],
        first: words[b + 12],
        items: words[b + 13],
        waits: words[b + 14],
        place: words[b + 15],
    }
}

// Stays: a store for each word. `copy_from_slice` of an array of them is no plainer, since all sixteen stand in it too; it takes 15 ns, this 6.
#[tactic(auto, unfolding(crate::specs::Cells::store_at))]
fn store_cell(words: &mut [u64], i: usize, cell: Cell)
    requires { HasSlot i words.old }
    ensures { words.new ≡ store_at words.old i cell }
{
    let b = 8 + 16 * i;
    words[b + 0] = cell.generation;
    words[b + 1] = cell.tag;
    words[b + 2] = cell.name;
    words[b + 3] = cell.backlog;
    words[b + 4] = cell.head;
    words[b + 5] = cell.pending;
    words[b + 6] = cell.peer;
    words[b + 7] = cell.inbox_closed;
    words[b + 8] = cell.outbox_closed;
    words[b + 9] = cell.byte;
    words[b + 10] = cell.written_total;
    words[b + 11] = cell.read_total;
    words[b + 12] = cell.first;
    words[b + 13] = cell.items;
    words[b + 14] = cell.waits;
    words[b + 15] = cell.place;
}

// What a cell says; a tag that no state has is read as closed.
impl From<Cell> for State {
    ghost use Rattle.std.specs.Prelude.{◌≡◌};
    ghost use Rattle.storage.specs.Cells.{state_of};

    ghost from_gives = { λ cell state. state ≡ state_of cell };

    #[tactic(auto, unfolding(crate::specs::Cells::state_of))]
    fn from(cell: Cell) -> State {
        match cell.tag {
            UNBOUND => State::Unbound,
            BOUND => State::Bound(cell.name as usize),
            LISTENING => State::Listening(cell.into()),
            CONNECTED => State::Connected(cell.into()),
            _ => State::Closed,
        }
    }
}

impl From<Cell> for Listener {
    ghost use Rattle.std.specs.Prelude.{◌≡◌};
    ghost use Rattle.storage.specs.Cells.{listener_of};

    ghost from_gives = { λ cell listener. listener ≡ listener_of cell };

    fn from(cell: Cell) -> Listener {
        Listener {
            name: cell.name as usize,
            backlog: cell.backlog,
            head: cell.head as usize,
            pending: cell.pending as usize,
        }
    }
}

impl From<Cell> for Connection {
    ghost use Rattle.std.specs.Prelude.{◌≡◌};
    ghost use Rattle.storage.specs.Cells.{connection_of};

    ghost from_gives = { λ cell connection. connection ≡ connection_of cell };

    fn from(cell: Cell) -> Connection {
        Connection {
            peer: Handle(cell.peer),
            inbox: Inbox {
                head: cell.byte as usize,
                written_total: cell.written_total,
                read_total: cell.read_total,
                first: cell.first as usize,
                items: cell.items as usize,
            },
            inbox_closed: cell.inbox_closed != 0,
            outbox_closed: cell.outbox_closed != 0,
            waits: cell.waits as usize,
            place: cell.place as usize,
        }
    }
}

// A slot with no socket: all but its generation is 0.
fn closed(generation: u64) -> Cell
    ensures { result ≡ plain_cell generation 0 0 }
{
    Cell {
        generation,
        ..Cell::default()
    }
}

// The words of a slot: a field that its state does not have is 0.
impl From<Slot> for Cell {
    ghost use Rattle.std.specs.Prelude.{◌≡◌};
    ghost use Rattle.storage.specs.Cells.{cell_of};

    ghost from_gives = { λ slot cell. cell ≡ cell_of slot.generation slot.state };

    #[tactic(auto, unfolding(crate::specs::Cells::cell_of))]
    fn from(slot: Slot) -> Cell {
        let closed = closed(slot.generation);
        match slot.state {
            State::Closed => closed,
            State::Unbound => Cell {
                tag: UNBOUND,
                ..closed
            },
            State::Bound(name) => Cell {
                tag: BOUND,
                name: name as u64,
                ..closed
            },
            State::Listening(listener) => Cell {
                tag: LISTENING,
                name: listener.name as u64,
                backlog: listener.backlog,
                head: listener.head as u64,
                pending: listener.pending as u64,
                ..closed
            },
            State::Connected(connection) => Cell {
                tag: CONNECTED,
                peer: connection.peer.0,
                inbox_closed: connection.inbox_closed as u64,
                outbox_closed: connection.outbox_closed as u64,
                byte: connection.inbox.head as u64,
                written_total: connection.inbox.written_total,
                read_total: connection.inbox.read_total,
                first: connection.inbox.first as u64,
                items: connection.inbox.items as u64,
                waits: connection.waits as u64,
                place: connection.place as u64,
                ..closed
            },
        }
    }
}
