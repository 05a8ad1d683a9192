// What is lent for six slots of capacity 8, and what is asked of it.
ghost use Rattle.std.specs.Prelude.{◌<◌};

use inbox::Inbox;
use storage::{Connection, Listener, Slot, State};
use words::Handle;

const SLOTS: usize = 6;

const CAPACITY: usize = 8;

pub const WORDS: usize = 8 + 272 * SLOTS + SLOTS * SLOTS;

const BYTES: usize = (CAPACITY + 255) * SLOTS;

const TOKENS: usize = 256 * SLOTS;

pub const WAKES: usize = SLOTS + 1;

/// How far the handles of one generation are from those of the next.
pub const STEP: u64 = 65536;

/// N and C as they are passed, and how many words and wakes are lent.
#[derive(Clone, Copy)]
pub struct Ask {
    pub n: usize,
    pub c: usize,
    pub words: usize,
    pub wakes: usize,
}

impl Ask {
    pub const WHOLE: Ask = Ask {
        n: SLOTS,
        c: CAPACITY,
        words: WORDS,
        wakes: WAKES,
    };
}

/// The words of a slot that are changed, in their order.
#[derive(Clone, Copy)]
pub enum Field {
    Generation,
    Tag,
    Name,
    Backlog,
    Head,
    Pending,
    Peer,
    InboxClosed,
    OutboxClosed,
    Byte,
    Written,
    First = 12,
    Items,
    Waits,
    Place,
}

/// What gets another value. Slots, items, entries and letters go by their numbers.
#[derive(Clone, Copy)]
pub enum Change {
    /// A word of the header.
    Header(usize, u64),
    /// A word of a slot.
    Word(u8, Field, u64),
    /// The offset of an item in the inbox of a slot.
    Offset(u8, u8, u64),
    /// An entry of the queue of a slot.
    Entry(u8, u8, u64),
    /// A byte of the name of a slot.
    Letter(u8, u8, u8),
}

#[derive(Drop)]
pub struct Lent {
    words: [u64; WORDS],
    bytes: [u8; BYTES],
}

impl Lent {
    /// Every slot is free.
    pub fn fresh() -> Lent {
        let mut words = [0; WORDS];
        let bytes = [0; BYTES];
        let _ = table::make::make(&mut words, &bytes, &[0; TOKENS], SLOTS, CAPACITY);
        Lent { words, bytes }
    }

    pub fn built() -> Lent {
        let mut lent = Lent::fresh();
        lent.queue_up();
        lent.fill(3, State::Bound(2));
        lent.fill(4, State::Connected(connection(5)));
        lent.fill(5, State::Closed);
        lent.name(0, b'a');
        lent.name(3, b'b');
        lent
    }

    // A pending server, its listener and its client. Three bytes and one item wait for the server.
    fn queue_up(&mut self) {
        let listener = Listener {
            name: 2,
            backlog: 4,
            head: 0,
            pending: 1,
        };
        let mut server = connection(1);
        server.inbox.written_total = 3;
        server.inbox.items = 1;
        server.waits = 1;
        self.fill(0, State::Listening(listener));
        self.change(Change::Entry(0, 0, STEP + 2));
        self.fill(1, State::Connected(connection(2)));
        self.fill(2, State::Connected(server));
    }

    fn fill(&mut self, i: usize, state: State)
        requires { i < 6 }
    {
        let generation = 1;
        storage::store(&mut self.words, i, Slot { generation, state });
    }

    fn name(&mut self, slot: u8, last: u8) {
        self.change(Change::Letter(slot, 0, b'/'));
        self.change(Change::Letter(slot, 1, last));
    }

    pub fn change(&mut self, change: Change) {
        match change {
            Change::Header(at, value) => put(&mut self.words, at, value),
            Change::Word(slot, field, value) => {
                let at = 8 + 16 * usize::from(slot) + field as usize;
                put(&mut self.words, at, value);
            }
            Change::Offset(slot, k, value) => {
                let at = 8 + 16 * SLOTS + 256 * usize::from(slot) + usize::from(k);
                put(&mut self.words, at, value);
            }
            Change::Entry(slot, k, value) => {
                let at = 8 + 272 * SLOTS + SLOTS * usize::from(slot) + usize::from(k);
                put(&mut self.words, at, value);
            }
            Change::Letter(slot, k, value) => {
                let at = CAPACITY * SLOTS + 255 * usize::from(slot) + usize::from(k);
                put(&mut self.bytes, at, value);
            }
        }
    }

    /// The number that a call is answered. Items are not looked at: one list stands for the items
    /// and for the releases.
    pub fn answer(&self, ask: Ask) -> u32 {
        let storage = &self.words[..ask.words.min(WORDS)];
        let wakes = &[0; WAKES][..ask.wakes.min(WAKES)];
        let items = [0; TOKENS];
        let admission = table::admission(storage, &self.bytes, &items, wakes, &items, ask.n, ask.c);
        words::refusal(admission)
    }
}

fn put<T: Copy + Drop>(list: &mut [T], at: usize, value: T) {
    if let Some(place) = list.get_mut(at) {
        *place = value;
    }
}

// A connection with slot `peer`, generation 1, and an empty inbox.
fn connection(peer: u8) -> Connection {
    Connection {
        peer: Handle(STEP + u64::from(peer)),
        inbox: Inbox::new(),
        inbox_closed: false,
        outbox_closed: false,
        waits: 0,
        place: 0,
    }
}
