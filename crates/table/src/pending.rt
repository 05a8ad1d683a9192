// The check of queues and of the servers that wait in them: an entry is of a server that says so,
// and a server stands where it says.
ghost use Rattle.std.specs.Prelude.{◌≡◌, ◌≤◌, ◌<◌};
ghost use Rattle.rules.specs.Table.{handle};
ghost use Rattle.storage.specs.Cells.{cell_at};
ghost use Rattle.storage.specs.declared.State.TheVariants.{Listening, Connected};
ghost use Rattle.table.specs.OnePass.{entry_well};
ghost use Rattle.table.specs.Formed.{queue_in, waits_at, server_well, ahead, stands_at, tied_state};

use crate::Table;
use storage::{Connection, Listener, State, handles, queues};
use words::Handle;

// A server that waits on slot `l - 1`, at place `x` of its ring.
#[tactic(auto, unfolding(crate::specs::Formed::waits_at))]
fn waits_at(l: usize, x: usize, state: State) -> bool
    ensures { result ≡ waits_at l x state }
{
    matches!(state, State::Connected(server) if server.waits == l && server.place == x)
}

// How far place `b` of a ring of `n` lies after place `a`, which may lie outside.
#[tactic(auto, unfolding(crate::specs::Formed::ahead))]
fn places_ahead(n: usize, a: usize, b: usize) -> usize
    requires { (n ≤ 1024) × (b < n) }
    ensures { result ≡ ahead n a b }
{
    if a <= b {
        b - a
    } else {
        (b + n).saturating_sub(a)
    }
}

impl Table<'_> {
    // The handle `h`, found at place `x` of the ring of slot `i`, is of a server that says so.
    #[tactic(auto, using(storage::proofs::Finds::open_slot, crate::proofs::Servers::waits_open), unfolding(crate::specs::Formed::server_well, storage::specs::Finding::open_in))]
    fn server_well(&self, i: usize, x: usize, h: Handle) -> bool
        requires { i < self.now.n }
        ensures { result ≡ server_well self.now.n self.now.words.now i x h.0 }
    {
        handles::is_open(self.words, self.n, h)
            && waits_at(
                i + 1,
                x,
                storage::load(self.words, handles::slot_of(h)).state,
            )
    }

    // Entry `k` of the queue of slot `i`.
    #[tactic(auto, using(crate::proofs::Servers::entry_is))]
    fn entry_well(&self, i: usize, listener: Listener, k: usize) -> bool
        requires { (i < self.now.n) × (listener.head < self.now.n) × (k < self.now.n) }
        ensures { result ≡ entry_well self.now.n self.now.words.now i listener k }
    {
        let x = ring::place(self.n, listener.head + k);
        self.server_well(i, x, queues::entry(self.words, self.n, i, x))
    }

    // Every entry of the queue of slot `i`.
    pub fn servers_well(&self, i: usize, listener: Listener) -> bool
        requires { (i < self.now.n) × (listener.head < self.now.n) × (listener.pending ≤ self.now.n) }
        ensures { result ≡ tied_state self.now.n self.now.words.now i (Listening listener) }
    {
        (0..listener.pending).all(|k| self.entry_well(i, listener, k))
    }

    // The handle `h` stands at place `x` of the queue of slot `l`, whose state this is.
    #[tactic(auto, unfolding(crate::specs::Formed::stands_at))]
    fn stands_at(&self, x: usize, h: Handle, l: usize, state: State) -> bool
        requires { l < self.now.n }
        ensures { result ≡ stands_at self.now.n x h.0 (queue_in self.now.n self.now.words.now l) state }
    {
        let State::Listening(listener) = state else {
            return false;
        };
        x < self.n
            && places_ahead(self.n, listener.head, x) < listener.pending
            && queues::entry(self.words, self.n, l, x).0 == h.0
    }

    // The socket `me` in slot `i`, if it waits.
    #[tactic(auto, unfolding(crate::specs::Formed::tied_state))]
    pub fn server_stands(&self, i: usize, me: Handle, server: Connection) -> bool
        requires { (i < self.now.n) × (me.0 ≡ handle (cell_at self.now.words.now i).generation i) }
        ensures { result ≡ tied_state self.now.n self.now.words.now i (Connected server) }
    {
        if server.waits == 0 {
            return true;
        }
        let l = server.waits - 1;
        l < self.n && self.stands_at(server.place, me, l, storage::load(self.words, l).state)
    }
}
