// close, on a table that has been admitted.
// Stays: what may not change. A call writes some of the lent lists and only reads others (`.now` in its clauses): a struct of all five would ask to write every one.
#![tactic(auto)]

ghost use Rattle.std.specs.Prelude.{◌≡◌, true, ◌+◌, ◌*◌, ◌≤◌, ◌<◌, length};
ghost use Rattle.rules.specs.Outcome.{Call};
ghost use Rattle.storage.specs.Layout.{HasSlot, HasSlots};
ghost use Rattle.storage.specs.Rows.{lent};
ghost use Rattle.table.specs.Admission.{Admitted};
ghost use Rattle.promise.specs.Answers.{told};
ghost use Rattle.promise.specs.Promise.{lists, Runs};
ghost use Rattle.rules.specs.Table.{slot_of};
ghost use Rattle.storage.specs.Cells.{cell_at, state_of, store_at, cell_of};
ghost use Rattle.storage.specs.Finding.{live_in};
ghost use Rattle.storage.specs.declared.State.TheVariants.{Closed, Listening};
ghost use Rattle.ending.specs.Leaving.{Ends, Fits, Serves, connection_in};

use promise::{Accepted, REGISTRY};
use storage::{Connection, Listener, Slot, State, handles, inboxes, queues};
use words::{Errno, Handle};

// How far the wake list and the release list are filled.
#[derive(Clone, Copy, Default)]
struct Closing {
    wakes: usize,
    releases: usize,
}

// The socket in slot `i` leaves it.
fn leave(words: &mut [u64], i: usize, generation: u64)
    requires { HasSlot i words.old }
    ensures { words.new ≡ store_at words.old i (cell_of generation Closed) }
{
    let state = State::Closed;
    storage::store(words, i, Slot { generation, state });
}

// A connected socket, in slot `i`.
#[derive(Clone, Copy)]
struct Socket {
    i: usize,
    generation: u64,
    connection: Connection,
}

impl Socket {
    // It closes: its items are released, its open peer is woken.
    fn end(
        self,
        words: &mut [u64],
        tokens: &[u32],
        wakes: &mut [u64],
        releases: &mut [u32],
        n: usize,
        c: usize,
        done: Closing,
    ) -> Closing
        requires roomy { (self.i < n) × HasSlots n words.old × (256 * n ≤ length tokens.now) × (c ≤ 65536) }
        requires fits { Fits c self.connection }
        requires lists_room { (done.wakes < length wakes.old) × (done.releases + 256 ≤ length releases.old) }
        ensures { Ends n self.i self.generation self.connection words.old words.new tokens.now wakes.old wakes.new releases.old releases.new done result }
    {
        let Connection { peer, inbox, .. } = self.connection;
        let peer_open = handles::is_open(words, n, peer);
        let discarded = inboxes::discard(tokens, c, self.i, inbox, releases, done.releases);
        let done = Closing {
            releases: done.releases + discarded.released,
            ..done
        };
        leave(words, self.i, self.generation);
        if !peer_open {
            return done;
        }
        wakes[done.wakes] = peer.0;
        Closing {
            wakes: done.wakes + 1,
            ..done
        }
    }
}

// A pending server closes.
fn end_server(
    words: &mut [u64],
    tokens: &[u32],
    wakes: &mut [u64],
    releases: &mut [u32],
    n: usize,
    c: usize,
    server: Handle,
    done: Closing,
) -> Closing
    requires serves { Serves n c words.old server.0 }
    requires roomy { HasSlots n words.old × (256 * n ≤ length tokens.now) × (c ≤ 65536) }
    requires lists_room { (done.wakes < length wakes.old) × (done.releases + 256 ≤ length releases.old) }
    ensures { Ends n (slot_of server.0) (cell_at words.old (slot_of server.0)).generation (connection_in (state_of (cell_at words.old (slot_of server.0)))) words.old words.new tokens.now wakes.old wakes.new releases.old releases.new done result }
{
    let i = handles::slot_of(server);
    let Slot { generation, state } = storage::load(words, i);
    // a pending server is connected
    let State::Connected(connection) = state else {
        return done;
    };
    let socket = Socket {
        i,
        generation,
        connection,
    };
    socket.end(words, tokens, wakes, releases, n, c, done)
}

// A listener closes, and then each pending server, oldest first.
#[tactic(auto, using(promise::proofs::Asked::some_wake))]
fn end_listener(
    words: &mut [u64],
    bytes: &[u8],
    tokens: &[u32],
    wakes: &mut [u64],
    releases: &mut [u32],
    n: usize,
    c: usize,
    h: Handle,
    generation: u64,
    listener: Listener,
) -> Result<Accepted, Errno>
    requires admitted { Admitted n c (lent words.old bytes.now tokens.now) (length wakes.old) (length releases.old) }
    requires live { live_in n words.old h.0 ≡ true }
    requires listens { (state_of (cell_at words.old (slot_of h.0)) ≡ Listening listener) × (generation ≡ (cell_at words.old (slot_of h.0)).generation) }
    ensures { Runs (Call.Close h.0) n c (lent words.old bytes.now tokens.now) (lent words.new bytes.now tokens.now) (lists wakes.old releases.old) (lists wakes.new releases.new) (told result) }
{
    let i = handles::slot_of(h);
    leave(words, i, generation);
    wakes[0] = REGISTRY;
    let mut done = Closing {
        wakes: 1,
        releases: 0,
    };
    for k in 0..listener.pending {
        let server = queues::entry(words, n, i, ring::place(n, listener.head + k));
        done = end_server(words, tokens, wakes, releases, n, c, server, done);
    }
    Ok(Accepted::releasing(done.wakes, done.releases))
}

// Not inlined: what it keeps on the stack then does not lie above the check's.
#[inline(never)]
pub fn close_admitted(
    words: &mut [u64],
    bytes: &[u8],
    tokens: &[u32],
    wakes: &mut [u64],
    releases: &mut [u32],
    n: usize,
    c: usize,
    h: Handle,
) -> Result<Accepted, Errno>
    requires { Admitted n c (lent words.old bytes.now tokens.now) (length wakes.old) (length releases.old) }
    ensures { Runs (Call.Close h.0) n c (lent words.old bytes.now tokens.now) (lent words.new bytes.now tokens.now) (lists wakes.old releases.old) (lists wakes.new releases.new) (told result) }
{
    if !handles::is_live(words, n, h) {
        return Err(Errno::EBADF);
    }
    let i = handles::slot_of(h);
    let Slot { generation, state } = storage::load(words, i);
    match state {
        // no live socket is closed
        State::Closed => Err(Errno::DAMAGED),
        State::Unbound => {
            leave(words, i, generation);
            Ok(Accepted::new(0, 0))
        }
        State::Bound(_) => {
            leave(words, i, generation);
            wakes[0] = REGISTRY;
            Ok(Accepted::new(0, 1))
        }
        State::Listening(listener) => end_listener(
            words, bytes, tokens, wakes, releases, n, c, h, generation, listener,
        ),
        State::Connected(connection) => {
            let socket = Socket {
                i,
                generation,
                connection,
            };
            let done = socket.end(words, tokens, wakes, releases, n, c, Closing::default());
            Ok(Accepted::releasing(done.wakes, done.releases))
        }
    }
}
