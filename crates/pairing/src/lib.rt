// connect, on a table that has been admitted.
// Stays: what may not change. A call writes some of the lent lists and only reads others (`.now` in its clauses): a struct of all five would ask to write every one.
#![tactic(auto)]

ghost use Rattle.std.specs.Prelude.{◌≡◌, ◌+◌, ◌*◌, ◌≤◌, ◌<◌, length};
ghost use Rattle.rules.specs.Table.{slot_of};
ghost use Rattle.rules.specs.Outcome.{Call};
ghost use Rattle.storage.specs.Cells.{cell_at};
ghost use Rattle.storage.specs.Rows.{lent};
ghost use Rattle.table.specs.Admission.{Admitted};
ghost use Rattle.promise.specs.Answers.{told};
ghost use Rattle.promise.specs.Promise.{lists, Runs};
ghost use Rattle.pairing.specs.Pairs.{new_end, joined};
ghost use Rattle.pairing.specs.Callers.{Caller};

use inbox::Inbox;
use promise::Accepted;
use storage::{Connection, Listener, Slot, State, handles, names, queues};
use words::{Errno, Handle};

#[tactic(auto, unfolding(storage::specs::Finding::live_in, storage::specs::Finding::open_in))]
pub fn connect_admitted(
    words: &mut [u64],
    bytes: &[u8],
    tokens: &[u32],
    wakes: &mut [u64],
    releases: &[u32],
    n: usize,
    c: usize,
    h: Handle,
    name: &[u8],
) -> Result<Accepted, Errno>
    requires { Admitted n c (lent words.old bytes.now tokens.now) (length wakes.old) (length releases.now) }
    ensures { Runs (Call.Connect h.0 name.now) n c (lent words.old bytes.now tokens.now) (lent words.new bytes.now tokens.now) (lists wakes.old releases.now) (lists wakes.new releases.now) (told result) }
{
    if !handles::is_live(words, n, h) {
        return Err(Errno::EBADF);
    }
    names::refusal(name)?;
    let i = handles::slot_of(h);
    match storage::load(words, i).state {
        // no live socket is closed
        State::Closed => Err(Errno::DAMAGED),
        State::Unbound => reach(words, bytes, tokens, wakes, releases, n, c, h, name),
        State::Bound(_) => Err(Errno::EINVAL),
        State::Listening(_) => Err(Errno::EOPNOTSUPP),
        State::Connected(_) => Err(Errno::EISCONN),
    }
}

// An unbound caller, from the name on.
#[tactic(auto, unfolding(storage::specs::Finding::lowest))]
fn reach(
    words: &mut [u64],
    bytes: &[u8],
    tokens: &[u32],
    wakes: &mut [u64],
    releases: &[u32],
    n: usize,
    c: usize,
    h: Handle,
    name: &[u8],
) -> Result<Accepted, Errno>
    requires admitted { Admitted n c (lent words.old bytes.now tokens.now) (length wakes.old) (length releases.now) }
    requires caller { Caller n words.old h.0 name.now }
    ensures { Runs (Call.Connect h.0 name.now) n c (lent words.old bytes.now tokens.now) (lent words.new bytes.now tokens.now) (lists wakes.old releases.now) (lists wakes.new releases.now) (told result) }
{
    let Some(l) = names::find(words, bytes, n, c, n, name) else {
        return Err(Errno::ECONNREFUSED);
    };
    let found = storage::load(words, l);
    let State::Listening(listener) = found.state else {
        return Err(Errno::ECONNREFUSED);
    };
    if listener.backlog <= listener.pending as u64 {
        return Err(Errno::EAGAIN);
    }
    let Some(j) = handles::lowest_free(words, n) else {
        return Err(Errno::ENFILE);
    };
    join(words, n, h, l, found, listener, j);
    wakes[0] = handles::handle(found.generation, l).0;
    wakes[1] = h.0;
    Ok(Accepted::new(0, 2))
}

// The caller `h` and a new server in slot `j`, each the other's peer; the server waits for the
// listener of slot `l`, last in its queue.
#[tactic(auto, unfolding(crate::specs::Pairs::joined, crate::specs::Pairs::pair_in, crate::specs::Pairs::queue_up))]
fn join(words: &mut [u64], n: usize, h: Handle, l: usize, found: Slot, listener: Listener, j: usize)
    requires slots_in { (slot_of h.0 < n) × (l < n) × (j < n) × (n ≤ 1024) × (8 + 272 * n + n * n ≤ length words.old) }
    requires numbers_fit { ((cell_at words.old j).generation < 4294967295) × (listener.head < n) × (listener.pending ≤ n) }
    ensures { words.new ≡ joined n words.old h.0 l found.generation listener j }
{
    let caller = storage::load(words, handles::slot_of(h));
    let generation = storage::load(words, j).generation + 1;
    let server = handles::handle(generation, j);
    let at = ring::place(n, listener.head + listener.pending);
    let state = State::Connected(new_end(h, l + 1, at));
    storage::store(words, j, Slot { generation, state });
    let state = State::Connected(new_end(server, 0, 0));
    storage::store(words, handles::slot_of(h), Slot { state, ..caller });
    queues::put_entry(words, n, l, at, server);
    let state = State::Listening(Listener {
        pending: listener.pending + 1,
        ..listener
    });
    storage::store(words, l, Slot { state, ..found });
}

// One of a new pair: nothing is queued, and nothing shut down.
fn new_end(peer: Handle, waits: usize, place: usize) -> Connection
    ensures { result ≡ new_end peer.0 waits place }
{
    Connection {
        peer,
        inbox: Inbox::new(),
        inbox_closed: false,
        outbox_closed: false,
        waits,
        place,
    }
}
