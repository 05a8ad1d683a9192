// listen and accept, on a table that has been admitted.
// Stays: what may not change. A call writes some of the lent lists and only reads others (`.now` in its clauses): a struct of all five would ask to write every one.
#![tactic(auto)]

ghost use Rattle.std.specs.Prelude.{length};
ghost use Rattle.rules.specs.Outcome.{Call};
ghost use Rattle.storage.specs.Rows.{lent};
ghost use Rattle.table.specs.Admission.{Admitted};
ghost use Rattle.promise.specs.Answers.{told};
ghost use Rattle.promise.specs.Promise.{lists, Runs};

use promise::{Accepted, REGISTRY};
use storage::{Connection, Listener, Slot, State, handles, queues};
use words::{Errno, Handle};

#[tactic(auto, unfolding(storage::specs::Finding::live_in, storage::specs::Finding::open_in))]
pub fn listen_admitted(
    words: &mut [u64],
    bytes: &[u8],
    tokens: &[u32],
    wakes: &mut [u64],
    releases: &[u32],
    n: usize,
    c: usize,
    h: Handle,
    backlog: u32,
) -> Result<Accepted, Errno>
    requires { Admitted n c (lent words.old bytes.now tokens.now) (length wakes.old) (length releases.now) }
    ensures { Runs (Call.Listen h.0 backlog) n c (lent words.old bytes.now tokens.now) (lent words.new bytes.now tokens.now) (lists wakes.old releases.now) (lists wakes.new releases.now) (told result) }
{
    if !handles::is_live(words, n, h) {
        return Err(Errno::EBADF);
    }
    let i = handles::slot_of(h);
    let slot = storage::load(words, i);
    let backlog = u64::from(backlog);
    match slot.state {
        // no live socket is closed
        State::Closed => Err(Errno::DAMAGED),
        State::Unbound => Err(Errno::EDESTADDRREQ),
        State::Bound(name) => {
            let state = State::Listening(Listener {
                name,
                backlog,
                head: 0,
                pending: 0,
            });
            storage::store(words, i, Slot { state, ..slot });
            Ok(Accepted::new(0, 0))
        }
        State::Listening(listener) => {
            let state = State::Listening(Listener {
                backlog,
                ..listener
            });
            storage::store(words, i, Slot { state, ..slot });
            if listener.backlog < backlog {
                wakes[0] = REGISTRY;
                Ok(Accepted::new(0, 1))
            } else {
                Ok(Accepted::new(0, 0))
            }
        }
        State::Connected(_) => Err(Errno::EINVAL),
    }
}

#[tactic(auto, unfolding(storage::specs::Finding::live_in, storage::specs::Finding::open_in))]
pub fn accept_admitted(
    words: &mut [u64],
    bytes: &[u8],
    tokens: &[u32],
    wakes: &mut [u64],
    releases: &[u32],
    n: usize,
    c: usize,
    h: Handle,
) -> Result<Accepted, Errno>
    requires { Admitted n c (lent words.old bytes.now tokens.now) (length wakes.old) (length releases.now) }
    ensures { Runs (Call.Accept h.0) n c (lent words.old bytes.now tokens.now) (lent words.new bytes.now tokens.now) (lists wakes.old releases.now) (lists wakes.new releases.now) (told result) }
{
    if !handles::is_live(words, n, h) {
        return Err(Errno::EBADF);
    }
    let i = handles::slot_of(h);
    let slot = storage::load(words, i);
    let State::Listening(listener) = slot.state else {
        return Err(Errno::EINVAL);
    };
    if listener.pending == 0 {
        return Err(Errno::EAGAIN);
    }
    let server = queues::entry(words, n, i, listener.head);
    let j = handles::slot_of(server);
    let pending = storage::load(words, j);
    // an entry of a queue is of a connected socket
    let State::Connected(connection) = pending.state else {
        return Err(Errno::DAMAGED);
    };
    let state = State::Listening(Listener {
        head: ring::place(n, listener.head + 1),
        pending: listener.pending - 1,
        ..listener
    });
    storage::store(words, i, Slot { state, ..slot });
    let state = State::Connected(Connection {
        waits: 0,
        place: 0,
        ..connection
    });
    storage::store(words, j, Slot { state, ..pending });
    wakes[0] = REGISTRY;
    Ok(Accepted::new(server.0, 1))
}
