// shutdown, on a table that has been admitted.
// Stays: what may not change. A call writes some of the lent lists and only reads others (`.now` in its clauses): a struct of all five would ask to write every one.
#![tactic(auto)]

ghost use Rattle.std.specs.Prelude.{◌≡◌, true, ◌+◌, ◌*◌, ◌≤◌, ◌<◌, length};
ghost use Rattle.inbox.specs.Well.{AllFit};
ghost use Rattle.rules.specs.Outcome.{Call};
ghost use Rattle.rules.specs.Table.{slot_of};
ghost use Rattle.storage.specs.Layout.{part, tokens_base, HasSlot};
ghost use Rattle.storage.specs.Rows.{lent};
ghost use Rattle.storage.specs.Finding.{live_in};
ghost use Rattle.table.specs.Admission.{Admitted};
ghost use Rattle.promise.specs.Answers.{told};
ghost use Rattle.promise.specs.Promise.{lists, Runs};
ghost use Rattle.shutting.specs.Parts.{ended_with, Drops, Follows, Shuts};

use abi::ShutdownHow;
use inbox::{Discarded, Inbox};
use promise::Accepted;
use storage::{Connection, Slot, State, handles, inboxes};
use words::{Errno, Handle};

// Not inlined: what it keeps on the stack then does not lie above the check's.
#[inline(never)]
pub fn shutdown_admitted(
    words: &mut [u64],
    bytes: &[u8],
    tokens: &[u32],
    wakes: &mut [u64],
    releases: &mut [u32],
    n: usize,
    c: usize,
    h: Handle,
    how: i32,
) -> Result<Accepted, Errno>
    requires { Admitted n c (lent words.old bytes.now tokens.now) (length wakes.old) (length releases.old) }
    ensures { Runs (Call.Shutdown h.0 how) n c (lent words.old bytes.now tokens.now) (lent words.new bytes.now tokens.now) (lists wakes.old releases.old) (lists wakes.new releases.new) (told result) }
{
    if !handles::is_live(words, n, h) {
        return Err(Errno::EBADF);
    }
    let ends = Ends::from(ShutdownHow::try_from(how)?);
    shut(words, bytes, tokens, wakes, releases, n, c, h, ends)
}

// Which ends of a socket close.
#[derive(Clone, Copy)]
struct Ends {
    inbox: bool,
    outbox: bool,
}

impl From<ShutdownHow> for Ends {
    ghost use Rattle.std.specs.Prelude.{◌≡◌};
    ghost use Rattle.shutting.specs.Parts.{reads_of, writes_of};

    ghost from_gives = { λ how ends. ends ≡ record { inbox = reads_of how; outbox = writes_of how } };

    fn from(how: ShutdownHow) -> Ends {
        Ends {
            inbox: matches!(how, ShutdownHow::Read | ShutdownHow::Both),
            outbox: matches!(how, ShutdownHow::Write | ShutdownHow::Both),
        }
    }
}

impl Ends {
    // Which ends of its peer then close.
    fn of_peer(self) -> Ends
        ensures { result ≡ record { inbox = self.outbox; outbox = self.inbox } }
    {
        Ends {
            inbox: self.outbox,
            outbox: self.inbox,
        }
    }

    // The connection with these ends closed, and with this inbox.
    fn close(self, connection: Connection, inbox: Inbox) -> Connection
        ensures { result ≡ ended_with connection inbox self.inbox self.outbox }
    {
        Connection {
            inbox,
            inbox_closed: connection.inbox_closed || self.inbox,
            outbox_closed: connection.outbox_closed || self.outbox,
            ..connection
        }
    }
}

// shutdown from the state on.
#[tactic(auto, using(crate::proofs::Shutting::two_wakes))]
fn shut(
    words: &mut [u64],
    bytes: &[u8],
    tokens: &[u32],
    wakes: &mut [u64],
    releases: &mut [u32],
    n: usize,
    c: usize,
    h: Handle,
    ends: Ends,
) -> Result<Accepted, Errno>
    requires admitted { Admitted n c (lent words.old bytes.now tokens.now) (length wakes.old) (length releases.old) }
    requires live { live_in n words.old h.0 ≡ true }
    ensures { Shuts n c (lent words.old bytes.now tokens.now) (lent words.new bytes.now tokens.now) h.0 ends.inbox ends.outbox
        (lists wakes.old releases.old) (lists wakes.new releases.new) (told result) }
{
    let i = handles::slot_of(h);
    let slot = storage::load(words, i);
    let State::Connected(connection) = slot.state else {
        return Err(Errno::ENOTCONN);
    };
    let peer_open = handles::is_open(words, n, connection.peer);
    let left = drop_queued(tokens, c, i, connection.inbox, releases, ends.inbox);
    let state = State::Connected(ends.close(connection, left.inbox));
    storage::store(words, i, Slot { state, ..slot });
    wakes[0] = h.0;
    if !peer_open {
        return Ok(Accepted::releasing(1, left.released));
    }
    end_peer(words, connection.peer, ends);
    wakes[1] = connection.peer.0;
    Ok(Accepted::releasing(2, left.released))
}

// The open peer `p` closes the other end. No admitted table has one that is not connected.
fn end_peer(words: &mut [u64], p: Handle, ends: Ends)
    requires { HasSlot (slot_of p.0) words.old }
    ensures { Follows p.0 ends.inbox ends.outbox words.old words.new }
{
    let j = handles::slot_of(p);
    let slot = storage::load(words, j);
    let State::Connected(peer) = slot.state else {
        return;
    };
    let state = State::Connected(ends.of_peer().close(peer, peer.inbox));
    storage::store(words, j, Slot { state, ..slot });
}

// Stays: no plainer without `read`, since `Drops` speaks of both cases at once.
// "Read drops inbox bytes, releases its items"
#[tactic(auto, unfolding(crate::specs::Parts::left_of, crate::specs::Parts::dropped_of))]
fn drop_queued(
    tokens: &[u32],
    c: usize,
    i: usize,
    inbox: Inbox,
    releases: &mut [u32],
    read: bool,
) -> Discarded
    requires roomy { (256 * i + 256 ≤ length tokens.now) × (c ≤ 65536) × (256 ≤ length releases.old) }
    requires inbox_in { AllFit c inbox }
    ensures { Drops c (part (tokens_base i) 256 tokens.now) releases.old releases.new read inbox result }
{
    if !read {
        return Discarded { released: 0, inbox };
    }
    inboxes::discard(tokens, c, i, inbox, releases, 0)
}
