// read and recvmsg, on a table that has been admitted.
// Stays: what may not change. A call writes some of the lent lists and only reads others (`.now` in its clauses): a struct of all five would ask to write every one.
#![tactic(auto)]

ghost use Rattle.std.specs.Prelude.{◌≡◌, true, [], ◌<◌, length};
ghost use Rattle.inbox.specs.Promise.{policy_of};
ghost use Rattle.rules.specs.Outcome.{Call};
ghost use Rattle.storage.specs.Rows.{lent};
ghost use Rattle.storage.specs.Finding.{live_in};
ghost use Rattle.table.specs.Admission.{Admitted};
ghost use Rattle.promise.specs.Answers.{told};
ghost use Rattle.promise.specs.Promise.{lists, Runs, Fills};
ghost use Rattle.draining.specs.Parts.{Drains, nothing_queued, Wakes};

use inbox::AttachedItems;
use promise::Accepted;
use storage::{Connection, State, handles, inboxes};
use words::{Errno, Handle};

pub fn read_admitted(
    words: &mut [u64],
    bytes: &[u8],
    tokens: &[u32],
    wakes: &mut [u64],
    releases: &mut [u32],
    n: usize,
    c: usize,
    h: Handle,
    buf: &mut [u8],
) -> Result<Accepted, Errno>
    requires { Admitted n c (lent words.old bytes.now tokens.now) (length wakes.old) (length releases.old) }
    ensures runs { Runs (Call.Read h.0 (length buf.old)) n c (lent words.old bytes.now tokens.now) (lent words.new bytes.now tokens.now) (lists wakes.old releases.old) (lists wakes.new releases.new) (told result) }
    ensures fills { Fills (Call.Read h.0 (length buf.old)) n c (lent words.old bytes.now tokens.now) buf.old buf.new [] [] }
{
    if !handles::is_live(words, n, h) {
        return Err(Errno::EBADF);
    }
    drain(
        words,
        bytes,
        tokens,
        wakes,
        releases,
        n,
        c,
        h,
        buf,
        AttachedItems::Drop,
        &mut [],
    )
}

pub fn recvmsg_admitted(
    words: &mut [u64],
    bytes: &[u8],
    tokens: &[u32],
    wakes: &mut [u64],
    releases: &mut [u32],
    n: usize,
    c: usize,
    h: Handle,
    buf: &mut [u8],
    items: &mut [u32],
) -> Result<Accepted, Errno>
    requires { Admitted n c (lent words.old bytes.now tokens.now) (length wakes.old) (length releases.old) }
    ensures runs { Runs (Call.Recvmsg h.0 (length buf.old) (length items.old)) n c (lent words.old bytes.now tokens.now) (lent words.new bytes.now tokens.now) (lists wakes.old releases.old) (lists wakes.new releases.new) (told result) }
    ensures fills { Fills (Call.Recvmsg h.0 (length buf.old) (length items.old)) n c (lent words.old bytes.now tokens.now) buf.old buf.new items.old items.new }
{
    if !handles::is_live(words, n, h) {
        return Err(Errno::EBADF);
    }
    if buf.is_empty() {
        return Err(Errno::EINVAL);
    }
    drain(
        words,
        bytes,
        tokens,
        wakes,
        releases,
        n,
        c,
        h,
        buf,
        AttachedItems::Take,
        items,
    )
}

// read and recvmsg from the state on: the policy says what becomes of the group at the first queued
// byte.
#[tactic(auto, using(promise::proofs::Asked::some_wake))]
fn drain(
    words: &mut [u64],
    bytes: &[u8],
    tokens: &[u32],
    wakes: &mut [u64],
    releases: &mut [u32],
    n: usize,
    c: usize,
    h: Handle,
    buf: &mut [u8],
    policy: AttachedItems,
    items: &mut [u32],
) -> Result<Accepted, Errno>
    requires admitted { Admitted n c (lent words.old bytes.now tokens.now) (length wakes.old) (length releases.old) }
    requires live { live_in n words.old h.0 ≡ true }
    ensures { Drains n c (lent words.old bytes.now tokens.now) (lent words.new bytes.now tokens.now) h.0 (policy_of policy (length items.old)) buf.old buf.new items.old items.new (lists wakes.old releases.old) (lists wakes.new releases.new) (told result) }
{
    let i = handles::slot_of(h);
    let slot = storage::load(words, i);
    let State::Connected(connection) = slot.state else {
        return Err(Errno::ENOTCONN);
    };
    let Connection { peer, inbox, .. } = connection;
    let peer_open = handles::is_open(words, n, peer);
    if inbox.queued() == 0 {
        return nothing_queued(connection.inbox_closed, peer_open);
    }
    let taken = inboxes::take(
        words, bytes, tokens, n, c, i, inbox, buf, policy, items, releases,
    );
    storage::store_inbox(words, i, slot.generation, connection, taken.inbox);
    let woken = wake(wakes, peer, peer_open);
    Ok(Accepted {
        flags: taken.flags,
        value: taken.moved as u64,
        items: taken.items as u64,
        wakes: woken,
        releases: taken.released as u64,
    })
}

// "0 bytes if the inbox is closed or the peer gone, else 8; no wake"
fn nothing_queued(inbox_closed: bool, peer_open: bool) -> Result<Accepted, Errno>
    ensures { told result ≡ nothing_queued inbox_closed peer_open }
{
    if peer_open && !inbox_closed {
        return Err(Errno::EAGAIN);
    }
    Ok(Accepted::new(0, 0))
}

// Stays: no plainer without `on`, since `Wakes` speaks of both cases at once.
// Puts `h` into the wake list where it is to be woken; how many that makes.
fn wake(wakes: &mut [u64], h: Handle, on: bool) -> u64
    requires { 0 < length wakes.old }
    ensures { Wakes wakes.old wakes.new h.0 on result }
{
    if !on {
        return 0;
    }
    wakes[0] = h.0;
    1
}
