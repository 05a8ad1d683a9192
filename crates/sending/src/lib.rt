// write and sendmsg, on a table that has been admitted.
// Stays: what may not change. A call writes some of the lent lists and only reads others (`.now` in its clauses): a struct of all five would ask to write every one.
#![tactic(auto)]

ghost use Rattle.std.specs.Prelude.{◌≡◌, true, length};
ghost use Rattle.rules.specs.Outcome.{Call};
ghost use Rattle.storage.specs.Rows.{lent};
ghost use Rattle.storage.specs.Finding.{open_in};
ghost use Rattle.table.specs.Admission.{Admitted};
ghost use Rattle.promise.specs.Answers.{told};
ghost use Rattle.promise.specs.Promise.{lists, Runs};
ghost use Rattle.sending.specs.Parts.{Sends};

use promise::Accepted;
use storage::{State, handles, inboxes};
use words::{Errno, Handle};

pub fn write_admitted(
    words: &mut [u64],
    bytes: &mut [u8],
    tokens: &mut [u32],
    wakes: &mut [u64],
    releases: &[u32],
    n: usize,
    c: usize,
    h: Handle,
    buf: &[u8],
) -> Result<Accepted, Errno>
    requires { Admitted n c (lent words.old bytes.old tokens.old) (length wakes.old) (length releases.now) }
    ensures { Runs (Call.Write h.0 buf.now) n c (lent words.old bytes.old tokens.old) (lent words.new bytes.new tokens.new) (lists wakes.old releases.now) (lists wakes.new releases.now) (told result) }
{
    sendmsg_admitted(words, bytes, tokens, wakes, releases, n, c, h, buf, &[])
}

#[tactic(auto, unfolding(storage::specs::Finding::live_in, storage::specs::Finding::open_in))]
pub fn sendmsg_admitted(
    words: &mut [u64],
    bytes: &mut [u8],
    tokens: &mut [u32],
    wakes: &mut [u64],
    releases: &[u32],
    n: usize,
    c: usize,
    h: Handle,
    buf: &[u8],
    items: &[u32],
) -> Result<Accepted, Errno>
    requires { Admitted n c (lent words.old bytes.old tokens.old) (length wakes.old) (length releases.now) }
    ensures { Runs (Call.Sendmsg h.0 buf.now items.now) n c (lent words.old bytes.old tokens.old) (lent words.new bytes.new tokens.new) (lists wakes.old releases.now) (lists wakes.new releases.now) (told result) }
{
    if !handles::is_live(words, n, h) {
        return Err(Errno::EBADF);
    }
    let slot = storage::load(words, handles::slot_of(h));
    let State::Connected(connection) = slot.state else {
        return Err(Errno::ENOTCONN);
    };
    if connection.outbox_closed || !handles::is_open(words, n, connection.peer) {
        return Err(Errno::EPIPE);
    }
    send(
        words,
        bytes,
        tokens,
        wakes,
        releases,
        n,
        c,
        connection.peer,
        buf,
        items,
    )
}

// write and sendmsg from the open peer on. No admitted table has one that is not connected.
#[tactic(auto, unfolding(storage::specs::Finding::open_in))]
fn send(
    words: &mut [u64],
    bytes: &mut [u8],
    tokens: &mut [u32],
    wakes: &mut [u64],
    releases: &[u32],
    n: usize,
    c: usize,
    p: Handle,
    buf: &[u8],
    items: &[u32],
) -> Result<Accepted, Errno>
    requires admitted { Admitted n c (lent words.old bytes.old tokens.old) (length wakes.old) (length releases.now) }
    requires peer_open { open_in n words.old p.0 ≡ true }
    ensures { Sends n c (lent words.old bytes.old tokens.old) (lent words.new bytes.new tokens.new) p.0 buf.now items.now (lists wakes.old releases.now) (lists wakes.new releases.now) (told result) }
{
    let j = handles::slot_of(p);
    let slot = storage::load(words, j);
    let State::Connected(peer) = slot.state else {
        return Err(Errno::DAMAGED);
    };
    peer.inbox.push_refusal(c, buf.len(), items.len())?;
    let pushed = inboxes::push(words, bytes, tokens, n, c, j, peer.inbox, buf, items);
    storage::store_inbox(words, j, slot.generation, peer, pushed.inbox);
    wakes[0] = p.0;
    Ok(Accepted::new(pushed.moved as u64, 1))
}
