// socket and bind, on a table that has been admitted.
// Stays: what may not change. A call writes some of the lent lists and only reads others (`.now` in its clauses): a struct of all five would ask to write every one.
#![tactic(auto)]

ghost use Rattle.std.specs.Prelude.{length};
ghost use Rattle.rules.specs.Outcome.{Call};
ghost use Rattle.storage.specs.Rows.{lent};
ghost use Rattle.table.specs.Admission.{Admitted};
ghost use Rattle.promise.specs.Answers.{told};
ghost use Rattle.promise.specs.Promise.{lists, Runs};

use promise::Accepted;
use storage::{Slot, State, handles, names};
use words::{Errno, Handle};

#[tactic(auto, unfolding(storage::specs::Finding::lowest))]
pub fn socket_admitted(
    words: &mut [u64],
    bytes: &[u8],
    tokens: &[u32],
    wakes: &[u64],
    releases: &[u32],
    n: usize,
    c: usize,
    domain: i32,
    ty: i32,
    protocol: i32,
) -> Result<Accepted, Errno>
    requires { Admitted n c (lent words.old bytes.now tokens.now) (length wakes.now) (length releases.now) }
    ensures { Runs (Call.Socket domain ty protocol) n c (lent words.old bytes.now tokens.now) (lent words.new bytes.now tokens.now) (lists wakes.now releases.now) (lists wakes.now releases.now) (told result) }
{
    syscall::socket_refusal(domain, ty, protocol)?;
    let Some(i) = handles::lowest_free(words, n) else {
        return Err(Errno::ENFILE);
    };
    let generation = storage::load(words, i).generation + 1;
    let state = State::Unbound;
    storage::store(words, i, Slot { generation, state });
    Ok(Accepted::new(handles::handle(generation, i).0, 0))
}

#[tactic(auto, unfolding(storage::specs::Finding::live_in, storage::specs::Finding::open_in, storage::specs::Naming::name_refusal))]
pub fn bind_admitted(
    words: &mut [u64],
    bytes: &mut [u8],
    tokens: &[u32],
    wakes: &[u64],
    releases: &[u32],
    n: usize,
    c: usize,
    h: Handle,
    name: &[u8],
) -> Result<Accepted, Errno>
    requires { Admitted n c (lent words.old bytes.old tokens.now) (length wakes.now) (length releases.now) }
    ensures { Runs (Call.Bind h.0 name.now) n c (lent words.old bytes.old tokens.now) (lent words.new bytes.new tokens.now) (lists wakes.now releases.now) (lists wakes.now releases.now) (told result) }
{
    if !handles::is_live(words, n, h) {
        return Err(Errno::EBADF);
    }
    names::refusal(name)?;
    let i = handles::slot_of(h);
    let slot = storage::load(words, i);
    let State::Unbound = slot.state else {
        return Err(Errno::EINVAL);
    };
    if names::find(words, bytes, n, c, n, name).is_some() {
        return Err(Errno::EADDRINUSE);
    }
    names::put_name(bytes, n, c, i, name);
    let state = State::Bound(name.len());
    storage::store(words, i, Slot { state, ..slot });
    Ok(Accepted::new(0, 0))
}
