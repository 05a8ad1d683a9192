// The twelve calls, over kernel/unix_socket/src/lib.rs, and the making of a table. Each may be called
// with anything: what is lent is asked first, and then the call goes on in the crates below.
//
// Stays: what may not change. A call writes some of the lent lists and only reads others (`.now` in its clauses): a struct of all five would ask to write every one.
#![tactic(auto, using(crate::proofs::Entered::enters))]

ghost use Rattle.std.specs.Prelude.{◌≡◌, [], length};
ghost use Rattle.rules.specs.Outcome.{Call};
ghost use Rattle.storage.specs.Rows.{lent};
ghost use Rattle.table.specs.Making.{Makes};
ghost use Rattle.promise.specs.Answers.{told};
ghost use Rattle.promise.specs.Promise.{lists, Promise, PromiseFills};
ghost use Rattle.unix_socket.specs.Least.{least_of, least_told};

use promise::Accepted;
use storage::Sizes;
use words::{Errno, Handle};

// ── The table ──

// For C: 01's number, and the least sizes of what is lent where it is 0.
// Stays: the C interface, a struct by value: its number, and the rest 0 where that is not 0.
#[repr(C)]
#[derive(Clone, Copy, Default)]
pub struct Least {
    pub refusal: u32,
    pub words: u64,
    pub bytes: u64,
    pub tokens: u64,
    pub wakes: u64,
    pub releases: u64,
}

impl From<Result<Sizes, Errno>> for Least {
    ghost from_gives = { λ sizes least. least ≡ least_told sizes };

    fn from(sizes: Result<Sizes, Errno>) -> Least
        ensures { result ≡ least_told sizes }
    {
        match sizes {
            Ok(least) => Least {
                refusal: 0,
                words: least.words as u64,
                bytes: least.bytes as u64,
                tokens: least.tokens as u64,
                wakes: least.wakes as u64,
                releases: least.releases as u64,
            },
            Err(no) => Least {
                refusal: no.number(),
                ..Least::default()
            },
        }
    }
}

// The least sizes for `n` slots of capacity `c`.
#[tactic(auto, unfolding(crate::specs::Least::least_of), using(table::proofs::Facts::ranged))]
pub fn sizes(n: usize, c: usize) -> Result<Sizes, Errno>
    ensures { least_told result ≡ least_of n c }
{
    if !table::sizes::in_range(n, c) {
        return Err(Errno::EINVAL);
    }
    Ok(storage::least_sizes(n, c))
}

// A fresh table of `n` slots of capacity `c`, whatever stood in the storage.
pub fn make(
    words: &mut [u64],
    bytes: &[u8],
    tokens: &[u32],
    n: usize,
    c: usize,
) -> Result<(), Errno>
    ensures { Makes n c (lent words.old bytes.now tokens.now) (lent words.new bytes.now tokens.now) result }
{
    table::make::make(words, bytes, tokens, n, c)
}

// ── The calls ──

pub fn socket(
    words: &mut [u64],
    bytes: &[u8],
    tokens: &[u32],
    wakes: &[u64],
    releases: &[u32],
    n: usize,
    c: usize,
    domain: i32,
    ty: i32,
    protocol: i32,
) -> Result<Accepted, Errno>
    ensures { Promise (Call.Socket domain ty protocol) n c (lent words.old bytes.now tokens.now) (lent words.new bytes.now tokens.now) (lists wakes.now releases.now) (lists wakes.now releases.now) (told result) }
{
    table::admission(words, bytes, tokens, wakes, releases, n, c)?;
    opening::socket_admitted(
        words, bytes, tokens, wakes, releases, n, c, domain, ty, protocol,
    )
}

pub fn bind(
    words: &mut [u64],
    bytes: &mut [u8],
    tokens: &[u32],
    wakes: &[u64],
    releases: &[u32],
    n: usize,
    c: usize,
    h: Handle,
    name: &[u8],
) -> Result<Accepted, Errno>
    ensures { Promise (Call.Bind h.0 name.now) n c (lent words.old bytes.old tokens.now) (lent words.new bytes.new tokens.now) (lists wakes.now releases.now) (lists wakes.now releases.now) (told result) }
{
    table::admission(words, bytes, tokens, wakes, releases, n, c)?;
    opening::bind_admitted(words, bytes, tokens, wakes, releases, n, c, h, name)
}

pub fn listen(
    words: &mut [u64],
    bytes: &[u8],
    tokens: &[u32],
    wakes: &mut [u64],
    releases: &[u32],
    n: usize,
    c: usize,
    h: Handle,
    backlog: u32,
) -> Result<Accepted, Errno>
    ensures { Promise (Call.Listen h.0 backlog) n c (lent words.old bytes.now tokens.now) (lent words.new bytes.now tokens.now) (lists wakes.old releases.now) (lists wakes.new releases.now) (told result) }
{
    table::admission(words, bytes, tokens, wakes, releases, n, c)?;
    accepting::listen_admitted(words, bytes, tokens, wakes, releases, n, c, h, backlog)
}

pub fn accept(
    words: &mut [u64],
    bytes: &[u8],
    tokens: &[u32],
    wakes: &mut [u64],
    releases: &[u32],
    n: usize,
    c: usize,
    h: Handle,
) -> Result<Accepted, Errno>
    ensures { Promise (Call.Accept h.0) n c (lent words.old bytes.now tokens.now) (lent words.new bytes.now tokens.now) (lists wakes.old releases.now) (lists wakes.new releases.now) (told result) }
{
    table::admission(words, bytes, tokens, wakes, releases, n, c)?;
    accepting::accept_admitted(words, bytes, tokens, wakes, releases, n, c, h)
}

pub fn connect(
    words: &mut [u64],
    bytes: &[u8],
    tokens: &[u32],
    wakes: &mut [u64],
    releases: &[u32],
    n: usize,
    c: usize,
    h: Handle,
    name: &[u8],
) -> Result<Accepted, Errno>
    ensures { Promise (Call.Connect h.0 name.now) n c (lent words.old bytes.now tokens.now) (lent words.new bytes.now tokens.now) (lists wakes.old releases.now) (lists wakes.new releases.now) (told result) }
{
    table::admission(words, bytes, tokens, wakes, releases, n, c)?;
    pairing::connect_admitted(words, bytes, tokens, wakes, releases, n, c, h, name)
}

pub fn read(
    words: &mut [u64],
    bytes: &[u8],
    tokens: &[u32],
    wakes: &mut [u64],
    releases: &mut [u32],
    n: usize,
    c: usize,
    h: Handle,
    buf: &mut [u8],
) -> Result<Accepted, Errno>
    ensures promise { Promise (Call.Read h.0 (length buf.old)) n c (lent words.old bytes.now tokens.now) (lent words.new bytes.now tokens.now) (lists wakes.old releases.old) (lists wakes.new releases.new) (told result) }
    ensures promise_fills { PromiseFills (Call.Read h.0 (length buf.old)) n c (lent words.old bytes.now tokens.now) (lists wakes.old releases.old) buf.old buf.new [] [] }
{
    table::admission(words, bytes, tokens, wakes, releases, n, c)?;
    draining::read_admitted(words, bytes, tokens, wakes, releases, n, c, h, buf)
}

pub fn recvmsg(
    words: &mut [u64],
    bytes: &[u8],
    tokens: &[u32],
    wakes: &mut [u64],
    releases: &mut [u32],
    n: usize,
    c: usize,
    h: Handle,
    buf: &mut [u8],
    items: &mut [u32],
) -> Result<Accepted, Errno>
    ensures promise { Promise (Call.Recvmsg h.0 (length buf.old) (length items.old)) n c (lent words.old bytes.now tokens.now) (lent words.new bytes.now tokens.now) (lists wakes.old releases.old) (lists wakes.new releases.new) (told result) }
    ensures promise_fills { PromiseFills (Call.Recvmsg h.0 (length buf.old) (length items.old)) n c (lent words.old bytes.now tokens.now) (lists wakes.old releases.old) buf.old buf.new items.old items.new }
{
    table::admission(words, bytes, tokens, wakes, releases, n, c)?;
    draining::recvmsg_admitted(words, bytes, tokens, wakes, releases, n, c, h, buf, items)
}

pub fn write(
    words: &mut [u64],
    bytes: &mut [u8],
    tokens: &mut [u32],
    wakes: &mut [u64],
    releases: &[u32],
    n: usize,
    c: usize,
    h: Handle,
    buf: &[u8],
) -> Result<Accepted, Errno>
    ensures { Promise (Call.Write h.0 buf.now) n c (lent words.old bytes.old tokens.old) (lent words.new bytes.new tokens.new) (lists wakes.old releases.now) (lists wakes.new releases.now) (told result) }
{
    table::admission(words, bytes, tokens, wakes, releases, n, c)?;
    sending::write_admitted(words, bytes, tokens, wakes, releases, n, c, h, buf)
}

pub fn sendmsg(
    words: &mut [u64],
    bytes: &mut [u8],
    tokens: &mut [u32],
    wakes: &mut [u64],
    releases: &[u32],
    n: usize,
    c: usize,
    h: Handle,
    buf: &[u8],
    items: &[u32],
) -> Result<Accepted, Errno>
    ensures { Promise (Call.Sendmsg h.0 buf.now items.now) n c (lent words.old bytes.old tokens.old) (lent words.new bytes.new tokens.new) (lists wakes.old releases.now) (lists wakes.new releases.now) (told result) }
{
    table::admission(words, bytes, tokens, wakes, releases, n, c)?;
    sending::sendmsg_admitted(words, bytes, tokens, wakes, releases, n, c, h, buf, items)
}

pub fn shutdown(
    words: &mut [u64],
    bytes: &[u8],
    tokens: &[u32],
    wakes: &mut [u64],
    releases: &mut [u32],
    n: usize,
    c: usize,
    h: Handle,
    how: i32,
) -> Result<Accepted, Errno>
    ensures { Promise (Call.Shutdown h.0 how) n c (lent words.old bytes.now tokens.now) (lent words.new bytes.now tokens.now) (lists wakes.old releases.old) (lists wakes.new releases.new) (told result) }
{
    table::admission(words, bytes, tokens, wakes, releases, n, c)?;
    shutting::shutdown_admitted(words, bytes, tokens, wakes, releases, n, c, h, how)
}

pub fn close(
    words: &mut [u64],
    bytes: &[u8],
    tokens: &[u32],
    wakes: &mut [u64],
    releases: &mut [u32],
    n: usize,
    c: usize,
    h: Handle,
) -> Result<Accepted, Errno>
    ensures { Promise (Call.Close h.0) n c (lent words.old bytes.now tokens.now) (lent words.new bytes.now tokens.now) (lists wakes.old releases.old) (lists wakes.new releases.new) (told result) }
{
    table::admission(words, bytes, tokens, wakes, releases, n, c)?;
    ending::close_admitted(words, bytes, tokens, wakes, releases, n, c, h)
}

pub fn readiness(
    words: &[u64],
    bytes: &[u8],
    tokens: &[u32],
    wakes: &[u64],
    releases: &[u32],
    n: usize,
    c: usize,
    h: Handle,
) -> Result<Accepted, Errno>
    ensures { Promise (Call.Readiness h.0) n c (lent words.now bytes.now tokens.now) (lent words.now bytes.now tokens.now) (lists wakes.now releases.now) (lists wakes.now releases.now) (told result) }
{
    table::admission(words, bytes, tokens, wakes, releases, n, c)?;
    readying::readiness_admitted(words, bytes, tokens, wakes, releases, n, c, h)
}
