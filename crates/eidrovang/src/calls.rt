// The table calls. All state stands in the lent slices, which no call holds on to.
//
// Stays: what may not change. A call writes some of the lent lists and only reads others (`.now` in its clauses): a struct of all five would ask to write every one.
ghost use Rattle.std.specs.Prelude.{◌≡◌, [], length};
ghost use Rattle.rules.specs.Outcome.{Call};
ghost use Rattle.storage.specs.Rows.{lent};
ghost use Rattle.table.specs.Making.{Makes};
ghost use Rattle.promise.specs.Promise.{lists, Promise, PromiseFills};
ghost use Rattle.unix_socket.specs.Least.{least_of};
ghost use Rattle.eidrovang.specs.Numbers.{Told};

use promise::Answer;
use unix_socket::Least;
use words::Handle;

#[unsafe(no_mangle)]
pub extern "C" fn eid_sizes(n: usize, c: usize) -> Least
    ensures { result ≡ least_of n c }
{
    Least::from(unix_socket::sizes(n, c))
}

#[unsafe(no_mangle)]
pub extern "C" fn eid_make(
    words: &mut [u64],
    bytes: &[u8],
    tokens: &[u32],
    n: usize,
    c: usize,
) -> u32
    ensures { Told (Makes n c (lent words.old bytes.now tokens.now) (lent words.new bytes.now tokens.now)) result }
{
    words::refusal(unix_socket::make(words, bytes, tokens, n, c))
}

#[unsafe(no_mangle)]
pub extern "C" fn eid_socket(
    words: &mut [u64],
    bytes: &[u8],
    tokens: &[u32],
    wakes: &[u64],
    releases: &[u32],
    n: usize,
    c: usize,
    domain: i32,
    ty: i32,
    protocol: i32,
) -> Answer
    ensures { Promise (Call.Socket domain ty protocol) n c (lent words.old bytes.now tokens.now) (lent words.new bytes.now tokens.now) (lists wakes.now releases.now) (lists wakes.now releases.now) result }
{
    Answer::from(unix_socket::socket(
        words, bytes, tokens, wakes, releases, n, c, domain, ty, protocol,
    ))
}

#[unsafe(no_mangle)]
pub extern "C" fn eid_bind(
    words: &mut [u64],
    bytes: &mut [u8],
    tokens: &[u32],
    wakes: &[u64],
    releases: &[u32],
    n: usize,
    c: usize,
    handle: u64,
    name: &[u8],
) -> Answer
    ensures { Promise (Call.Bind handle name.now) n c (lent words.old bytes.old tokens.now) (lent words.new bytes.new tokens.now) (lists wakes.now releases.now) (lists wakes.now releases.now) result }
{
    Answer::from(unix_socket::bind(
        words,
        bytes,
        tokens,
        wakes,
        releases,
        n,
        c,
        Handle(handle),
        name,
    ))
}

#[unsafe(no_mangle)]
pub extern "C" fn eid_listen(
    words: &mut [u64],
    bytes: &[u8],
    tokens: &[u32],
    wakes: &mut [u64],
    releases: &[u32],
    n: usize,
    c: usize,
    handle: u64,
    backlog: u32,
) -> Answer
    ensures { Promise (Call.Listen handle backlog) n c (lent words.old bytes.now tokens.now) (lent words.new bytes.now tokens.now) (lists wakes.old releases.now) (lists wakes.new releases.now) result }
{
    Answer::from(unix_socket::listen(
        words,
        bytes,
        tokens,
        wakes,
        releases,
        n,
        c,
        Handle(handle),
        backlog,
    ))
}

#[unsafe(no_mangle)]
pub extern "C" fn eid_accept(
    words: &mut [u64],
    bytes: &[u8],
    tokens: &[u32],
    wakes: &mut [u64],
    releases: &[u32],
    n: usize,
    c: usize,
    handle: u64,
) -> Answer
    ensures { Promise (Call.Accept handle) n c (lent words.old bytes.now tokens.now) (lent words.new bytes.now tokens.now) (lists wakes.old releases.now) (lists wakes.new releases.now) result }
{
    Answer::from(unix_socket::accept(words, bytes, tokens, wakes, releases, n, c, Handle(handle)))
}

#[unsafe(no_mangle)]
pub extern "C" fn eid_connect(
    words: &mut [u64],
    bytes: &[u8],
    tokens: &[u32],
    wakes: &mut [u64],
    releases: &[u32],
    n: usize,
    c: usize,
    handle: u64,
    name: &[u8],
) -> Answer
    ensures { Promise (Call.Connect handle name.now) n c (lent words.old bytes.now tokens.now) (lent words.new bytes.now tokens.now) (lists wakes.old releases.now) (lists wakes.new releases.now) result }
{
    Answer::from(unix_socket::connect(
        words,
        bytes,
        tokens,
        wakes,
        releases,
        n,
        c,
        Handle(handle),
        name,
    ))
}

#[unsafe(no_mangle)]
pub extern "C" fn eid_read(
    words: &mut [u64],
    bytes: &[u8],
    tokens: &[u32],
    wakes: &mut [u64],
    releases: &mut [u32],
    n: usize,
    c: usize,
    handle: u64,
    buf: &mut [u8],
) -> Answer
    ensures promise { Promise (Call.Read handle (length buf.old)) n c (lent words.old bytes.now tokens.now) (lent words.new bytes.now tokens.now) (lists wakes.old releases.old) (lists wakes.new releases.new) result }
    ensures promise_fills { PromiseFills (Call.Read handle (length buf.old)) n c (lent words.old bytes.now tokens.now) (lists wakes.old releases.old) buf.old buf.new [] [] }
{
    Answer::from(unix_socket::read(
        words,
        bytes,
        tokens,
        wakes,
        releases,
        n,
        c,
        Handle(handle),
        buf,
    ))
}

#[unsafe(no_mangle)]
pub extern "C" fn eid_recvmsg(
    words: &mut [u64],
    bytes: &[u8],
    tokens: &[u32],
    wakes: &mut [u64],
    releases: &mut [u32],
    n: usize,
    c: usize,
    handle: u64,
    buf: &mut [u8],
    items: &mut [u32],
) -> Answer
    ensures promise { Promise (Call.Recvmsg handle (length buf.old) (length items.old)) n c (lent words.old bytes.now tokens.now) (lent words.new bytes.now tokens.now) (lists wakes.old releases.old) (lists wakes.new releases.new) result }
    ensures promise_fills { PromiseFills (Call.Recvmsg handle (length buf.old) (length items.old)) n c (lent words.old bytes.now tokens.now) (lists wakes.old releases.old) buf.old buf.new items.old items.new }
{
    Answer::from(unix_socket::recvmsg(
        words,
        bytes,
        tokens,
        wakes,
        releases,
        n,
        c,
        Handle(handle),
        buf,
        items,
    ))
}

#[unsafe(no_mangle)]
pub extern "C" fn eid_write(
    words: &mut [u64],
    bytes: &mut [u8],
    tokens: &mut [u32],
    wakes: &mut [u64],
    releases: &[u32],
    n: usize,
    c: usize,
    handle: u64,
    buf: &[u8],
) -> Answer
    ensures { Promise (Call.Write handle buf.now) n c (lent words.old bytes.old tokens.old) (lent words.new bytes.new tokens.new) (lists wakes.old releases.now) (lists wakes.new releases.now) result }
{
    Answer::from(unix_socket::write(
        words,
        bytes,
        tokens,
        wakes,
        releases,
        n,
        c,
        Handle(handle),
        buf,
    ))
}

#[unsafe(no_mangle)]
pub extern "C" fn eid_sendmsg(
    words: &mut [u64],
    bytes: &mut [u8],
    tokens: &mut [u32],
    wakes: &mut [u64],
    releases: &[u32],
    n: usize,
    c: usize,
    handle: u64,
    buf: &[u8],
    items: &[u32],
) -> Answer
    ensures { Promise (Call.Sendmsg handle buf.now items.now) n c (lent words.old bytes.old tokens.old) (lent words.new bytes.new tokens.new) (lists wakes.old releases.now) (lists wakes.new releases.now) result }
{
    Answer::from(unix_socket::sendmsg(
        words,
        bytes,
        tokens,
        wakes,
        releases,
        n,
        c,
        Handle(handle),
        buf,
        items,
    ))
}

#[unsafe(no_mangle)]
pub extern "C" fn eid_shutdown(
    words: &mut [u64],
    bytes: &[u8],
    tokens: &[u32],
    wakes: &mut [u64],
    releases: &mut [u32],
    n: usize,
    c: usize,
    handle: u64,
    how: i32,
) -> Answer
    ensures { Promise (Call.Shutdown handle how) n c (lent words.old bytes.now tokens.now) (lent words.new bytes.now tokens.now) (lists wakes.old releases.old) (lists wakes.new releases.new) result }
{
    Answer::from(unix_socket::shutdown(
        words,
        bytes,
        tokens,
        wakes,
        releases,
        n,
        c,
        Handle(handle),
        how,
    ))
}

#[unsafe(no_mangle)]
pub extern "C" fn eid_close(
    words: &mut [u64],
    bytes: &[u8],
    tokens: &[u32],
    wakes: &mut [u64],
    releases: &mut [u32],
    n: usize,
    c: usize,
    handle: u64,
) -> Answer
    ensures { Promise (Call.Close handle) n c (lent words.old bytes.now tokens.now) (lent words.new bytes.now tokens.now) (lists wakes.old releases.old) (lists wakes.new releases.new) result }
{
    Answer::from(unix_socket::close(words, bytes, tokens, wakes, releases, n, c, Handle(handle)))
}

#[unsafe(no_mangle)]
pub extern "C" fn eid_readiness(
    words: &[u64],
    bytes: &[u8],
    tokens: &[u32],
    wakes: &[u64],
    releases: &[u32],
    n: usize,
    c: usize,
    handle: u64,
) -> Answer
    ensures { Promise (Call.Readiness handle) n c (lent words.now bytes.now tokens.now) (lent words.now bytes.now tokens.now) (lists wakes.now releases.now) (lists wakes.now releases.now) result }
{
    Answer::from(unix_socket::readiness(
        words,
        bytes,
        tokens,
        wakes,
        releases,
        n,
        c,
        Handle(handle),
    ))
}
