// What `make bench` times by itself, in a form that needs nothing of its caller: an inbox's push and
// take, and the check of a table. The five numbers of an inbox stand in a lent list. Sizes that do not
// fit are refused with 18, an inbox that is not well with 19.
// Stays: the C interface, lists of their own, an inbox as numbers, and a flag for how it is taken from.
#![tactic(auto)]

ghost use Rattle.std.specs.Prelude.{◌≡◌, ◌≤◌, length, IfOk, OnOk};
ghost use Rattle.std.proofs.lemmas.List.Edits.{sets};
ghost use Rattle.words.specs.Numbers.{refusal_of};
ghost use Rattle.inbox.specs.Well.{Well};
ghost use Rattle.bench_exports.specs.Checking.{check_no};
ghost use Rattle.bench_exports.specs.Numbers.{numbers_in, listed};

use inbox::{AttachedItems, Inbox};
use words::Errno;

// Stays: the C interface, a struct by value: its number, and the rest 0 where that is not 0.
#[repr(C)]
#[derive(Clone, Copy, Default)]
pub struct BenchAnswer {
    pub refusal: u32,
    pub flags: u32,
    pub moved: u64,
    pub items: u64,
    pub released: u64,
}

impl From<Result<BenchAnswer, Errno>> for BenchAnswer {
    fn from(answer: Result<BenchAnswer, Errno>) -> BenchAnswer {
        match answer {
            Ok(answer) => answer,
            Err(no) => BenchAnswer {
                refusal: no.number(),
                ..BenchAnswer::default()
            },
        }
    }
}

#[unsafe(no_mangle)]
pub extern "C" fn bench_push(
    numbers: &mut [u64],
    ring: &mut [u8],
    places: &mut [u64],
    tokens: &mut [u32],
    buf: &[u8],
    items: &[u32],
) -> BenchAnswer {
    push(numbers, ring, places, tokens, buf, items).into()
}

fn push(
    numbers: &mut [u64],
    ring: &mut [u8],
    places: &mut [u64],
    tokens: &mut [u32],
    buf: &[u8],
    items: &[u32],
) -> Result<BenchAnswer, Errno> {
    let inbox = load(numbers, ring, places, tokens)?;
    inbox.push_refusal(ring.len(), buf.len(), items.len())?;
    let pushed = inbox.push(ring, places, tokens, buf, items);
    store(numbers, pushed.inbox);
    Ok(BenchAnswer {
        moved: pushed.moved as u64,
        ..BenchAnswer::default()
    })
}

#[unsafe(no_mangle)]
pub extern "C" fn bench_take(
    numbers: &mut [u64],
    ring: &[u8],
    places: &[u64],
    tokens: &[u32],
    buf: &mut [u8],
    hand_over: bool,
    items: &mut [u32],
    releases: &mut [u32],
) -> BenchAnswer {
    let policy = if hand_over {
        AttachedItems::Take
    } else {
        AttachedItems::Drop
    };
    take(numbers, ring, places, tokens, buf, policy, items, releases).into()
}

// Inlined, as in `Inbox::take`.
#[inline(always)]
fn take(
    numbers: &mut [u64],
    ring: &[u8],
    places: &[u64],
    tokens: &[u32],
    buf: &mut [u8],
    policy: AttachedItems,
    items: &mut [u32],
    releases: &mut [u32],
) -> Result<BenchAnswer, Errno> {
    if releases.len() < 256 {
        return Err(Errno::SHORT);
    }
    let inbox = load(numbers, ring, places, tokens)?;
    let taken = inbox.take(ring, places, tokens, buf, policy, items, releases);
    store(numbers, taken.inbox);
    Ok(BenchAnswer {
        refusal: 0,
        flags: taken.flags,
        moved: taken.moved as u64,
        items: taken.items as u64,
        released: taken.released as u64,
    })
}

// The check of a whole table that every call makes, by itself: 0, or the number that a call answers.
#[unsafe(no_mangle)]
pub extern "C" fn bench_check(words: &[u64], bytes: &[u8], n: usize, c: usize) -> u32
    ensures { result ≡ check_no n c words.now bytes.now }
{
    words::refusal(checked(words, bytes, n, c))
}

#[tactic(auto, unfolding(crate::specs::Checking::check_no, rules::specs::Run::admission, table::specs::OnePass::checks), using(table::proofs::Facts::ranged))]
fn checked(words: &[u64], bytes: &[u8], n: usize, c: usize) -> Result<(), Errno>
    ensures { refusal_of result ≡ check_no n c words.now bytes.now }
{
    if !table::sizes::in_range(n, c) {
        return Err(Errno::EINVAL);
    }
    let least = storage::least_sizes(n, c);
    if words.len() < least.words || bytes.len() < least.bytes {
        return Err(Errno::SHORT);
    }
    if !table::well_formed(words, bytes, n, c) {
        return Err(Errno::DAMAGED);
    }
    Ok(())
}

// The inbox of the five numbers, where it is well and all lists have their sizes.
#[tactic(auto, using(inbox::proofs::Kept::well))]
fn load(numbers: &[u64], ring: &[u8], places: &[u64], tokens: &[u32]) -> Result<Inbox, Errno>
    ensures inbox { IfOk result (λ inbox. inbox ≡ numbers_in numbers.now) }
    ensures well { IfOk result (Well (length ring.now) places.now) }
    ensures sizes { OnOk result ((5 ≤ length numbers.now) × (length ring.now ≤ 65536) × (length places.now ≡ 256) × (length tokens.now ≡ 256)) }
{
    if numbers.len() < 5 || 65536 < ring.len() || places.len() != 256 || tokens.len() != 256 {
        return Err(Errno::SHORT);
    }
    let inbox = Inbox {
        head: numbers[0] as usize,
        written_total: numbers[1],
        read_total: numbers[2],
        first: numbers[3] as usize,
        items: numbers[4] as usize,
    };
    if !inbox.is_well(places, ring.len()) {
        return Err(Errno::DAMAGED);
    }
    Ok(inbox)
}

fn store(numbers: &mut [u64], inbox: Inbox)
    requires { 5 ≤ length numbers.old }
    ensures { numbers.new ≡ sets numbers.old 0 (listed inbox) }
{
    numbers[0] = inbox.head as u64;
    numbers[1] = inbox.written_total;
    numbers[2] = inbox.read_total;
    numbers[3] = inbox.first as u64;
    numbers[4] = inbox.items as u64;
}
