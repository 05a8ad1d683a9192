// The table in the lent storage: is it well-formed, and may a call go on?
// Stays: `i < self.n` stands in each question about a slot. A type for the index is no plainer, since it would hold the same beside the table.
// Stays: what comes from outside the check (making, sizes, admission) has the lent lists as the calls have them, for the C interface.
#![tactic(auto)]

pub mod connected;
pub mod fields;
pub mod make;
pub mod pairs;
pub mod pending;
pub mod sizes;

ghost use Rattle.std.specs.Prelude.{◌≡◌, ◌≢◌, false, ◌&&◌, ◌+◌, ◌*◌, ◌≤◌, ◌<◌, length, get_or, eqb};
ghost use Rattle.words.specs.Numbers.{refusal_of};
ghost use Rattle.rules.specs.WellFormed.{every};
ghost use Rattle.storage.specs.Layout.{HasRows, HasNames};
ghost use Rattle.storage.specs.Cells.{cell_at};
ghost use Rattle.storage.specs.Rows.{lent};
ghost use Rattle.storage.specs.declared.State.TheVariants.{Listening};
ghost use Rattle.table.specs.Formed.{header_well};
ghost use Rattle.table.specs.OnePass.{name_checks, state_checks, slot_checks, ClosedRun};
ghost use Rattle.table.specs.Admission.{admits};

use storage::{CLOSED, CONNECTED, LAST_GENERATION, Listener, State};
use words::Errno;

// The words that are lent for a table of `n` slots of capacity `c`, long enough. The names lie in other
// bytes: what looks at names is lent these too.
#[derive(Clone, Copy)]
pub struct Table<'a> {
    pub words: &'a [u64],
    pub n: usize,
    pub c: usize,
    ghost roomy: { (n ≤ 1024) × HasRows n words.now },
}

// The six words after N and C.
#[tactic(auto, using(crate::proofs::Pass::six_zeros))]
fn zeros(words: &[u64]) -> bool
    requires { 8 ≤ length words.now }
    ensures { result ≡ every 6 (λ k. eqb (get_or words.now (2 + k) 0) 0) }
{
    (words[2] | words[3] | words[4] | words[5] | words[6] | words[7]) == 0
}

impl Table<'_> {
    // "storage numbers match N and C"
    #[tactic(auto, unfolding(crate::specs::Formed::header_well))]
    fn header_well(&self) -> bool
        ensures { result ≡ header_well self.now.n self.now.c self.now.words.now }
    {
        self.words[0] == self.n as u64 && self.words[1] == self.c as u64 && zeros(self.words)
    }

    // The name of slot `i`: 1 to 255 bytes, and no slot before it has the same.
    #[tactic(auto, unfolding(crate::specs::OnePass::name_checks))]
    fn name_checks(&self, bytes: &[u8], i: usize, m: usize) -> bool
        requires { (i < self.now.n) × HasNames self.now.n self.now.c bytes.now }
        ensures { result ≡ name_checks self.now.n self.now.c self.now.words.now bytes.now i m }
    {
        if !(1..=255).contains(&m) {
            return false;
        }
        let a = self.c * self.n + 255 * i;
        let name = &bytes[a..a + m];
        storage::names::find(self.words, bytes, self.n, self.c, i, name).is_none()
    }

    #[tactic(auto, unfolding(crate::specs::OnePass::state_checks, crate::specs::Formed::ranges_well))]
    fn listening_checks(&self, bytes: &[u8], i: usize, listener: Listener) -> bool
        requires { (i < self.now.n) × HasNames self.now.n self.now.c bytes.now }
        ensures { result ≡ state_checks self.now.n self.now.c self.now.words.now bytes.now i (Listening listener) }
    {
        self.name_checks(bytes, i, listener.name)
            && fields::listener_ranges(self.n, listener)
            && self.servers_well(i, listener)
    }

    // A slot that is not connected.
    #[tactic(auto, unfolding(crate::specs::OnePass::slot_checks, crate::specs::OnePass::state_checks, storage::specs::Cells::state_of))]
    fn other_checks(&self, bytes: &[u8], i: usize) -> bool
        requires in_table { (i < self.now.n) × HasNames self.now.n self.now.c bytes.now }
        requires not_connected { (cell_at self.now.words.now i).tag ≢ 4 }
        ensures { result ≡ slot_checks self.now.n self.now.c self.now.words.now bytes.now i }
    {
        let cell = storage::load_cell(self.words, i);
        if !fields::generation_well(cell) || !fields::fields_well(cell) {
            return false;
        }
        match State::from(cell) {
            State::Bound(name) => self.name_checks(bytes, i, name),
            State::Listening(listener) => self.listening_checks(bytes, i, listener),
            _ => true,
        }
    }

    // A slot that was not skipped: a connected one is not well. Of a closed slot no more than two
    // words are read.
    #[tactic(auto, using(crate::proofs::Pass::slot_closed), unfolding(storage::specs::Cells::cell_at))]
    fn slot_checks(&self, bytes: &[u8], i: usize) -> bool
        requires in_table { (i < self.now.n) × HasNames self.now.n self.now.c bytes.now }
        requires bad_if_connected { (cell_at self.now.words.now i).tag ≡ 4 → slot_checks self.now.n self.now.c self.now.words.now bytes.now i ≡ false }
        ensures { result ≡ slot_checks self.now.n self.now.c self.now.words.now bytes.now i }
    {
        let b = 8 + 16 * i;
        match self.words[b + 1] {
            CONNECTED => false,
            CLOSED => self.words[b + 0] <= LAST_GENERATION,
            _ => self.other_checks(bytes, i),
        }
    }

    // Past closed slots, two at a time.
    // Stays: a `step_by(2)` is no plainer, since what follows needs the slot where it stopped.
    fn skip_pairs(&self, from: usize) -> usize
        requires { from ≤ self.now.n }
        ensures { ClosedRun self.now.words.now self.now.n from result }
    {
        let mut i = from;
        while i + 1 < self.n {
            let b = 8 + 16 * i;
            if (self.words[b + 1] | self.words[b + 17]) != CLOSED
                || LAST_GENERATION < (self.words[b + 0] | self.words[b + 16])
            {
                return i;
            }
            i += 2;
        }
        i
    }

    // The first slot from `from` on that is not closed, or whose generation is too large; or `n`.
    // Stays: an Option is no plainer, since `n` is where the pass ends.
    fn skip_closed(&self, from: usize) -> usize
        requires { from ≤ self.now.n }
        ensures { ClosedRun self.now.words.now self.now.n from result }
    {
        for i in self.skip_pairs(from)..self.n {
            let b = 8 + 16 * i;
            if self.words[b + 1] != CLOSED || LAST_GENERATION < self.words[b + 0] {
                return i;
            }
        }
        self.n
    }

    // The whole check, one pass over the slots.
    // Stays: a `for` is no plainer, since each turn passes a run of slots.
    fn is_well_formed(&self, bytes: &[u8]) -> bool
        requires { HasNames self.now.n self.now.c bytes.now }
        ensures { result ≡ header_well self.now.n self.now.c self.now.words.now && every self.now.n (slot_checks self.now.n self.now.c self.now.words.now bytes.now) }
    {
        if !self.header_well() {
            return false;
        }
        let mut i = self.skip_closed(0);
        while i < self.n {
            i = self.skip_well(i);
            if i < self.n {
                if !self.slot_checks(bytes, i) {
                    return false;
                }
                i = self.skip_closed(i + 1);
            }
        }
        true
    }
}

// The whole check, one pass over the slots: `checks` of specs/OnePass, which does not look at the
// items.
pub fn well_formed(words: &[u64], bytes: &[u8], n: usize, c: usize) -> bool
    requires { (n ≤ 1024) × HasRows n words.now × HasNames n c bytes.now }
    ensures { result ≡ header_well n c words.now && every n (slot_checks n c words.now bytes.now) }
{
    Table { words, n, c }.is_well_formed(bytes)
}

// What every call asks first: "N or C out of range 2; 18; 19".
pub fn admission(
    words: &[u64],
    bytes: &[u8],
    tokens: &[u32],
    wakes: &[u64],
    releases: &[u32],
    n: usize,
    c: usize,
) -> Result<(), Errno>
    ensures { refusal_of result ≡ admits n c (lent words.now bytes.now tokens.now) (length wakes.now) (length releases.now) }
{
    if !sizes::in_range(n, c) {
        return Err(Errno::EINVAL);
    }
    if !sizes::storage_fits(words, bytes, tokens, n, c) {
        return Err(Errno::SHORT);
    }
    if !sizes::lists_fit(wakes, releases, n, c) {
        return Err(Errno::SHORT);
    }
    if !well_formed(words, bytes, n, c) {
        return Err(Errno::DAMAGED);
    }
    Ok(())
}
