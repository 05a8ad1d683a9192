// The check of a connected slot, the most common one: each word is read where it is used.
ghost use Rattle.std.specs.Prelude.{◌≡◌, ◌&&◌, [], ◌≤◌, ◌<◌, eqb};
ghost use Rattle.rules.specs.Table.{handle};
ghost use Rattle.storage.specs.Cells.{cell_at, connection_of};
ghost use Rattle.storage.specs.declared.State.TheVariants.{Connected};
ghost use Rattle.table.specs.Formed.{no_name, no_queue, tied_state};
ghost use Rattle.table.specs.OnePass.{flags_well, place_well, state_checks, slot_checks, Skips};

use crate::{Table, pairs};
use inbox::Inbox;
use storage::{CONNECTED, LAST_GENERATION, inboxes};
use words::Handle;

impl Table<'_> {
    // No name, no queue.
    #[tactic(auto, using(crate::proofs::WordByWord::four_none), unfolding(storage::specs::Cells::cell_at, crate::specs::Formed::no_name, crate::specs::Formed::no_queue))]
    fn unnamed(&self, i: usize) -> bool
        requires { i < self.now.n }
        ensures { result ≡ no_name (cell_at self.now.words.now i) && no_queue (cell_at self.now.words.now i) }
    {
        let b = 8 + 16 * i;
        (self.words[b + 2] | self.words[b + 3] | self.words[b + 4] | self.words[b + 5]) == 0
    }

    // "each flag 0 or 1"
    #[tactic(auto, using(crate::proofs::WordByWord::both_low), unfolding(storage::specs::Cells::cell_at))]
    fn flags_well(&self, i: usize) -> bool
        requires { i < self.now.n }
        ensures { result ≡ flags_well (cell_at self.now.words.now i) }
    {
        let b = 8 + 16 * i;
        (self.words[b + 7] | self.words[b + 8]) <= 1
    }

    #[tactic(auto, unfolding(storage::specs::Cells::cell_at))]
    fn inbox_at(&self, i: usize) -> Inbox
        requires { i < self.now.n }
        ensures { result ≡ (connection_of (cell_at self.now.words.now i)).inbox }
    {
        let b = 8 + 16 * i;
        Inbox {
            head: self.words[b + 9] as usize,
            written_total: self.words[b + 10],
            read_total: self.words[b + 11],
            first: self.words[b + 12] as usize,
            items: self.words[b + 13] as usize,
        }
    }

    // The place in a queue, which a socket that does not wait does not have.
    #[tactic(auto, using(crate::proofs::WordByWord::no_place), unfolding(storage::specs::Cells::cell_at, crate::specs::Formed::tied_state))]
    fn place_checks(&self, i: usize, me: Handle) -> bool
        requires { (i < self.now.n) × (me.0 ≡ handle (cell_at self.now.words.now i).generation i) }
        ensures { result ≡ place_well (cell_at self.now.words.now i) && tied_state self.now.n self.now.words.now i (Connected (connection_of (cell_at self.now.words.now i))) }
    {
        let b = 8 + 16 * i;
        if (self.words[b + 14] | self.words[b + 15]) == 0 {
            return true;
        }
        self.words[b + 14] != 0
            && self.server_stands(i, me, storage::load_cell(self.words, i).into())
    }

    // The peer, the inbox, and the place in a queue.
    #[tactic(auto, unfolding(storage::specs::Cells::cell_at, crate::specs::OnePass::state_checks))]
    fn state_checks(&self, i: usize, generation: u64) -> bool
        requires { (i < self.now.n) × (generation ≤ 4294967295) × (generation ≡ (cell_at self.now.words.now i).generation) }
        ensures { result ≡ place_well (cell_at self.now.words.now i) && state_checks self.now.n self.now.c self.now.words.now [] i (Connected (connection_of (cell_at self.now.words.now i))) }
    {
        let b = 8 + 16 * i;
        let me = storage::handles::handle(generation, i);
        pairs::peer_checks(
            self.words,
            self.n,
            me,
            Handle(self.words[b + 6]),
            self.words[b + 8] != 0,
        ) && inboxes::is_well(self.words, self.n, self.c, i, self.inbox_at(i))
            && self.place_checks(i, me)
    }

    // A connected socket that is well.
    #[tactic(auto, unfolding(storage::specs::Cells::cell_at))]
    fn connected_checks(&self, i: usize) -> bool
        requires { i < self.now.n }
        ensures { result ≡ eqb (cell_at self.now.words.now i).tag 4 && slot_checks self.now.n self.now.c self.now.words.now [] i }
    {
        let b = 8 + 16 * i;
        if self.words[b + 1] != CONNECTED {
            return false;
        }
        let generation = self.words[b + 0];
        (1..=LAST_GENERATION).contains(&generation)
            && self.unnamed(i)
            && self.flags_well(i)
            && self.state_checks(i, generation)
    }

    // The first slot from `from` on that is not connected, or is not well; or `n`. A loop of its
    // own: most open slots are connected.
    // Stays: an Option is no plainer, since `n` is where the pass ends.
    pub fn skip_well(&self, from: usize) -> usize
        requires { from ≤ self.now.n }
        ensures { Skips self.now.n self.now.c self.now.words.now from result }
    {
        for i in from..self.n {
            if !self.connected_checks(i) {
                return i;
            }
        }
        self.n
    }
}
