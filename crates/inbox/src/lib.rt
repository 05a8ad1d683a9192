// One socket's bytes and attached items: the Rust's `Inbox`, over rings that are lent to it. The
// bytes lie in a ring of their own, whose length is the capacity; each item has an entry in two
// rings of 256: its token, and the stream offset of the byte that carries it.
// Stays: what may not change. A ring is a slice, and the length that it must have a clause: `&[u64; 256]` would ask more of callers.
#![tactic(auto)]

ghost use Rattle.std.specs.Prelude.{◌≡◌, ◌+◌, ◌-◌, ◌<◌, ◌≤◌, length, drop, slice_index};
ghost use Rattle.ring.specs.Ring.{place_of, queued};
ghost use Rattle.words.specs.Numbers.{refusal_of};
ghost use Rattle.inbox.specs.View.{dist, count, distances, front, nearest};
ghost use Rattle.inbox.specs.Well.{rises, is_well, Well, ItemsFit, AllFit};
ghost use Rattle.inbox.specs.Promise.{none, push_no, MayPush, Pushes, policy_of, handed_of, flags_for, Hands, move_on, Takes, Discards};

use words::Errno;

// A sender gets ENOBUFS above the limit.
pub const MAX_PENDING_ATTACHED: usize = 256;

// What a take does with the items attached to its first byte.
// Stays: a closure is no plainer: `policy_of` tells the two ways apart in two places.
#[derive(Clone, Copy)]
pub enum AttachedItems {
    Take,
    Drop,
}

impl AttachedItems {
    // How many of a group of `g` go to a list of `n`.
    fn handed(self, g: usize, n: usize) -> usize
        ensures { result ≡ handed_of self g n }
    {
        match self {
            AttachedItems::Take => g.min(n),
            AttachedItems::Drop => 0,
        }
    }

    // Where there were more than the `m` that were handed over, a recvmsg is told so.
    fn flags(self, g: usize, m: usize) -> u32
        ensures { result ≡ flags_for self g m }
    {
        match self {
            AttachedItems::Take if m < g => abi::MSG_CTRUNC as u32,
            _ => 0,
        }
    }
}

// Where an inbox stands in its rings: the first queued byte, the bytes ever written and ever read
// (both go round at 2^64), the first queued item, and how many items there are.
#[derive(Clone, Copy, Default)]
pub struct Inbox {
    pub head: usize,
    pub written_total: u64,
    pub read_total: u64,
    pub first: usize,
    pub items: usize,
}

#[derive(Clone, Copy)]
pub struct Pushed {
    pub moved: usize,
    pub inbox: Inbox,
}

#[derive(Clone, Copy)]
pub struct Taken {
    pub moved: usize,
    pub items: usize,
    pub released: usize,
    // Stays: what may not change. C's flags of a recvmsg, which `Takes` gives as a number.
    pub flags: u32,
    pub inbox: Inbox,
}

#[derive(Clone, Copy)]
pub struct Discarded {
    pub released: usize,
    pub inbox: Inbox,
}

impl Inbox {
    pub fn new() -> Self
        ensures { result ≡ none }
    {
        Self::default()
    }

    // How many bytes are queued.
    pub fn queued(self) -> usize
        ensures { result ≡ count self }
    {
        distance(self.written_total, self.read_total)
    }

    // How many bytes an inbox of `c` still takes.
    pub fn room(self, c: usize) -> usize
        requires { count self ≤ c }
        ensures { result ≡ c - count self }
    {
        c - self.queued()
    }

    // ── push ──

    // What a push into an inbox of `c` is refused with.
    pub fn push_refusal(self, c: usize, bytes: usize, items: usize) -> Result<(), Errno>
        requires { (count self ≤ c) × (self.items ≤ 256) }
        ensures { refusal_of result ≡ push_no c (count self) bytes self.items items }
    {
        if self.room(c) == 0 {
            return Err(Errno::EAGAIN);
        }
        if items == 0 {
            return Ok(());
        }
        if bytes == 0 {
            return Err(Errno::EINVAL);
        }
        if MAX_PENDING_ATTACHED - self.items < items {
            return Err(Errno::ENOBUFS);
        }
        Ok(())
    }

    // Appends what fits of `buf`, and attaches the items to its first byte.
    #[tactic(auto, using(crate::proofs::Parts::may_fit))]
    pub fn push(
        self,
        ring: &mut [u8],
        places: &mut [u64],
        tokens: &mut [u32],
        buf: &[u8],
        items: &[u32],
    ) -> Pushed
        requires well { Well (length ring.old) places.old self }
        requires rings { (length ring.old ≤ 65536) × (length places.old ≡ 256) × (length tokens.old ≡ 256) }
        requires may_push { MayPush (length ring.old) self buf.now items.now }
        ensures { Pushes ring.old ring.new places.old places.new tokens.old tokens.new buf.now items.now self result }
    {
        let k = self.room(ring.len()).min(buf.len());
        let m = items.len();
        ring::write(ring, self.head, self.queued(), &buf[..k]);
        ring::fill(places, self.first, self.items, self.written_total, m);
        ring::write(tokens, self.first, self.items, items);
        Pushed {
            moved: k,
            inbox: Inbox {
                written_total: self.written_total.wrapping_add(k as u64),
                items: self.items + m,
                ..self
            },
        }
    }

    // ── take ──

    // Removes the group at the first queued byte, and moves bytes up to the next group. `policy`
    // says where the group goes: to `items` as far as that has room, the rest to `releases`; or all
    // of it to `releases`. Inlined, since all that it is lent would be laid on the stack for a call.
    #[tactic(auto, using(crate::proofs::Shows::reach_le, crate::proofs::Parts::handed_few))]
    #[inline(always)]
    pub fn take(
        self,
        ring: &[u8],
        places: &[u64],
        tokens: &[u32],
        buf: &mut [u8],
        policy: AttachedItems,
        items: &mut [u32],
        releases: &mut [u32],
    ) -> Taken
        requires well { Well (length ring.now) places.now self }
        requires rings { (length ring.now ≤ 65536) × (length places.now ≡ 256) × (length tokens.now ≡ 256) × (256 ≤ length releases.old) }
        ensures { Takes ring.now places.now tokens.now buf.old buf.new (policy_of policy (length items.old)) items.old items.new releases.old releases.new self result }
    {
        let entries = Entries {
            inbox: self,
            places,
        };
        let g = entries.group();
        let k = buf.len().min(entries.reach(g));
        let m = policy.handed(g, items.len());
        ring::read(ring, self.head, &mut buf[..k]);
        self.hand_over(tokens, g, m, items, releases);
        Taken {
            moved: k,
            items: m,
            released: g - m,
            flags: policy.flags(g, m),
            inbox: self.moved_on(ring.len(), k, g),
        }
    }

    // The first `m` of the first `g` items to `items`, the others to `releases`.
    fn hand_over(self, tokens: &[u32], g: usize, m: usize, items: &mut [u32], releases: &mut [u32])
        requires group_in { (self.first < 256) × (length tokens.now ≡ 256) × (m ≤ g) × (g ≤ 256) }
        requires lists_room { (m ≤ length items.old) × (256 ≤ length releases.old) }
        ensures { Hands (queued tokens.now self.first g) m items.old items.new releases.old releases.new }
    {
        ring::read(tokens, self.first, &mut items[..m]);
        let behind = ring::place(256, self.first + m);
        ring::read(tokens, behind, &mut releases[..g - m]);
    }

    // The numbers when the first `k` bytes and the first `g` items are gone.
    fn moved_on(self, c: usize, k: usize, g: usize) -> Inbox
        requires head_in { (self.head < c) × (k ≤ c) × (c ≤ 65536) }
        requires items_in { ItemsFit self }
        requires group_in { g ≤ self.items }
        ensures { result ≡ move_on c self k g }
    {
        Inbox {
            head: ring::place(c, self.head + k),
            read_total: self.read_total.wrapping_add(k as u64),
            first: ring::place(256, self.first + g),
            items: self.items - g,
            ..self
        }
    }

    // ── discard ──

    // Drops all bytes of an inbox of `c`; all items go to `releases`, from `at` on.
    // Stays: `&mut releases[at..]` is no plainer, since `Discards` tells the whole list.
    pub fn discard(self, c: usize, tokens: &[u32], releases: &mut [u32], at: usize) -> Discarded
        requires inbox_in { AllFit c self × (c ≤ 65536) }
        requires lists_room { (length tokens.now ≡ 256) × (at + self.items ≤ length releases.old) }
        ensures { Discards c tokens.now releases.old releases.new at self result }
    {
        ring::read(tokens, self.first, &mut releases[at..at + self.items]);
        Discarded {
            released: self.items,
            inbox: self.moved_on(c, self.queued(), self.items),
        }
    }

    // ── the check ──

    // The numbers are in range, and the places of the items rise inside the queued bytes.
    pub fn is_well(self, places: &[u64], c: usize) -> bool
        requires { length places.now ≡ 256 }
        ensures { result ≡ is_well c places.now self }
    {
        self.head < c
            && self.queued() <= c
            && self.first < 256
            && self.items <= MAX_PENDING_ATTACHED
            && Entries {
                inbox: self,
                places,
            }
            .rise()
    }
}

// The entries of an inbox's items in the ring of their places.
#[derive(Clone, Copy)]
struct Entries<'a> {
    inbox: Inbox,
    places: &'a [u64],
    ghost items_in: { ItemsFit inbox },
    ghost all_places: { length places.now ≡ 256 },
}

impl Entries<'_> {
    // How far the byte that carries the item `i` lies behind the first queued byte.
    fn distance(&self, i: usize) -> usize
        requires { i < self.now.inbox.items }
        ensures { result ≡ slice_index (distances self.now.inbox self.now.places.now) i }
    {
        distance(
            self.places[place(self.inbox.first + i)],
            self.inbox.read_total,
        )
    }

    // How many items are attached to the first queued byte.
    fn group(&self) -> usize
        ensures { (result ≡ front (distances self.now.inbox self.now.places.now)) × (result ≤ self.now.inbox.items) }
    {
        (0..self.inbox.items)
            .position(|i| self.distance(i) != 0)
            .unwrap_or(self.inbox.items)
    }

    // How far it is to the byte that carries the item `g`, or to the end where there is none.
    // Stays: an Option is no plainer, since the end is as far as a take goes.
    fn reach(&self, g: usize) -> usize
        ensures { result ≡ nearest (count self.now.inbox) (drop g (distances self.now.inbox self.now.places.now)) }
    {
        if g < self.inbox.items {
            self.distance(g)
        } else {
            self.inbox.queued()
        }
    }

    // The places rise inside the queued bytes.
    fn rise(&self) -> bool
        ensures { result ≡ rises 0 (count self.now.inbox) (distances self.now.inbox self.now.places.now) }
    {
        let n = self.inbox.queued();
        let mut low = 0;
        let mut left = n;
        for i in 0..self.inbox.items {
            let d = self.distance(i);
            // one test for both ends: below `low` it wraps
            let further = d.wrapping_sub(low);
            if left <= further {
                return false;
            }
            low = d;
            left -= further;
        }
        true
    }
}

// The place of entry `k` in the rings of the items: `ring::place` for 256, in one operation.
// Stays: tried, `ring::place(256, k)` misses the bar of 1 ns for each item that the check looks at.
fn place(k: usize) -> usize
    requires { k < 512 }
    ensures { (result ≡ place_of 256 k) × (result < 256) }
{
    k % 256
}

// How far the stream offset `from` lies before `to`.
fn distance(to: u64, from: u64) -> usize
    ensures { result ≡ dist to from }
{
    to.wrapping_sub(from) as usize
}
