// The inbox of a slot: its three rings, lent as parts.
ghost use Rattle.std.specs.Prelude.{◌≡◌, ◌+◌, ◌*◌, ◌≤◌, ◌<◌, length};
ghost use Rattle.inbox.specs.Well.{is_well, Well, AllFit};
ghost use Rattle.inbox.specs.Promise.{MayPush, policy_of, Takes, Discards};
ghost use Rattle.storage.specs.Layout.{part, places_base, ring_base, tokens_base, HasRows};
ghost use Rattle.storage.specs.Rows.{lent, Roomy};
ghost use Rattle.storage.specs.Inboxes.{PushesAt};

use inbox::{AttachedItems, Discarded, Inbox, Pushed, Taken};

// The check of the inbox of slot `i`.
pub fn is_well(words: &[u64], n: usize, c: usize, i: usize, inbox: Inbox) -> bool
    requires { (i < n) × HasRows n words.now }
    ensures { result ≡ is_well c (part (places_base n i) 256 words.now) inbox }
{
    let p = 8 + 16 * n + 256 * i;
    inbox.is_well(&words[p..p + 256], c)
}

pub fn push(
    words: &mut [u64],
    bytes: &mut [u8],
    tokens: &mut [u32],
    n: usize,
    c: usize,
    i: usize,
    inbox: Inbox,
    buf: &[u8],
    items: &[u32],
) -> Pushed
    requires roomy { (i < n) × Roomy n c (lent words.old bytes.old tokens.old) }
    requires well { Well c (part (places_base n i) 256 words.old) inbox }
    requires may_push { MayPush c inbox buf.now items.now }
    ensures { PushesAt n c i (lent words.old bytes.old tokens.old) (lent words.new bytes.new tokens.new) buf.now items.now inbox result }
{
    let p = 8 + 16 * n + 256 * i;
    let b = c * i;
    let t = 256 * i;
    inbox.push(
        &mut bytes[b..b + c],
        &mut words[p..p + 256],
        &mut tokens[t..t + 256],
        buf,
        items,
    )
}

pub fn take(
    words: &[u64],
    bytes: &[u8],
    tokens: &[u32],
    n: usize,
    c: usize,
    i: usize,
    inbox: Inbox,
    buf: &mut [u8],
    policy: AttachedItems,
    items: &mut [u32],
    releases: &mut [u32],
) -> Taken
    requires roomy { (i < n) × Roomy n c (lent words.now bytes.now tokens.now) × (256 ≤ length releases.old) }
    requires well { Well c (part (places_base n i) 256 words.now) inbox }
    ensures { Takes (part (ring_base c i) c bytes.now) (part (places_base n i) 256 words.now) (part (tokens_base i) 256 tokens.now) buf.old buf.new (policy_of policy (length items.old)) items.old items.new releases.old releases.new inbox result }
{
    let p = 8 + 16 * n + 256 * i;
    let b = c * i;
    let t = 256 * i;
    inbox.take(
        &bytes[b..b + c],
        &words[p..p + 256],
        &tokens[t..t + 256],
        buf,
        policy,
        items,
        releases,
    )
}

pub fn discard(
    tokens: &[u32],
    c: usize,
    i: usize,
    inbox: Inbox,
    releases: &mut [u32],
    at: usize,
) -> Discarded
    requires roomy { (256 * i + 256 ≤ length tokens.now) × (c ≤ 65536) × AllFit c inbox }
    requires releases_room { at + inbox.items ≤ length releases.old }
    ensures { Discards c (part (tokens_base i) 256 tokens.now) releases.old releases.new at inbox result }
{
    let t = 256 * i;
    inbox.discard(c, &tokens[t..t + 256], releases, at)
}
