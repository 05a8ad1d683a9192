// A listener's pending servers: a ring of `n` handles of its own, oldest first.
ghost use Rattle.std.specs.Prelude.{◌≡◌, ◌+◌, ◌<◌, get_or, set};
ghost use Rattle.storage.specs.Layout.{queue_base, HasRows};

use words::Handle;

// The handle at place `k` of the ring of slot `i`.
#[tactic(auto, using(crate::proofs::Strides::row_before))]
pub fn entry(words: &[u64], n: usize, i: usize, k: usize) -> Handle
    requires { (i < n) × (k < n) × HasRows n words.now }
    ensures { result.0 ≡ get_or words.now (queue_base n i + k) 0 }
{
    let a = 8 + 272 * n + n * i;
    Handle(words[a + k])
}

#[tactic(auto, using(crate::proofs::Strides::row_before))]
pub fn put_entry(words: &mut [u64], n: usize, i: usize, k: usize, h: Handle)
    requires { (i < n) × (k < n) × HasRows n words.old }
    ensures { words.new ≡ set words.old (queue_base n i + k) h.0 }
{
    let a = 8 + 272 * n + n * i;
    words[a + k] = h.0;
}
