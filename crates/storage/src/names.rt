// Names: each slot has room for 255 bytes, of which its state says how many are the name.
ghost use Rattle.std.specs.Prelude.{◌≡◌, ◌≤◌, ◌<◌, length, drop};
ghost use Rattle.std.proofs.Math.Seq.{paste};
ghost use Rattle.rules.specs.Table.{same};
ghost use Rattle.storage.specs.Layout.{part, name_base, HasSlots, HasNames};
ghost use Rattle.storage.specs.Cells.{cell_at};
ghost use Rattle.storage.specs.Finding.{holds_cell, lowest};
ghost use Rattle.storage.specs.Naming.{name_refusal};

use crate::{BOUND, LISTENING};
use words::Errno;

// A name has 1 to 255 bytes.
#[tactic(auto, unfolding(crate::specs::Naming::name_refusal))]
pub fn refusal(name: &[u8]) -> Result<(), Errno>
    ensures { result ≡ name_refusal name.now }
{
    match name.len() {
        0 => Err(Errno::EINVAL),
        1..=255 => Ok(()),
        _ => Err(Errno::ENAMETOOLONG),
    }
}

// Names that differ mostly do so in their length, or their first or last eight bytes, short ones in
// their last two: these are asked first.
// Stays: tried, `a == b` alone misses the 20 µs for the check of 128 names, where they differ in the last two bytes: 91, this 19.
#[tactic(auto, using(crate::proofs::Finds::equal_is, crate::proofs::Finds::other_length))]
fn same_name(a: &[u8], b: &[u8]) -> bool
    ensures { result ≡ same a.now b.now }
{
    if a.len() != b.len() {
        return false;
    }
    a.first_chunk::<8>() == b.first_chunk::<8>()
        && a.last_chunk::<8>() == b.last_chunk::<8>()
        && a.last_chunk::<2>() == b.last_chunk::<2>()
        && a == b
}

// Slot `i` has a socket of this name: one that is bound or listening, which is asked last, since few
// names are the same.
#[tactic(auto, using(crate::proofs::Finds::low_tag, crate::proofs::Finds::high_tag, crate::proofs::Finds::holds_by_name, crate::proofs::Finds::holds_no_other))]
pub fn holds(words: &[u64], bytes: &[u8], n: usize, c: usize, i: usize, name: &[u8]) -> bool
    requires { (i < n) × HasSlots n words.now × HasNames n c bytes.now }
    ensures { result ≡ holds_cell (cell_at words.now i) (part (name_base n c i) 255 bytes.now) name.now }
{
    let b = 8 + 16 * i;
    let a = c * n + 255 * i;
    let e = a + words[b + 2].min(255) as usize;
    same_name(&bytes[a..e], name) && matches!(words[b + 1], BOUND | LISTENING)
}

// The first of the first `m` slots that has a socket of this name. Not inlined: the check's loop over
// connected slots then keeps its numbers in registers.
#[inline(never)]
pub fn find(words: &[u64], bytes: &[u8], n: usize, c: usize, m: usize, name: &[u8]) -> Option<usize>
    requires { (m ≤ n) × HasSlots n words.now × HasNames n c bytes.now }
    ensures { result ≡ lowest m (λ i. holds_cell (cell_at words.now i) (part (name_base n c i) 255 bytes.now) name.now) }
{
    (0..m).find(|&i| holds(words, bytes, n, c, i, name))
}

// Writes the name of slot `i`; the rest of its room stays.
pub fn put_name(bytes: &mut [u8], n: usize, c: usize, i: usize, name: &[u8])
    requires { (i < n) × HasNames n c bytes.old × (length name.now ≤ 255) }
    ensures { bytes.new ≡ paste bytes.old (name_base n c i) (drop 0 name.now) (length name.now) }
{
    let a = c * n + 255 * i;
    bytes[a..a + name.len()].copy_from_slice(name);
}
