// The ranges of N and C, and the sizes of what is lent.
ghost use Rattle.std.specs.Prelude.{◌≡◌, ◌≤◌, length};
ghost use Rattle.rules.specs.Run.{in_range};
ghost use Rattle.storage.specs.Rows.{lent};
ghost use Rattle.table.specs.Admission.{storage_fits, lists_fit};

#[tactic(auto, unfolding(rules::specs::Run::in_range))]
pub fn in_range(n: usize, c: usize) -> bool
    ensures { result ≡ in_range n c }
{
    (1..=1024).contains(&n) && (1..=65536).contains(&c)
}

#[tactic(auto, unfolding(crate::specs::Admission::storage_fits))]
pub fn storage_fits(words: &[u64], bytes: &[u8], tokens: &[u32], n: usize, c: usize) -> bool
    requires { (n ≤ 1024) × (c ≤ 65536) }
    ensures { result ≡ storage_fits n c (lent words.now bytes.now tokens.now) }
{
    let least = storage::least_sizes(n, c);
    least.words <= words.len() && least.bytes <= bytes.len() && least.tokens <= tokens.len()
}

#[tactic(auto, unfolding(crate::specs::Admission::lists_fit))]
pub fn lists_fit(wakes: &[u64], releases: &[u32], n: usize, c: usize) -> bool
    requires { (n ≤ 1024) × (c ≤ 65536) }
    ensures { result ≡ lists_fit n c (length wakes.now) (length releases.now) }
{
    let least = storage::least_sizes(n, c);
    least.wakes <= wakes.len() && least.releases <= releases.len()
}
