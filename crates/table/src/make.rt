// Making a table.
ghost use Rattle.std.specs.Prelude.{◌+◌, ◌*◌, ◌≤◌, ◌≡◌, length};
ghost use Rattle.storage.specs.Rows.{lent};
ghost use Rattle.table.specs.Making.{fresh_words, Makes};

use words::Errno;

// The header, and every slot closed.
fn clear(words: &mut [u64], n: usize, c: usize)
    requires { (n ≤ 1024) × (8 + 16 * n ≤ length words.old) }
    ensures { words.new ≡ fresh_words n c words.old }
{
    words[0] = n as u64;
    words[1] = c as u64;
    words[2..8 + 16 * n].fill(0);
}

// A table of `n` slots of capacity `c`, all of them free.
pub fn make(
    words: &mut [u64],
    bytes: &[u8],
    tokens: &[u32],
    n: usize,
    c: usize,
) -> Result<(), Errno>
    ensures { Makes n c (lent words.old bytes.now tokens.now) (lent words.new bytes.now tokens.now) result }
{
    if !crate::sizes::in_range(n, c) {
        return Err(Errno::EINVAL);
    }
    if !crate::sizes::storage_fits(words, bytes, tokens, n, c) {
        return Err(Errno::SHORT);
    }
    clear(words, n, c);
    Ok(())
}
