// An answer as text: the refusal, its numbers, and after `bytes` all that was lent for it, if
// anything was.
use std::alloc::{AllocError, Global};
use wording::write::Hex;
use words::Errno;

// As many numbers as the answer has; after a refusal they are 0.
pub fn numbers<const N: usize>(
    alloc: Global,
    answer: Result<[u64; N], Errno>,
) -> Result<String, AllocError> {
    let (refusal, numbers) = match answer {
        Ok(numbers) => (0, numbers),
        Err(no) => (no.number(), [0; N]),
    };
    let mut text = format!(in alloc; "{refusal}")?;
    for number in numbers {
        write!(text, " {number}")?;
    }
    Ok(text)
}

pub fn numbers_lent<const N: usize>(
    alloc: Global,
    answer: Result<[u64; N], Errno>,
    lent: &[u8],
) -> Result<String, AllocError> {
    let mut text = numbers(alloc, answer)?;
    if !lent.is_empty() {
        write!(text, " bytes {}", Hex(lent))?;
    }
    Ok(text)
}
