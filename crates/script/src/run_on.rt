// A call that its `=` follows with no space between: its last word, without its last byte, has to be
// an argument, but is taken as it stands, up to the next space.
// Stays: what may not change, since the programs do what they did on every input (`tests::runs_on`); `hex::decode` refuses what is 0 here.
ghost use Rattle.std.specs.Prelude.{◌<◌, ◌≤◌, vec_len, IfOk, IfSome};
ghost use Rattle.script.specs.Limits.{IsWithinLimits};

use crate::call::{Call, Data, Items, MOST_BYTES, MOST_ITEMS};
use std::alloc::AllocError;
use words::Handle;

// The number that stands last; 0 where none does, and anew after one that is too large.
fn last_number(bytes: &[u8]) -> u64 {
    bytes.iter().fold(0, |number: u64, byte| match byte {
        b'0'..=b'9' => number
            .checked_mul(10)
            .and_then(|tens| tens.checked_add(u64::from(byte - b'0')))
            .unwrap_or(0),
        _ => 0,
    })
}

fn last_signed(word: &str, number: u64) -> i32 {
    let size = u32::try_from(number).unwrap_or(0);
    if word.starts_with('-') {
        size.wrapping_neg().cast_signed()
    } else {
        size.cast_signed()
    }
}

fn with_slot(handle: Handle, number: u64) -> Handle {
    let slot = u16::try_from(number).unwrap_or(0);
    Handle(handle.0 - handle.0 % 65_536 + u64::from(slot))
}

fn digit(byte: u8) -> Option<u8>
    ensures { IfSome result (λ d. d < 16) }
{
    match byte {
        b'0'..=b'9' => Some(byte - b'0'),
        b'a'..=b'f' => Some(byte - b'a' + 10),
        _ => None,
    }
}

// The name with what follows it, a byte for each pair; one that is no two digits is 0.
fn with_pairs(mut name: Vec<u8>, digits: &[u8]) -> Result<Vec<u8>, AllocError>
    ensures { IfOk result (λ name. vec_len name ≤ 65600) }
{
    for pair in digits.chunks_exact(2) {
        let byte = match (digit(pair[0]), digit(pair[1])) {
            (Some(high), Some(low)) => high * 16 + low,
            _ => 0,
        };
        name.push(byte)?;
    }
    name.truncate(MOST_BYTES);
    Ok(name)
}

// The same after the last word, where `-` is one half of a pair.
fn with_name(mut name: Vec<u8>, word: &str, more: &[u8]) -> Result<Vec<u8>, AllocError>
    ensures { IfOk result (λ name. vec_len name ≤ 65600) }
{
    if word != "-" {
        return with_pairs(name, more);
    }
    name.push(0)?;
    with_pairs(name, more.get(1..).unwrap_or(&[]))
}

impl Call {
    // `more` is what runs on from the call's text, up to the next space.
    pub fn run_on(self, text: &str, more: &[u8]) -> Result<Call, AllocError>
        ensures { IsWithinLimits self → IfOk result IsWithinLimits }
    {
        if more.is_empty() || text.ends_with(' ') {
            return Ok(self);
        }
        let word = text.rsplit(' ').next().unwrap_or(text);
        let number = last_number(more);
        Ok(match self {
            Call::Socket { domain, ty, .. } => Call::Socket {
                domain,
                ty,
                protocol: last_signed(word, number),
            },
            Call::Bind { handle, name } => Call::Bind {
                handle,
                name: with_name(name, word, more)?,
            },
            Call::Listen { handle, .. } => Call::Listen {
                handle,
                backlog: u32::try_from(number).unwrap_or(0),
            },
            Call::Accept(handle) => Call::Accept(with_slot(handle, number)),
            Call::Connect { handle, name } => Call::Connect {
                handle,
                name: with_name(name, word, more)?,
            },
            Call::Read { handle, .. } => Call::Read {
                handle,
                len: at_most(number, MOST_BYTES),
            },
            Call::Recvmsg { handle, len, .. } => Call::Recvmsg {
                handle,
                len,
                count: at_most(number, MOST_ITEMS),
            },
            Call::Write { handle, data } => Call::Write {
                handle,
                data: Data {
                    seed: data.seed,
                    len: at_most(number, MOST_BYTES),
                },
            },
            Call::Sendmsg {
                handle,
                data,
                items,
            } => Call::Sendmsg {
                handle,
                data,
                items: Items {
                    first: items.first,
                    count: at_most(number, MOST_ITEMS),
                },
            },
            Call::Shutdown { handle, .. } => Call::Shutdown {
                handle,
                how: last_signed(word, number),
            },
            Call::Close(handle) => Call::Close(with_slot(handle, number)),
            Call::Readiness(handle) => Call::Readiness(with_slot(handle, number)),
        })
    }
}

fn at_most(number: u64, most: usize) -> usize
    ensures { result ≤ most }
{
    usize::try_from(number).unwrap_or(most).min(most)
}
