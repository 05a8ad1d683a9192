// Reading a word: the number, the handle or the bytes that it is.
ghost use Rattle.std.specs.Prelude.{◌≡◌, ◌≢◌, ◌⊎◌, ◌≤◌, length, slice_index, Ok, Err, IfOk, IfErr, OnOk};
ghost use Rattle.wording.specs.declared.text.LineError.TheVariants.{Unreadable, OutOfMemory};
ghost use Rattle.wording.specs.Numbers.{Reads, AreBytesOf, IsNoBytes};

use hex::FromHexError;
use std::alloc::{AllocError, AllocFailed, Global};
use std::str::FromStr;

/// Why a line was not read: it is in no form that a script has, or memory ran out.
#[derive(Clone, Copy, Debug, PartialEq, Eq)]
pub enum LineError {
    Unreadable,
    OutOfMemory,
}

impl From<AllocError> for LineError {
    ghost from_gives = { λ _ e. e ≡ OutOfMemory };

    fn from(_error: AllocError) -> LineError {
        LineError::OutOfMemory
    }
}

impl<T: Drop> From<AllocFailed<T>> for LineError {
    ghost from_gives = { λ _ e. e ≡ OutOfMemory };

    fn from(_failed: AllocFailed<T>) -> LineError {
        LineError::OutOfMemory
    }
}

/// What a word is as a number or a handle; no number has a `+`.
pub fn parse<T: FromStr + Drop>(word: &str) -> Result<T, LineError>
where
    T::Err: Drop,
    ensures read { IfOk result (λ n. T.from_str_gives word.now (Ok n)) }
    ensures plus { slice_index word.now 0 ≡ 43 → result ≡ Err Unreadable }
    ensures value { slice_index word.now 0 ≢ 43 → Reads T.from_str_gives word.now result }
{
    if word.starts_with('+') {
        return Err(LineError::Unreadable);
    }
    // Stays: tried, `word.parse().or(..)`: the proof of `value` did not close.
    match word.parse() {
        Ok(value) => Ok(value),
        Err(_) => Err(LineError::Unreadable),
    }
}

// The most digits that bytes have.
const MOST_DIGITS: usize = 131_072;

/// Bytes in hexadecimal, in small letters, `-` for none.
pub fn bytes(alloc: Global, word: &str) -> Result<Vec<u8>, LineError>
    ensures ok { IfOk result (λ v. AreBytesOf word.now v.items) }
    ensures err { IfErr result (λ e. (e ≡ OutOfMemory) ⊎ IsNoBytes word.now) }
    ensures at_most { OnOk result (length word.now ≤ 131072) }
{
    if word == "-" {
        return Ok(Vec::new(alloc));
    }
    if word.is_empty() || word.len() > MOST_DIGITS || word.bytes().any(|b| b.is_ascii_uppercase()) {
        return Err(LineError::Unreadable);
    }
    // Stays: the one place that has a `FromHexError`; a `From` is no plainer.
    match hex::decode(alloc, word) {
        Ok(bytes) => Ok(bytes),
        Err(FromHexError::OutOfMemory) => Err(LineError::OutOfMemory),
        Err(_) => Err(LineError::Unreadable),
    }
}
