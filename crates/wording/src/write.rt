// Writing an answer as text.
use crate::dotted::Dotted;
use std::fmt;

/// Each byte as two hexadecimal digits.
#[derive(Clone, Copy)]
pub struct Hex<'a>(pub &'a [u8]);

impl fmt::Display for Hex<'_> {
    fn fmt<W: fmt::Write>(&self, f: &mut fmt::Formatter<W>) -> fmt::Result {
        for byte in self.0 {
            write!(f, "{byte:02x}")?;
        }
        Ok(())
    }
}

// FNV-1a.
fn hash(bytes: &[u8]) -> u64 {
    bytes.iter().fold(0xcbf2_9ce4_8422_2325, |hash: u64, byte| {
        (hash ^ u64::from(*byte)).wrapping_mul(0x0100_0000_01b3)
    })
}

/// Bytes that were delivered: up to 48 as they are, more as their count and hash.
#[derive(Clone, Copy)]
pub struct Delivered<'a>(pub &'a [u8]);

impl fmt::Display for Delivered<'_> {
    fn fmt<W: fmt::Write>(&self, f: &mut fmt::Formatter<W>) -> fmt::Result {
        let bytes = self.0;
        let count = bytes.len();
        if count <= 48 {
            write!(f, "{}", Hex(bytes))
        } else {
            write!(f, "{count}:{:016x}", hash(bytes))
        }
    }
}

// Before each of a list but the first.
fn comma_before<W: fmt::Write>(k: usize, f: &mut fmt::Formatter<W>) -> fmt::Result {
    if k > 0 {
        f.write_str(",")?;
    }
    Ok(())
}

/// A list of numbers; of a run that goes up by one only the ends are written, `first-last`.
#[derive(Clone, Copy)]
pub struct Runs<'a>(pub &'a [u32]);

impl fmt::Display for Runs<'_> {
    fn fmt<W: fmt::Write>(&self, f: &mut fmt::Formatter<W>) -> fmt::Result {
        let runs = self.0.chunk_by(|a, b| a.checked_add(1) == Some(*b));
        for (k, run) in runs.enumerate() {
            comma_before(k, f)?;
            match run {
                [] => {}
                [only] => write!(f, "{only}")?,
                [first, .., last] => write!(f, "{first}-{last}")?,
            }
        }
        Ok(())
    }
}

// Stays: the C interface, whose list of wakes is numbers.
/// Whom a call woke: handles, and 0 for the registry.
#[derive(Clone, Copy)]
pub struct Wakes<'a>(pub &'a [u64]);

impl fmt::Display for Wakes<'_> {
    fn fmt<W: fmt::Write>(&self, f: &mut fmt::Formatter<W>) -> fmt::Result {
        for (k, handle) in self.0.iter().enumerate() {
            comma_before(k, f)?;
            match *handle {
                0 => write!(f, "registry")?,
                handle => write!(f, "{}", Dotted(handle))?,
            }
        }
        Ok(())
    }
}

/// Readiness by its letters: r readable, w writable, h hung up, - none; a number that is none of
/// these as it is.
#[derive(Clone, Copy)]
pub struct Letters(pub u64);

impl fmt::Display for Letters {
    fn fmt<W: fmt::Write>(&self, f: &mut fmt::Formatter<W>) -> fmt::Result {
        f.write_str(match self.0 {
            0 => "-",
            1 => "r",
            2 => "w",
            3 => "rw",
            4 => "h",
            5 => "rh",
            6 => "wh",
            7 => "rwh",
            number => return write!(f, "{number}"),
        })
    }
}
