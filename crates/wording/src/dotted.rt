// A handle as a script names it: its generation, below 2^48, a dot, and its slot.
use crate::text::{LineError, parse};
use std::fmt;
use std::str::FromStr;

const SLOTS: u64 = 65_536;

const GENERATIONS: u64 = 281_474_976_710_656;

/// The number of a handle, generation x 65,536 + slot, as `generation.slot`.
#[derive(Clone, Copy, Debug, PartialEq, Eq)]
pub struct Dotted(pub u64);

impl fmt::Display for Dotted {
    fn fmt<W: fmt::Write>(&self, f: &mut fmt::Formatter<W>) -> fmt::Result {
        let generation = self.0 / SLOTS;
        let slot = self.0 % SLOTS;
        write!(f, "{generation}.{slot}")
    }
}

impl FromStr for Dotted {
    ghost use Rattle.wording.specs.Handles.{ReadsHandle};

    type Err = LineError;

    ghost from_str_gives = { ReadsHandle };

    fn from_str(text: &str) -> Result<Dotted, LineError> {
        let (generation, slot) = text.split_once('.').ok_or(LineError::Unreadable)?;
        let generation: u64 = parse(generation)?;
        let slot: u16 = parse(slot)?;
        if generation < GENERATIONS {
            Ok(Dotted(generation * SLOTS + u64::from(slot)))
        } else {
            Err(LineError::Unreadable)
        }
    }
}
