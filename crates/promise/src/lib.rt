// What a table call answers. The promise that every call makes stands in specs/.
#![tactic(auto)]

ghost use Rattle.std.specs.Prelude.{◌≡◌, Ok};
ghost use Rattle.promise.specs.Answers.{told, accepted_with, released_with};

use words::Errno;

// The registry, in the wake list.
pub const REGISTRY: u64 = 0;

// What an accepted call answers: recvmsg's flags, the value, and how many entries are filled of the
// item list, the wake list and the release list.
// Stays: what may not change: `told` gives C these numbers, the flags too.
#[derive(Clone, Copy, Debug, Default, PartialEq, Eq)]
pub struct Accepted {
    pub flags: u32,
    pub value: u64,
    pub items: u64,
    pub wakes: u64,
    pub releases: u64,
}

// The same for C, with 01's number (0: accepted); of a refusal all but the number is 0.
// Stays: the C interface, a struct by value: its number, and the rest 0 where that is not 0.
#[repr(C)]
#[derive(Clone, Copy, Debug, Default, PartialEq, Eq)]
pub struct Answer {
    pub refusal: u32,
    pub flags: u32,
    pub value: u64,
    pub items: u64,
    pub wakes: u64,
    pub releases: u64,
}

impl Accepted {
    // Nothing is handed over or released.
    pub fn new(value: u64, wakes: usize) -> Accepted
        ensures { told (Ok result) ≡ accepted_with value wakes }
    {
        Accepted {
            value,
            wakes: wakes as u64,
            ..Accepted::default()
        }
    }

    // Of a close and of a shutdown: items are released.
    pub fn releasing(wakes: usize, releases: usize) -> Accepted
        ensures { told (Ok result) ≡ released_with wakes releases }
    {
        Accepted {
            releases: releases as u64,
            ..Accepted::new(0, wakes)
        }
    }
}

impl From<Result<Accepted, Errno>> for Answer {
    ghost from_gives = { λ answer result. result ≡ told answer };

    fn from(answer: Result<Accepted, Errno>) -> Answer
        ensures { result ≡ told answer }
    {
        match answer {
            Ok(accepted) => Answer {
                refusal: 0,
                flags: accepted.flags,
                value: accepted.value,
                items: accepted.items,
                wakes: accepted.wakes,
                releases: accepted.releases,
            },
            Err(no) => Answer {
                refusal: no.number(),
                ..Answer::default()
            },
        }
    }
}
