// The words of document 01: the numbers that a caller may get back, and the three kinds of number
// that are never passed for each other. A question is answered by a `Result`: what it asks for, or
// the name of a number.
#![tactic(auto)]

ghost use Rattle.std.specs.Prelude.{◌≡◌};
ghost use Rattle.words.specs.Numbers.{number_of, refusal_of, answer_value};

// "Numbers a caller may get back", in 01's order.
#[derive(Clone, Copy, Debug, PartialEq, Eq)]
pub enum Errno {
    EBADF = 1,
    EINVAL = 2,
    EADDRINUSE = 3,
    EDESTADDRREQ = 4,
    EISCONN = 5,
    EOPNOTSUPP = 6,
    ECONNREFUSED = 7,
    EAGAIN = 8,
    ENOTCONN = 9,
    EPIPE = 10,
    ENOBUFS = 11,
    EAFNOSUPPORT = 12,
    EMSGSIZE = 13,
    EPROTOTYPE = 14,
    EPROTONOSUPPORT = 15,
    ENFILE = 16,
    ENAMETOOLONG = 17,
    SHORT = 18,
    DAMAGED = 19,
}

// generation x 65,536 + slot
#[derive(Clone, Copy, Debug, PartialEq, Eq)]
pub struct Handle(pub u64);

// An opaque token that a sender attaches to a byte.
#[derive(Clone, Copy, Debug, PartialEq, Eq)]
pub struct Item(pub u32);

// A descriptor number, as it stands in control bytes.
#[derive(Clone, Copy, Debug, PartialEq, Eq)]
pub struct Descriptor(pub i32);

impl Errno {
    // Stays: what may not change, since docs/TRACE.md names it.
    pub fn number(self) -> u32
        ensures { result ≡ number_of self }
    {
        self as u32
    }
}

impl Descriptor {
    // Stays: what may not change, since docs/TRACE.md names it.
    // The one place where a descriptor becomes a plain number.
    pub fn number(self) -> i32
        ensures { result ≡ self.0 }
    {
        self.0
    }
}

// 01's number of an answer. "An accepted call without a value answers 0."
// Stays: the C interface, where an answer is a number, 0 for none; so is `value`.
pub fn refusal<T: Copy>(answer: Result<T, Errno>) -> u32
    ensures { result ≡ refusal_of answer }
{
    match answer {
        Ok(_) => 0,
        Err(no) => no.number(),
    }
}

// "On a refusal every answered number but the refusal is 0."
pub fn value(answer: Result<u64, Errno>) -> u64
    ensures { result ≡ answer_value answer }
{
    answer.unwrap_or(0)
}
