// The table calls of a script, each with its arguments.
ghost use Rattle.std.specs.Prelude.{◌≤◌, vec_len, IfOk};
ghost use Rattle.script.specs.Limits.{IsWithinLimits};

use std::alloc::{AllocError, Global};
use std::iter::successors;
use wording::dotted::Dotted;
use wording::line::Words;
use wording::text::LineError;
use words::Handle;

// The most bytes and items that a call is lent.
pub const MOST_BYTES: usize = 65_600;

pub const MOST_ITEMS: usize = 320;

// What a call sends: byte k is (seed + k) mod 251.
#[derive(Clone, Copy)]
pub struct Data {
    pub seed: u8,
    pub len: usize,
}

impl Data {
    fn read(words: &mut Words<'_>) -> Result<Data, LineError>
        ensures { IfOk result (λ d. d.len ≤ 65600) }
    {
        Ok(Data {
            seed: words.parse()?,
            len: words.up_to(MOST_BYTES)?,
        })
    }

    pub fn bytes(self, alloc: Global) -> Result<Vec<u8>, AllocError> {
        let mut byte = self.seed % 251;
        let mut data = vec![in alloc; 0; self.len]?;
        for place in data.iter_mut() {
            *place = byte;
            byte = if byte < 250 { byte + 1 } else { 0 };
        }
        Ok(data)
    }
}

// The items that a call sends, which go up by one.
#[derive(Clone, Copy)]
pub struct Items {
    pub first: u32,
    pub count: usize,
}

impl Items {
    fn read(words: &mut Words<'_>) -> Result<Items, LineError>
        ensures { IfOk result (λ i. i.count ≤ 320) }
    {
        Ok(Items {
            first: words.parse()?,
            count: words.up_to(MOST_ITEMS)?,
        })
    }

    pub fn list(self, alloc: Global) -> Result<Vec<u32>, AllocError> {
        let items = successors(Some(self.first), |item| Some(item.wrapping_add(1)));
        items.take(self.count).collect(alloc)
    }
}

#[derive(Drop)]
pub enum Call {
    Socket {
        domain: i32,
        ty: i32,
        protocol: i32,
    },
    Bind {
        handle: Handle,
        name: Vec<u8>,
    },
    Listen {
        handle: Handle,
        backlog: u32,
    },
    Accept(Handle),
    Connect {
        handle: Handle,
        name: Vec<u8>,
    },
    Read {
        handle: Handle,
        len: usize,
    },
    Recvmsg {
        handle: Handle,
        len: usize,
        count: usize,
    },
    Write {
        handle: Handle,
        data: Data,
    },
    Sendmsg {
        handle: Handle,
        data: Data,
        items: Items,
    },
    Shutdown {
        handle: Handle,
        how: i32,
    },
    Close(Handle),
    Readiness(Handle),
}

fn handle(words: &mut Words<'_>) -> Result<Handle, LineError> {
    let dotted: Dotted = words.parse()?;
    Ok(Handle(dotted.0))
}

// A name, which is lent as far as any call's bytes.
fn lent_name(alloc: Global, words: &mut Words<'_>) -> Result<Vec<u8>, LineError>
    ensures { IfOk result (λ name. vec_len name ≤ 65600) }
{
    let mut name = words.bytes(alloc)?;
    name.truncate(MOST_BYTES);
    Ok(name)
}

impl Call {
    // The call of that name with the arguments that follow.
    pub fn read(alloc: Global, name: &str, words: &mut Words<'_>) -> Result<Call, LineError>
        ensures { IfOk result IsWithinLimits }
    {
        Ok(match name {
            "socket" => Call::Socket {
                domain: words.parse()?,
                ty: words.parse()?,
                protocol: words.parse()?,
            },
            "bind" => Call::Bind {
                handle: handle(words)?,
                name: lent_name(alloc, words)?,
            },
            "listen" => Call::Listen {
                handle: handle(words)?,
                backlog: words.parse()?,
            },
            "accept" => Call::Accept(handle(words)?),
            "connect" => Call::Connect {
                handle: handle(words)?,
                name: lent_name(alloc, words)?,
            },
            "read" => Call::Read {
                handle: handle(words)?,
                len: words.up_to(MOST_BYTES)?,
            },
            "recvmsg" => Call::Recvmsg {
                handle: handle(words)?,
                len: words.up_to(MOST_BYTES)?,
                count: words.up_to(MOST_ITEMS)?,
            },
            "write" => Call::Write {
                handle: handle(words)?,
                data: Data::read(words)?,
            },
            "sendmsg" => Call::Sendmsg {
                handle: handle(words)?,
                data: Data::read(words)?,
                items: Items::read(words)?,
            },
            "shutdown" => Call::Shutdown {
                handle: handle(words)?,
                how: words.parse()?,
            },
            "close" => Call::Close(handle(words)?),
            "readiness" => Call::Readiness(handle(words)?),
            _ => return Err(LineError::Unreadable),
        })
    }

    // Whether the call answers a handle.
    pub fn opens(&self) -> bool {
        matches!(self, Call::Socket { .. } | Call::Accept(_))
    }
}
