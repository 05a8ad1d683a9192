// A host with one table: what it lends to the calls, and the sockets that it was given.
use crate::call::Call;
use promise::Accepted;
use std::alloc::{AllocError, Global};
use wording::dotted::Dotted;
use wording::write::{Delivered, Letters, Runs, Wakes};
use words::{Errno, Handle};

// There is room for a table of up to 40 slots of capacity 65,536.
const WORDS: usize = 12_488;

const BYTES: usize = 2_631_640;

const TOKENS: usize = 10_240;

const WAKES: usize = 41;

// The readiness of so many sockets is asked after each call.
const MOST_HELD: usize = 64;

#[derive(Clone, Copy)]
struct Size {
    slots: usize,
    capacity: usize,
}

#[derive(Drop)]
pub struct Host {
    words: Vec<u64>,
    bytes: Vec<u8>,
    tokens: Vec<u32>,
    wakes: Vec<u64>,
    releases: Vec<u32>,
    // the table's size, once one was made
    size: Option<Size>,
    // in the order in which they were given
    held: Vec<Handle>,
}

// What a call answered and delivered.
#[derive(Drop)]
struct Reply {
    answer: Result<Accepted, Errno>,
    data: Vec<u8>,
    items: Vec<u32>,
}

impl Host {
    pub fn new(alloc: Global) -> Result<Host, AllocError> {
        Ok(Host {
            words: vec![in alloc; 0; WORDS]?,
            bytes: vec![in alloc; 0; BYTES]?,
            tokens: vec![in alloc; 0; TOKENS]?,
            wakes: vec![in alloc; 0; WAKES]?,
            releases: vec![in alloc; 0; TOKENS]?,
            size: None,
            held: Vec::new(alloc),
        })
    }

    // A fresh table.
    pub fn make(&mut self, slots: usize, capacity: usize) -> Result<(), Errno> {
        unix_socket::make(&mut self.words, &self.bytes, &self.tokens, slots, capacity)?;
        self.size = Some(Size { slots, capacity });
        self.held.clear();
        Ok(())
    }

    // A word of the storage, where there is one.
    pub fn word_mut(&mut self, place: usize) -> Option<&mut u64> {
        self.words.get_mut(place)
    }

    // The call's answer as text; none where there is no table.
    pub fn call(&mut self, alloc: Global, call: &Call) -> Result<Option<String>, AllocError> {
        let Some(size) = self.size else {
            return Ok(None);
        };
        let reply = self.reply(alloc, size, call)?;
        if let Ok(accepted) = reply.answer {
            self.note(call, accepted)?;
        }
        Ok(Some(self.text(alloc, size, call, &reply)?))
    }

    fn reply(&mut self, alloc: Global, size: Size, call: &Call) -> Result<Reply, AllocError> {
        let mut data = Vec::new(alloc);
        let mut items = Vec::new(alloc);
        let Host {
            words,
            bytes,
            tokens,
            wakes,
            releases,
            ..
        } = self;
        let n = size.slots;
        let c = size.capacity;
        let answer = match call {
            Call::Socket {
                domain,
                ty,
                protocol,
            } => unix_socket::socket(
                words, bytes, tokens, wakes, releases, n, c, *domain, *ty, *protocol,
            ),
            Call::Bind { handle, name } => {
                unix_socket::bind(words, bytes, tokens, wakes, releases, n, c, *handle, name)
            }
            Call::Listen { handle, backlog } => {
                unix_socket::listen(
                    words, bytes, tokens, wakes, releases, n, c, *handle, *backlog,
                )
            }
            Call::Accept(handle) => {
                unix_socket::accept(words, bytes, tokens, wakes, releases, n, c, *handle)
            }
            Call::Connect { handle, name } => {
                unix_socket::connect(words, bytes, tokens, wakes, releases, n, c, *handle, name)
            }
            Call::Read { handle, len } => {
                data = vec![in alloc; 0; *len]?;
                unix_socket::read(
                    words, bytes, tokens, wakes, releases, n, c, *handle, &mut data,
                )
            }
            Call::Recvmsg { handle, len, count } => {
                data = vec![in alloc; 0; *len]?;
                items = vec![in alloc; 0; *count]?;
                unix_socket::recvmsg(
                    words, bytes, tokens, wakes, releases, n, c, *handle, &mut data, &mut items,
                )
            }
            Call::Write { handle, data } => {
                let sent = data.bytes(alloc)?;
                unix_socket::write(words, bytes, tokens, wakes, releases, n, c, *handle, &sent)
            }
            Call::Sendmsg {
                handle,
                data,
                items,
            } => {
                let sent = data.bytes(alloc)?;
                let list = items.list(alloc)?;
                unix_socket::sendmsg(
                    words, bytes, tokens, wakes, releases, n, c, *handle, &sent, &list,
                )
            }
            Call::Shutdown { handle, how } => {
                unix_socket::shutdown(words, bytes, tokens, wakes, releases, n, c, *handle, *how)
            }
            Call::Close(handle) => {
                unix_socket::close(words, bytes, tokens, wakes, releases, n, c, *handle)
            }
            Call::Readiness(handle) => {
                unix_socket::readiness(words, bytes, tokens, wakes, releases, n, c, *handle)
            }
        };
        Ok(Reply {
            answer,
            data,
            items,
        })
    }

    // Keeps the socket that the call opened, and lets go the one that it closed.
    fn note(&mut self, call: &Call, accepted: Accepted) -> Result<(), AllocError> {
        if let Call::Close(handle) = call {
            let closed = *handle;
            self.held.retain(|held| *held != closed);
        }
        if call.opens() && self.held.len() < MOST_HELD {
            self.held.push(Handle(accepted.value))?;
        }
        Ok(())
    }

    // The refusal, then what is not 0 or empty, then the readiness of every socket that is held.
    fn text(
        &self,
        alloc: Global,
        size: Size,
        call: &Call,
        reply: &Reply,
    ) -> Result<String, AllocError> {
        let mut text = format!(in alloc; "{}", words::refusal(reply.answer))?;
        if let Ok(accepted) = reply.answer {
            delivered(&mut text, call, accepted, reply)?;
            self.notices(&mut text, accepted)?;
        }
        self.readiness(&mut text, size)?;
        Ok(text)
    }

    fn notices(&self, text: &mut String, accepted: Accepted) -> Result<(), AllocError> {
        let wakes = first(&self.wakes, accepted.wakes);
        if !wakes.is_empty() {
            write!(text, " wakes {}", Wakes(wakes))?;
        }
        let releases = first(&self.releases, accepted.releases);
        if !releases.is_empty() {
            write!(text, " releases {}", Runs(releases))?;
        }
        Ok(())
    }

    fn readiness(&self, text: &mut String, size: Size) -> Result<(), AllocError> {
        if !self.held.is_empty() {
            write!(text, " ready")?;
        }
        for held in &self.held {
            let answer = unix_socket::readiness(
                &self.words,
                &self.bytes,
                &self.tokens,
                &self.wakes,
                &self.releases,
                size.slots,
                size.capacity,
                *held,
            );
            write!(text, " {}:", Dotted(held.0))?;
            match answer {
                Ok(accepted) => write!(text, "{}", Letters(accepted.value))?,
                // A number that is no readiness.
                Err(no) => write!(text, "{}", u64::from(no.number()) + 100)?,
            }
        }
        Ok(())
    }
}

fn delivered(
    text: &mut String,
    call: &Call,
    accepted: Accepted,
    reply: &Reply,
) -> Result<(), AllocError> {
    if accepted.value != 0 {
        if call.opens() {
            write!(text, " value {}", Dotted(accepted.value))?;
        } else {
            write!(text, " value {}", accepted.value)?;
        }
    }
    let data = first(&reply.data, accepted.value);
    if !data.is_empty() {
        write!(text, " data {}", Delivered(data))?;
    }
    let items = first(&reply.items, accepted.items);
    if !items.is_empty() {
        write!(text, " items {}", Runs(items))?;
    }
    if accepted.flags != 0 {
        write!(text, " flags {}", accepted.flags)?;
    }
    Ok(())
}

// The first `count`, or all where there are fewer.
fn first<T>(list: &[T], count: u64) -> &[T] {
    list.get(..count as usize).unwrap_or(list)
}
