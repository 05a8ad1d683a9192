// A question, read from the words of a line, and its answer.
ghost use Rattle.std.specs.Prelude.{◌≡◌, IfOk, IfSome, IfNone, string_bytes};
ghost use Rattle.abi.specs.Shutdown.{how_of};
ghost use Rattle.questions.specs.Answers.{number_text, direction_of, one_answer};
ghost use Rattle.questions.specs.Limits.{IsWithinLimits};

use crate::reply;
use abi::{CmsgHdr, MsgHdr, ShutdownHow};
use address::SockAddrUn;
use std::alloc::{AllocError, Global};
use wording::line::Words;
use wording::text::LineError;
use words::Errno;

// What lent bytes hold before a question, and a lent list of descriptors.
const UNTOUCHED: u8 = 0xA5;

const UNTOUCHED_DESCRIPTOR: i32 = -1_515_870_811;

// The most bytes and descriptors that a question is lent.
const MOST_BYTES: usize = 256;

const MOST_DESCRIPTORS: usize = 64;

/// A question with its arguments; `room` is how much it is lent.
#[derive(Drop)]
pub enum Question {
    Align(u64),
    Len(u64),
    Space(u64),
    ScmRightsSpace(u64),
    Capacity(u64),
    Utf8(Vec<u8>),
    PathOf(Vec<u8>),
    AddressLen(Vec<u8>),
    IovecCount(Vec<u8>),
    ControlLen(Vec<u8>),
    NewAddress {
        path: Vec<u8>,
        room: usize,
    },
    Encode {
        descriptors: Vec<i32>,
        room: usize,
    },
    Parse {
        control: Vec<u8>,
        room: usize,
    },
    SendmsgControl {
        flags: i32,
        control: Vec<u8>,
        room: usize,
    },
    ScmRights(u64),
    ScmRightsCount {
        header: CmsgHdr,
        control_len: u64,
    },
    How(i32),
    RecvmsgCapacity {
        flags: i32,
        control_len: u64,
    },
}

// ── Reading ──

// The descriptors that stand in the bytes, four bytes each, the least first.
fn descriptors(alloc: Global, words: &mut Words<'_>) -> Result<Vec<i32>, LineError> {
    let bytes = words.bytes(alloc)?;
    if bytes.len() > 4 * MOST_DESCRIPTORS {
        return Err(LineError::Unreadable);
    }
    let mut descriptors = Vec::new(alloc);
    for four in bytes.chunks_exact(4) {
        descriptors.push(i32::from_le_bytes([four[0], four[1], four[2], four[3]]))?;
    }
    Ok(descriptors)
}

fn header(words: &mut Words<'_>) -> Result<CmsgHdr, LineError> {
    Ok(CmsgHdr {
        cmsg_len: words.parse()?,
        cmsg_level: words.parse()?,
        cmsg_type: words.parse()?,
    })
}

impl Question {
    /// The question of that name with the arguments that follow; none where no question has it.
    pub fn read(
        alloc: Global,
        name: &str,
        words: &mut Words<'_>,
    ) -> Result<Option<Question>, LineError>
        ensures some { IfOk result (λ found. IfSome found IsWithinLimits) }
        ensures none { IfOk result (λ found. IfNone found (words.new ≡ words.old)) }
    {
        Ok(Some(match name {
            "align" => Question::Align(words.parse()?),
            "len" => Question::Len(words.parse()?),
            "space" => Question::Space(words.parse()?),
            "scm_rights_space" => Question::ScmRightsSpace(words.parse()?),
            "capacity" => Question::Capacity(words.parse()?),
            "utf8" => Question::Utf8(words.bytes(alloc)?),
            "path_of" => Question::PathOf(words.bytes(alloc)?),
            "address_len" => Question::AddressLen(words.bytes(alloc)?),
            "iovec_count" => Question::IovecCount(words.bytes(alloc)?),
            "control_len" => Question::ControlLen(words.bytes(alloc)?),
            "new_address" => Question::NewAddress {
                path: words.bytes(alloc)?,
                room: words.up_to(MOST_BYTES)?,
            },
            "encode" => Question::Encode {
                descriptors: descriptors(alloc, words)?,
                room: words.up_to(MOST_BYTES)?,
            },
            "parse" => Question::Parse {
                control: words.bytes(alloc)?,
                room: words.up_to(MOST_DESCRIPTORS)?,
            },
            "sendmsg_control" => Question::SendmsgControl {
                flags: words.parse()?,
                control: words.bytes(alloc)?,
                room: words.up_to(MOST_DESCRIPTORS)?,
            },
            "scm_rights" => Question::ScmRights(words.parse()?),
            "scm_rights_count" => Question::ScmRightsCount {
                header: header(words)?,
                control_len: words.parse()?,
            },
            "how" => Question::How(words.parse()?),
            "recvmsg_capacity" => Question::RecvmsgCapacity {
                flags: words.parse()?,
                control_len: words.parse()?,
            },
            _ => return Ok(None),
        }))
    }

    /// The answer as text.
    pub fn answer(&self, alloc: Global) -> Result<String, AllocError>
        ensures number { IfOk result (λ s. IfSome (one_answer self.now) (λ answer. string_bytes s ≡ number_text answer)) }
    {
        match self {
            Question::Align(len) => one_number(alloc, CmsgHdr::align(*len)),
            Question::Len(len) => one_number(alloc, CmsgHdr::len(*len)),
            Question::Space(len) => one_number(alloc, CmsgHdr::space(*len)),
            Question::ScmRightsSpace(count) => one_number(alloc, CmsgHdr::scm_rights_space(*count)),
            Question::Capacity(len) => one_number(alloc, Ok(syscall::scm_rights_capacity(*len))),
            Question::Utf8(bytes) => one_number(alloc, Ok(u64::from(utf8::is_utf8(bytes)))),
            Question::PathOf(address) => reply::numbers(alloc, path_of(address)),
            Question::AddressLen(address) => one_number(alloc, SockAddrUn::len(address)),
            Question::IovecCount(header) => {
                let count = MsgHdr::read(header).and_then(|header| header.iovec_count());
                one_number(alloc, count)
            }
            Question::ControlLen(header) => {
                let len = MsgHdr::read(header).and_then(|header| header.control_len());
                one_number(alloc, len)
            }
            Question::NewAddress { path, room } => new_address(alloc, path, *room),
            Question::Encode { descriptors, room } => encoded(alloc, descriptors, *room),
            Question::Parse { control, room } => parse(alloc, control, *room),
            Question::SendmsgControl {
                flags,
                control,
                room,
            } => { sendmsg_control(alloc, *flags, control, *room) }
            Question::ScmRights(count) => reply::numbers(alloc, scm_rights(*count)),
            Question::ScmRightsCount {
                header,
                control_len,
            } => {
                let count = header.scm_rights_count(*control_len);
                one_number(alloc, count.ok_or(Errno::EINVAL))
            }
            Question::How(how) => one_number(alloc, direction(*how)),
            Question::RecvmsgCapacity { flags, control_len } => {
                one_number(alloc, syscall::recvmsg_capacity(*flags, *control_len))
            }
        }
    }
}

// ── Answers ──

fn one_number(alloc: Global, answer: Result<u64, Errno>) -> Result<String, AllocError>
    ensures { IfOk result (λ s. string_bytes s ≡ number_text answer) }
{
    format!(in alloc; "{} {}", words::refusal(answer), words::value(answer))
}

// Where the path starts, which is behind the family, and its length.
fn path_of(address: &[u8]) -> Result<[u64; 2], Errno> {
    Ok([2, SockAddrUn::path(address)?.len() as u64])
}

fn scm_rights(count: u64) -> Result<[u64; 3], Errno> {
    let header = CmsgHdr::scm_rights(count)?;
    Ok([
        header.cmsg_len,
        u64::from(header.cmsg_level.cast_unsigned()),
        u64::from(header.cmsg_type.cast_unsigned()),
    ])
}

fn direction(how: i32) -> Result<u64, Errno>
    ensures { result ≡ direction_of (how_of how) }
{
    Ok(ShutdownHow::try_from(how)? as u64)
}

// ── Those that are lent something ──

fn new_address(alloc: Global, path: &[u8], room: usize) -> Result<String, AllocError> {
    let mut address = vec![in alloc; UNTOUCHED; room]?;
    let refusal = SockAddrUn::new(path, &mut address);
    reply::numbers_lent(alloc, refusal.map(|()| []), &address)
}

fn encoded(alloc: Global, descriptors: &[i32], room: usize) -> Result<String, AllocError> {
    let mut control = vec![in alloc; UNTOUCHED; room]?;
    let answer = syscall::encode_scm_rights(descriptors, &mut control);
    reply::numbers_lent(alloc, answer.map(|value| [value]), &control)
}

fn parse(alloc: Global, control: &[u8], room: usize) -> Result<String, AllocError> {
    let mut list = vec![in alloc; UNTOUCHED_DESCRIPTOR; room]?;
    let answer = syscall::parse_scm_rights(control, &mut list);
    lent_list(alloc, answer, &list)
}

fn sendmsg_control(
    alloc: Global,
    flags: i32,
    control: &[u8],
    room: usize,
) -> Result<String, AllocError> {
    let mut list = vec![in alloc; UNTOUCHED_DESCRIPTOR; room]?;
    let answer = syscall::sendmsg_control(flags, control, &mut list);
    lent_list(alloc, answer, &list)
}

fn lent_list(
    alloc: Global,
    answer: Result<u64, Errno>,
    list: &[i32],
) -> Result<String, AllocError> {
    let mut bytes = Vec::new(alloc);
    for descriptor in list {
        bytes.extend_from_slice(&descriptor.to_le_bytes())?;
    }
    reply::numbers_lent(alloc, answer.map(|value| [value]), &bytes)
}
