// The calls that need no table: addresses, message headers, control bytes.
ghost use Rattle.std.specs.Prelude.{◌≡◌};
ghost use Rattle.utf8.specs.Syntax.{is_utf8};
ghost use Rattle.address.specs.Address.{length_of, Wrote};
ghost use Rattle.abi.specs.Header.{message_of, iovec_count_of, control_len_of};
ghost use Rattle.abi.specs.Size.{align_of, len_of, space_of, rights_space_of, rights_of, rights_count_of};
ghost use Rattle.abi.specs.Shutdown.{how_of};
ghost use Rattle.syscall.specs.Control.{capacity_of};
ghost use Rattle.syscall.specs.Promise.{Parsed, Encoded, SendParsed, recv_capacity_of};
ghost use Rattle.eidrovang.specs.Numbers.{numbers, Shown, header_numbers, asked, how_number, count_number, header_of, Told, Answered};

use abi::{CmsgHdr, MsgHdr, ShutdownHow};
use address::SockAddrUn;
use words::Errno;

// 01's number, and the value where it is 0.
// Stays: the C interface, structs by value, this and the two after it.
#[repr(C)]
#[derive(Clone, Copy)]
pub struct EidNumber {
    pub refusal: u32,
    pub value: u64,
}

// Where the path stands in an address.
#[repr(C)]
#[derive(Clone, Copy, Default)]
pub struct EidPath {
    pub refusal: u32,
    pub start: usize,
    pub length: usize,
}

// A control header's three fields.
#[repr(C)]
#[derive(Clone, Copy, Default)]
pub struct EidHeader {
    pub refusal: u32,
    pub cmsg_level: i32,
    pub cmsg_type: i32,
    pub cmsg_len: u64,
}

#[unsafe(no_mangle)]
pub extern "C" fn eid_is_utf8(bytes: &[u8]) -> bool
    ensures { result ≡ is_utf8 bytes.now }
{
    utf8::is_utf8(bytes)
}

#[unsafe(no_mangle)]
pub extern "C" fn eid_address_new(path: &[u8], addr: &mut [u8]) -> u32
    ensures { Told (Wrote path.now addr.old addr.new) result }
{
    words::refusal(SockAddrUn::new(path, addr))
}

#[unsafe(no_mangle)]
pub extern "C" fn eid_address_len(addr: &[u8]) -> EidNumber
    ensures { result ≡ numbers (length_of addr.now) }
{
    SockAddrUn::len(addr).into()
}

#[unsafe(no_mangle)]
pub extern "C" fn eid_address_path(addr: &[u8]) -> EidPath
    ensures { Shown addr.now result }
{
    // Stays: the one place that makes an `EidPath`; a `From` is no plainer.
    match SockAddrUn::path(addr) {
        Ok(path) => EidPath {
            refusal: 0,
            start: 2,
            length: path.len(),
        },
        Err(no) => EidPath {
            refusal: no.number(),
            ..EidPath::default()
        },
    }
}

#[unsafe(no_mangle)]
pub extern "C" fn eid_cmsg_align(len: u64) -> EidNumber
    ensures { result ≡ numbers (align_of len) }
{
    CmsgHdr::align(len).into()
}

#[unsafe(no_mangle)]
pub extern "C" fn eid_cmsg_len(data_len: u64) -> EidNumber
    ensures { result ≡ numbers (len_of data_len) }
{
    CmsgHdr::len(data_len).into()
}

#[unsafe(no_mangle)]
pub extern "C" fn eid_cmsg_space(data_len: u64) -> EidNumber
    ensures { result ≡ numbers (space_of data_len) }
{
    CmsgHdr::space(data_len).into()
}

#[unsafe(no_mangle)]
pub extern "C" fn eid_scm_rights_space(fd_count: u64) -> EidNumber
    ensures { result ≡ numbers (rights_space_of fd_count) }
{
    CmsgHdr::scm_rights_space(fd_count).into()
}

#[unsafe(no_mangle)]
pub extern "C" fn eid_scm_rights(fd_count: u64) -> EidHeader
    ensures { result ≡ header_numbers (rights_of fd_count) }
{
    CmsgHdr::scm_rights(fd_count).into()
}

#[unsafe(no_mangle)]
#[tactic(auto, unfolding(crate::specs::Numbers::count_number))]
pub extern "C" fn eid_scm_rights_count(
    cmsg_len: u64,
    cmsg_level: i32,
    cmsg_type: i32,
    control_len: u64,
) -> EidNumber
    ensures { result ≡ numbers (count_number (rights_count_of (header_of cmsg_len cmsg_level cmsg_type) control_len)) }
{
    let hdr = CmsgHdr {
        cmsg_len,
        cmsg_level,
        cmsg_type,
    };
    hdr.scm_rights_count(control_len)
        .ok_or(Errno::EINVAL)
        .into()
}

#[unsafe(no_mangle)]
#[tactic(auto, unfolding(crate::specs::Numbers::asked))]
pub extern "C" fn eid_iovec_count(hdr: &[u8]) -> EidNumber
    ensures { result ≡ numbers (asked iovec_count_of (message_of hdr.now)) }
{
    MsgHdr::read(hdr).and_then(|hdr| hdr.iovec_count()).into()
}

#[unsafe(no_mangle)]
#[tactic(auto, unfolding(crate::specs::Numbers::asked))]
pub extern "C" fn eid_control_len(hdr: &[u8]) -> EidNumber
    ensures { result ≡ numbers (asked control_len_of (message_of hdr.now)) }
{
    MsgHdr::read(hdr).and_then(|hdr| hdr.control_len()).into()
}

#[unsafe(no_mangle)]
#[tactic(auto, unfolding(crate::specs::Numbers::how_number))]
pub extern "C" fn eid_shutdown_how(how: i32) -> EidNumber
    ensures { result ≡ numbers (how_number (how_of how)) }
{
    ShutdownHow::try_from(how)
        .map(|direction| direction as u64)
        .into()
}

#[unsafe(no_mangle)]
pub extern "C" fn eid_parse_scm_rights(control: &[u8], fds: &mut [i32]) -> EidNumber
    ensures { Answered (Parsed control.now fds.old fds.new) result }
{
    syscall::parse_scm_rights(control, fds).into()
}

#[unsafe(no_mangle)]
pub extern "C" fn eid_scm_rights_capacity(controllen: u64) -> u64
    ensures { result ≡ capacity_of controllen }
{
    syscall::scm_rights_capacity(controllen)
}

#[unsafe(no_mangle)]
pub extern "C" fn eid_encode_scm_rights(fds: &[i32], control: &mut [u8]) -> EidNumber
    ensures { Answered (Encoded fds.now control.old control.new) result }
{
    syscall::encode_scm_rights(fds, control).into()
}

#[unsafe(no_mangle)]
pub extern "C" fn eid_sendmsg_control(flags: i32, control: &[u8], fds: &mut [i32]) -> EidNumber
    ensures { Answered (SendParsed flags control.now fds.old fds.new) result }
{
    syscall::sendmsg_control(flags, control, fds).into()
}

#[unsafe(no_mangle)]
pub extern "C" fn eid_recvmsg_capacity(flags: i32, controllen: u64) -> EidNumber
    ensures { result ≡ numbers (recv_capacity_of flags controllen) }
{
    syscall::recvmsg_capacity(flags, controllen).into()
}

impl From<Result<u64, Errno>> for EidNumber {
    ghost from_gives = { λ answer number. number ≡ numbers answer };

    #[tactic(auto, unfolding(crate::specs::Numbers::numbers))]
    fn from(answer: Result<u64, Errno>) -> EidNumber
        ensures { result ≡ numbers answer }
    {
        EidNumber {
            refusal: words::refusal(answer),
            value: words::value(answer),
        }
    }
}

impl From<Result<CmsgHdr, Errno>> for EidHeader {
    ghost from_gives = { λ answer header. header ≡ header_numbers answer };

    #[tactic(auto, unfolding(crate::specs::Numbers::header_numbers))]
    fn from(answer: Result<CmsgHdr, Errno>) -> EidHeader
        ensures { result ≡ header_numbers answer }
    {
        match answer {
            Ok(hdr) => EidHeader {
                refusal: 0,
                cmsg_level: hdr.cmsg_level,
                cmsg_type: hdr.cmsg_type,
                cmsg_len: hdr.cmsg_len,
            },
            Err(no) => EidHeader {
                refusal: no.number(),
                ..EidHeader::default()
            },
        }
    }
}
