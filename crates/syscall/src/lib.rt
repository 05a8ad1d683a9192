// kernel/syscall/src/socket.rs: the SCM_RIGHTS parser and encoder, and the checks of plain
// arguments. Names are the Rust's; docs/DECISIONS.md lists what is left out.
#![tactic(auto)]

ghost use Rattle.std.specs.Prelude.{◌≡◌, ◌+◌, ◌*◌, ◌≤◌, ◌/◌, ◌++◌, length, drop};
ghost use Rattle.std.proofs.lemmas.List.Edits.{sets};
ghost use Rattle.std.specs.Int.{w32};
ghost use Rattle.std.proofs.Common.{to_z, of_z};
ghost use Rattle.le.specs.Le.{le, bytes};
ghost use Rattle.syscall.specs.Arguments.{socket_of};
ghost use Rattle.syscall.specs.Control.{header_at, descriptors_at, header_bytes, descriptor_bytes, capacity_of};
ghost use Rattle.syscall.specs.Promise.{Parsed, Encoded, SendParsed, recv_capacity_of};

use abi::CmsgHdr;
use words::{Descriptor, Errno};

// The checks of `sys_socket`, in its order.
#[tactic(auto, unfolding(crate::specs::Arguments::socket_of), using(words::proofs::Integers::equals_yes, words::proofs::Integers::equals_no))]
pub fn socket_refusal(domain: i32, ty: i32, protocol: i32) -> Result<(), Errno>
    ensures { result ≡ socket_of domain ty protocol }
{
    if domain != abi::AF_UNIX as i32 {
        return Err(Errno::EAFNOSUPPORT);
    }
    if ty != abi::SOCK_STREAM {
        return Err(Errno::EPROTOTYPE);
    }
    if protocol != 0 {
        return Err(Errno::EPROTONOSUPPORT);
    }
    Ok(())
}

// What `sys_sendmsg` asks before the table call: the flags, then the control bytes.
#[tactic(auto, using(words::proofs::Integers::equals_yes, words::proofs::Integers::equals_no))]
pub fn sendmsg_control(flags: i32, control: &[u8], fds: &mut [i32]) -> Result<u64, Errno>
    ensures { SendParsed flags control.now fds.old fds.new result }
{
    if flags != 0 {
        return Err(Errno::EOPNOTSUPP);
    }
    parse_scm_rights(control, fds)
}

// What `sys_recvmsg` asks before the table call: the flags, then how many descriptors fit.
#[tactic(auto, unfolding(crate::specs::Promise::recv_capacity_of), using(words::proofs::Integers::equals_yes, words::proofs::Integers::equals_no))]
pub fn recvmsg_capacity(flags: i32, controllen: u64) -> Result<u64, Errno>
    ensures { result ≡ recv_capacity_of flags controllen }
{
    if flags != 0 {
        return Err(Errno::EOPNOTSUPP);
    }
    Ok(scm_rights_capacity(controllen))
}

// Stays: the C interface: the list is lent, and how many of it are written is answered.
// Bytes after the first header's data are ignored.
pub fn parse_scm_rights(control: &[u8], fds: &mut [i32]) -> Result<u64, Errno>
    ensures { Parsed control.now fds.old fds.new result }
{
    if control.is_empty() {
        return Ok(0);
    }
    if control.len() < 16 {
        return Err(Errno::EINVAL);
    }
    let hdr = read_header(control);
    let Some(n) = hdr.scm_rights_count(control.len() as u64) else {
        return Err(Errno::EINVAL);
    };
    if n > fds.len() as u64 {
        return Err(Errno::SHORT);
    }
    let end = hdr.cmsg_len as usize;
    read_descriptors(&control[16..end], fds);
    Ok(n)
}

#[tactic(auto, unfolding(crate::specs::Control::capacity_of))]
pub fn scm_rights_capacity(controllen: u64) -> u64
    ensures { result ≡ capacity_of controllen }
{
    controllen.saturating_sub(CmsgHdr::BYTES) / CmsgHdr::FD_BYTES
}

pub fn encode_scm_rights(fds: &[i32], control: &mut [u8]) -> Result<u64, Errno>
    ensures { Encoded fds.now control.old control.new result }
{
    let n = fds.len() as u64;
    let room = control.len() as u64;
    if n > scm_rights_capacity(room) {
        return Err(Errno::SHORT);
    }
    if n == 0 {
        return Ok(0);
    }
    let hdr = CmsgHdr::scm_rights(n)?;
    let space = CmsgHdr::scm_rights_space(n)?;
    write_header(control, hdr);
    write_descriptors(fds, control);
    Ok(space.min(room))
}

// Stays: no plainer as a conversion: the three places are `header_at`'s and `header_bytes`'.
#[tactic(auto, unfolding(crate::specs::Control::header_at))]
fn read_header(control: &[u8]) -> CmsgHdr
    requires { 16 ≤ length control.now }
    ensures { result ≡ header_at control.now }
{
    CmsgHdr {
        cmsg_len: le::get(control, 0),
        cmsg_level: le::get(control, 8),
        cmsg_type: le::get(control, 12),
    }
}

#[tactic(auto, using(crate::proofs::Bytes::header_put))]
fn write_header(control: &mut [u8], hdr: CmsgHdr)
    requires { 16 ≤ length control.old }
    ensures { control.new ≡ sets control.old 0 (header_bytes hdr) }
{
    le::put(control, 0, hdr.cmsg_len);
    le::put(control, 8, hdr.cmsg_level);
    le::put(control, 12, hdr.cmsg_type);
}

fn read_descriptor(part: &[u8], at: usize) -> Descriptor
    requires { at + 4 ≤ length part.now }
    ensures { result.0 ≡ to_z w32 (le 4 part.now at) }
{
    Descriptor(le::get(part, at))
}

#[tactic(auto, using(crate::proofs::Bytes::descriptor_put))]
fn write_descriptor(control: &mut [u8], at: usize, fd: Descriptor)
    requires { at + 4 ≤ length control.old }
    ensures { control.new ≡ sets control.old at (bytes 4 (of_z w32 fd.0)) }
{
    le::put(control, at, fd.number());
}

// One descriptor for every four bytes; the entries after them stay.
#[tactic(auto, unfolding(crate::specs::Control::descriptors_at), using(crate::proofs::Bytes::read_all))]
fn read_descriptors(part: &[u8], fds: &mut [i32])
    requires { length part.now / 4 ≤ length fds.old }
    ensures { fds.new ≡ descriptors_at (length part.now / 4) part.now 0 ++ drop (length part.now / 4) fds.old }
{
    for i in 0..part.len() / 4 {
        fds[i] = read_descriptor(part, 4 * i).number();
    }
}

#[tactic(auto, unfolding(crate::specs::Control::descriptor_bytes), using(crate::proofs::Bytes::write_next, crate::proofs::Bytes::written_all))]
fn write_descriptors(fds: &[i32], control: &mut [u8])
    requires { 16 + 4 * length fds.now ≤ length control.old }
    ensures { control.new ≡ sets control.old 16 (descriptor_bytes fds.now) }
{
    for (i, &fd) in fds.iter().enumerate() {
        write_descriptor(control, 16 + 4 * i, Descriptor(fd));
    }
}
