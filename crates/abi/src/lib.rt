// kernel/abi/src/socket.rs: shutdown's number, message headers and control headers; addresses are
// the crate `address`.
// Names and order are the Rust's. What it takes as a struct in memory is here read from and
// written to lent bytes; docs/DECISIONS.md lists what is left out.
#![tactic(auto)]

ghost use Rattle.std.specs.Prelude.{◌≡◌};
ghost use Rattle.abi.specs.Header.{message_of, iovec_count_of, control_len_of};
ghost use Rattle.abi.specs.Size.{align_of, len_of, space_of, rights_space_of, rights_of, rights_count_of};
ghost use Rattle.abi.specs.Shutdown.{how_of};

use words::Errno;

pub const AF_UNIX: u16 = 1;

pub const SOCK_STREAM: i32 = 1;

// Tells `shutdown` which direction to close.
#[derive(Clone, Copy, Debug, PartialEq, Eq)]
pub enum ShutdownHow {
    Read = 0,
    Write = 1,
    Both = 2,
}

impl TryFrom<i32> for ShutdownHow {
    type Error = Errno;

    ghost try_from_gives = { λ value result. result ≡ how_of value };

    #[tactic(auto, unfolding(crate::specs::Shutdown::how_of), using(words::proofs::Integers::equals_yes, words::proofs::Integers::equals_no))]
    fn try_from(value: i32) -> Result<ShutdownHow, Errno>
        ensures { result ≡ how_of value }
    {
        match value {
            0 => Ok(ShutdownHow::Read),
            1 => Ok(ShutdownHow::Write),
            2 => Ok(ShutdownHow::Both),
            _ => Err(Errno::EINVAL),
        }
    }
}

pub const SOL_SOCKET: i32 = 1;

pub const SCM_RIGHTS: i32 = 1;
// `msg_flags` bit: there were more items than the list held, and the rest were released.
pub const MSG_CTRUNC: i32 = 8;

pub const MAX_SCM_RIGHTS: u64 = 16;

pub const MAX_IOVEC: u64 = 16;
// `CmsgHdr::scm_rights_space(MAX_SCM_RIGHTS)`, as proofs/Limits.antt shows.
pub const MAX_CONTROL_BYTES: u64 = 80;

// What the checks below ask of a message header's 56 bytes.
#[derive(Clone, Copy, Debug, PartialEq, Eq)]
pub struct MsgHdr {
    pub msg_name: u64,
    pub msg_namelen: u32,
    pub msg_iovlen: u64,
    pub msg_controllen: u64,
}

impl MsgHdr {
    pub const BYTES: usize = 56;

    // Stays: what may not change, since docs/TRACE.md names it.
    #[tactic(auto, unfolding(crate::specs::Header::message_of))]
    pub fn read(hdr: &[u8]) -> Result<MsgHdr, Errno>
        ensures { result ≡ message_of hdr.now }
    {
        if hdr.len() < MsgHdr::BYTES {
            return Err(Errno::SHORT);
        }
        Ok(MsgHdr {
            msg_name: le::get(hdr, 0),
            msg_namelen: le::get(hdr, 8),
            msg_iovlen: le::get(hdr, 24),
            msg_controllen: le::get(hdr, 40),
        })
    }

    // Unix stream sockets carry no name, so a name gives EINVAL.
    #[tactic(auto, unfolding(crate::specs::Header::iovec_count_of))]
    pub fn iovec_count(self) -> Result<u64, Errno>
        ensures { result ≡ iovec_count_of self }
    {
        if self.msg_name != 0 || self.msg_namelen != 0 {
            return Err(Errno::EINVAL);
        }
        if self.msg_iovlen > MAX_IOVEC {
            return Err(Errno::EMSGSIZE);
        }
        Ok(self.msg_iovlen)
    }

    #[tactic(auto, unfolding(crate::specs::Header::control_len_of))]
    pub fn control_len(self) -> Result<u64, Errno>
        ensures { result ≡ control_len_of self }
    {
        if self.msg_controllen > MAX_CONTROL_BYTES {
            return Err(Errno::EINVAL);
        }
        Ok(self.msg_controllen)
    }
}

#[derive(Clone, Copy, Debug, PartialEq, Eq)]
pub struct CmsgHdr {
    pub cmsg_len: u64,
    pub cmsg_level: i32,
    pub cmsg_type: i32,
}

impl CmsgHdr {
    pub const BYTES: u64 = 16;

    pub const FD_BYTES: u64 = 4;

    pub const ALIGN: u64 = 8;

    // `CMSG_ALIGN(len)`: rounds `len` up to a multiple of 8.
    #[tactic(auto, unfolding(crate::specs::Size::align_of, crate::specs::Size::exact), using(crate::proofs::Sizes::up8_is))]
    pub fn align(len: u64) -> Result<u64, Errno>
        ensures { result ≡ align_of len }
    {
        len.checked_next_multiple_of(CmsgHdr::ALIGN)
            .ok_or(Errno::EINVAL)
    }

    // `CMSG_LEN(data_len)`: header plus data, no trailing padding.
    #[tactic(auto, unfolding(crate::specs::Size::len_of, crate::specs::Size::exact))]
    pub fn len(data_len: u64) -> Result<u64, Errno>
        ensures { result ≡ len_of data_len }
    {
        CmsgHdr::BYTES.checked_add(data_len).ok_or(Errno::EINVAL)
    }

    // `CMSG_SPACE(data_len)`: header plus padded data.
    #[tactic(auto, unfolding(crate::specs::Size::space_of, crate::specs::Size::align_of, crate::specs::Size::len_of, crate::specs::Size::exact))]
    pub fn space(data_len: u64) -> Result<u64, Errno>
        ensures { result ≡ space_of data_len }
    {
        CmsgHdr::len(CmsgHdr::align(data_len)?)
    }

    #[tactic(auto, unfolding(crate::specs::Size::rights_space_of, crate::specs::Size::space_of, crate::specs::Size::exact), using(crate::proofs::Sizes::up8_is))]
    pub fn scm_rights_space(fd_count: u64) -> Result<u64, Errno>
        ensures { result ≡ rights_space_of fd_count }
    {
        let data_len = CmsgHdr::FD_BYTES
            .checked_mul(fd_count)
            .ok_or(Errno::EINVAL)?;
        CmsgHdr::space(data_len)
    }

    #[tactic(auto, unfolding(crate::specs::Size::rights_of, crate::specs::Size::len_of, crate::specs::Size::exact))]
    pub fn scm_rights(fd_count: u64) -> Result<CmsgHdr, Errno>
        ensures { result ≡ rights_of fd_count }
    {
        let data_len = CmsgHdr::FD_BYTES
            .checked_mul(fd_count)
            .ok_or(Errno::EINVAL)?;
        Ok(CmsgHdr {
            cmsg_len: CmsgHdr::len(data_len)?,
            cmsg_level: SOL_SOCKET,
            cmsg_type: SCM_RIGHTS,
        })
    }

    // The descriptor count of an `SCM_RIGHTS` header read from a control buffer of `control_len`
    // bytes. `None` when the level or type is different, the length leaves the buffer, or the data
    // is not whole descriptors.
    #[tactic(auto, unfolding(crate::specs::Size::rights_count_of), using(words::proofs::Integers::equals_yes, words::proofs::Integers::equals_no))]
    pub fn scm_rights_count(self, control_len: u64) -> Option<u64>
        ensures { result ≡ rights_count_of self control_len }
    {
        if self.cmsg_level != SOL_SOCKET
            || self.cmsg_type != SCM_RIGHTS
            || self.cmsg_len > control_len
        {
            return None;
        }
        let data_len = self.cmsg_len.checked_sub(CmsgHdr::BYTES)?;
        data_len
            .is_multiple_of(CmsgHdr::FD_BYTES)
            .then_some(data_len / CmsgHdr::FD_BYTES)
    }
}
