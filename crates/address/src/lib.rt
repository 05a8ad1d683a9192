// Addresses, the `SockAddrUn` of kernel/abi/src/socket.rs. What the Rust takes as a struct in memory
// is here read from and written to lent bytes.
#![tactic(auto)]

ghost use Rattle.std.specs.Prelude.{◌≡◌, MatchResult};
ghost use Rattle.address.specs.Address.{Address, address_of, path_in, refusal_in, length_of, Wrote, up_to_zero};

use words::Errno;

pub const SUN_PATH_MAX: usize = 108;

// The POSIX `sockaddr_un` layout in lent bytes: the family in bytes 0 and 1, then 108 bytes of
// path, which a zero ends.
#[derive(Clone, Copy)]
pub struct SockAddrUn {}

impl SockAddrUn {
    pub const BYTES: usize = 110;

    // Writes the address of `path` into the first 110 bytes of `addr`.
    #[tactic(auto, using(crate::proofs::Addresses::no_room, crate::proofs::Addresses::long_path, crate::proofs::Addresses::bad_path))]
    pub fn new(path: &[u8], addr: &mut [u8]) -> Result<(), Errno>
        ensures { Wrote path.now addr.old addr.new result }
    {
        if addr.len() < SockAddrUn::BYTES {
            return Err(Errno::SHORT);
        }
        if SUN_PATH_MAX <= path.len() {
            return Err(Errno::ENAMETOOLONG);
        }
        if !utf8::is_utf8(path) {
            return Err(Errno::EINVAL);
        }
        le::put(addr, 0, abi::AF_UNIX);
        let end = 2 + path.len();
        addr[2..end].copy_from_slice(path);
        addr[end..SockAddrUn::BYTES].fill(0);
        Ok(())
    }

    // The byte count the kernel reads: the family, the path, and its zero.
    #[tactic(auto, unfolding(crate::specs::Address::length_of))]
    pub fn len(addr: &[u8]) -> Result<u64, Errno>
        ensures { result ≡ length_of addr.now }
    {
        if addr.len() < SockAddrUn::BYTES {
            return Err(Errno::SHORT);
        }
        let path = before_zero(&addr[2..SockAddrUn::BYTES]);
        Ok((2 + path.len() + 1) as u64)
    }

    // The path inside `addr`, cut at the first zero: a part of the lent address itself; or why it
    // has none.
    #[tactic(auto, unfolding(crate::specs::Address::address_of))]
    pub fn path(addr: &[u8]) -> Result<&[u8], Errno>
        ensures { MatchResult result (λ p. address_of addr.now ≡ Address.path p.now) (λ e. address_of addr.now ≡ Address.refused e) }
    {
        if addr.len() < 2 {
            return Err(Errno::EINVAL);
        }
        if le::get::<u16, 2>(addr, 0) != abi::AF_UNIX {
            return Err(Errno::EAFNOSUPPORT);
        }
        let path = before_zero(&addr[2..]);
        if path.is_empty() || !utf8::is_utf8(path) {
            return Err(Errno::EINVAL);
        }
        Ok(path)
    }

    // The same part, empty where the address is refused.
    // Stays: what may not change, since it could not fail. `path` is today's form of it.
    #[tactic(auto, unfolding(crate::specs::Address::path_in))]
    pub fn path_of(addr: &[u8]) -> &[u8]
        ensures { result.now ≡ path_in (address_of addr.now) }
    {
        SockAddrUn::path(addr).unwrap_or(&addr[0..0])
    }

    // Why an address has no path.
    #[tactic(auto, unfolding(crate::specs::Address::refusal_in))]
    pub fn path_refusal(addr: &[u8]) -> Result<(), Errno>
        ensures { result ≡ refusal_in (address_of addr.now) }
    {
        SockAddrUn::path(addr)?;
        Ok(())
    }
}

// The bytes before the first zero, or all of them.
fn before_zero(s: &[u8]) -> &[u8]
    ensures { result.now ≡ up_to_zero s.now }
{
    match s.iter().position(|&b| b == 0) {
        Some(n) => &s[..n],
        None => s,
    }
}
