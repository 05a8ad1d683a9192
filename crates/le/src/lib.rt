// Numbers in lent bytes, the least byte first, at a place that the caller has tested.
#![tactic(auto)]

ghost use Rattle.std.specs.Prelude.{◌≡◌, refl, ℕ, ◌+◌, ◌<◌, ◌≤◌, ◌^◌, length};
ghost use Rattle.std.proofs.lemmas.List.Edits.{sets};
ghost use Rattle.std.specs.Int.{w32};
ghost use Rattle.std.proofs.Common.{to_z, of_z};
ghost use Rattle.std.proofs.lemmas.Int.{of_z-to_z};
ghost use Rattle.le.specs.Le.{le, bytes};

/// A number that lies in N bytes.
pub trait LittleEndian<const N: usize>: Copy {
    // The number that has these bits.
    ghost number: { ℕ → Self };

    // The bits of a number.
    ghost bits: { Self → ℕ };

    fn from_bytes(stored: &[u8; N]) -> Self
        ensures { result ≡ number (le N stored.now 0) };

    fn to_bytes(self) -> [u8; N]
        ensures { result ≡ bytes N (bits self) };

    // What was read is stored as it lay.
    ghost same_bits: { (n : ℕ) → n < 256 ^ N → bits (number n) ≡ n };
}

// Stays: a place as a number. A part of N bytes, cut out by each caller, is no plainer, since the cut asks the same.
pub fn get<T: LittleEndian<N>, const N: usize>(s: &[u8], at: usize) -> T
    requires { at + N ≤ length s.now }
    ensures { result ≡ T.number (le N s.now at) }
{
    T::from_bytes(s[at..].first_chunk().unwrap())
}

pub fn put<T: LittleEndian<N>, const N: usize>(s: &mut [u8], at: usize, value: T)
    requires { at + N ≤ length s.old }
    ensures { s.new ≡ sets s.old at (bytes N (T.bits value)) }
{
    s[at..at + N].copy_from_slice(&value.to_bytes());
}

impl LittleEndian<2> for u16 {
    ghost number = { λ n. n };

    ghost bits = { λ n. n };

    #[tactic(auto, using(crate::proofs::Widths::reads))]
    fn from_bytes(stored: &[u8; 2]) -> u16 {
        u16::from_le_bytes(*stored)
    }

    #[tactic(auto, using(crate::proofs::Widths::stores))]
    fn to_bytes(self) -> [u8; 2] {
        u16::to_le_bytes(self)
    }

    ghost same_bits = { λ n h. refl };
}

impl LittleEndian<4> for u32 {
    ghost number = { λ n. n };

    ghost bits = { λ n. n };

    #[tactic(auto, using(crate::proofs::Widths::reads))]
    fn from_bytes(stored: &[u8; 4]) -> u32 {
        u32::from_le_bytes(*stored)
    }

    #[tactic(auto, using(crate::proofs::Widths::stores))]
    fn to_bytes(self) -> [u8; 4] {
        u32::to_le_bytes(self)
    }

    ghost same_bits = { λ n h. refl };
}

impl LittleEndian<8> for u64 {
    ghost number = { λ n. n };

    ghost bits = { λ n. n };

    #[tactic(auto, using(crate::proofs::Widths::reads))]
    fn from_bytes(stored: &[u8; 8]) -> u64 {
        u64::from_le_bytes(*stored)
    }

    #[tactic(auto, using(crate::proofs::Widths::stores))]
    fn to_bytes(self) -> [u8; 8] {
        u64::to_le_bytes(self)
    }

    ghost same_bits = { λ n h. refl };
}

impl LittleEndian<4> for i32 {
    ghost number = { to_z w32 };

    ghost bits = { of_z w32 };

    #[tactic(auto, using(crate::proofs::Widths::reads_signed))]
    fn from_bytes(stored: &[u8; 4]) -> i32 {
        i32::from_le_bytes(*stored)
    }

    fn to_bytes(self) -> [u8; 4] {
        i32::to_le_bytes(self)
    }

    ghost same_bits = { of_z-to_z w32 };
}
