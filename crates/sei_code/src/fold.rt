//! The running state of a code, for callers whose bytes come in pieces.
ghost use Rattle.std.specs.Prelude.{◌≡◌};
ghost use Rattle.std.specs.Int.{w64, to_be_bytes};
ghost use Rattle.sei_code.specs.Codes.{offset_basis, fnv_byte, fnv_from};

/// FNV's offset basis for 64 bits, the state before the first byte.
const OFFSET_BASIS: u64 = 0xcbf2_9ce4_8422_2325;

/// FNV's prime for 64 bits.
const PRIME: u64 = 0x100_0000_01b3;

/// An unfinished code, by FNV-1a with 64 bits (Fowler, Noll and Vo).
#[derive(Clone, Copy, Debug, PartialEq, Eq)]
pub struct Fold {
    /// The code of the bytes so far.
    pub state: u64,
}

impl Fold {
    /// The code of no bytes.
    pub fn new() -> Fold
        ensures { result.state ≡ offset_basis }
    {
        Fold {
            state: OFFSET_BASIS,
        }
    }

    /// Takes one byte: the state is xored with it and then multiplied by the prime.
    pub fn byte(&mut self, b: u8)
        ensures { self.new.state ≡ fnv_byte self.old.state b }
    {
        self.state = (self.state ^ b as u64).wrapping_mul(PRIME);
    }

    /// Takes the bytes in their order.
    pub fn bytes(&mut self, bytes: &[u8])
        ensures { self.new.state ≡ fnv_from self.old.state bytes.now }
    {
        for b in bytes {
            self.byte(*b);
        }
    }

    /// Takes the eight bytes of the word, the most significant first.
    pub fn word(&mut self, w: u64)
        ensures { self.new.state ≡ fnv_from self.old.state (to_be_bytes w64 w) }
    {
        self.bytes(&w.to_be_bytes());
    }

    /// The code of all that was taken.
    pub fn finish(&self) -> u64
        ensures { result ≡ self.now.state }
    {
        self.state
    }
}

impl Default for Fold {
    ghost is_default = { λ fold. fold.state ≡ offset_basis };

    fn default() -> Fold {
        Fold::new()
    }
}
