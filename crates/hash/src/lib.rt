// The state hash, FNV-1a at 64 bits. It tells whether two players hold the same thing; it keeps no secret.
#![tactic(auto)]

ghost use Rattle.std.specs.Prelude.{◌≡◌, ◌*◌, ◌%◌, ◌^◌};
ghost use Rattle.hash.specs.Fnv.{start, prime, step, fnv, le_bytes};

const START: u64 = 14695981039346656037;

// The prime, 1099511628211, is 2^40 + 435.
const PRIME_SHIFT: u64 = 40;

const PRIME_REST: u64 = 435;

// The base of the two halves of a u64.
const HALF: u64 = 0x1_0000_0000;

// a * b, modulo 2^64, by halves of 32 bits. The product of the two upper halves is a multiple of 2^64, and of the two
// cross products only the lower halves count: the shift drops the rest. Document 01 names this form, halves and the
// supplied wrapping add, so it is not the library's wrapping_mul.
pub fn wrapping_mul(a: u64, b: u64) -> u64
    ensures { result ≡ a * b % 2 ^ 64 }
{
    let a0 = a % HALF;
    let a1 = a / HALF;
    let b0 = b % HALF;
    let b1 = b / HALF;
    let cross = std::num::wrapping_add_u64(a1 * b0, a0 * b1);
    std::num::wrapping_add_u64(a0 * b0, cross << 32)
}

// The value times the prime, modulo 2^64: times its power of two by a shift, of which the high bits fall off, plus times
// the rest of it.
fn times_prime(h: u64) -> u64
    ensures { result ≡ h * prime % 2 ^ 64 }
{
    std::num::wrapping_add_u64(h << PRIME_SHIFT, wrapping_mul(h, PRIME_REST))
}

// A fingerprint in progress. Absorbing hands the next one back, so the order of what goes in is written out as an
// expression.
#[derive(Clone, Copy, Debug, PartialEq, Eq)]
pub struct StateHash {
    pub value: u64,
}

impl StateHash {
    pub fn new() -> Self
        ensures { result.value ≡ start }
    {
        Self { value: START }
    }

    fn absorb_byte(self, byte: u8) -> Self
        ensures { result.value ≡ step self.value byte }
    {
        let h = self.value;
        Self {
            value: times_prime(h ^ u64::from(byte)),
        }
    }

    pub fn absorb_bytes(self, bytes: &[u8]) -> Self
        ensures { result.value ≡ fnv self.value bytes.now }
    {
        let mut h = self;
        for &byte in bytes {
            h = h.absorb_byte(byte);
        }
        h
    }

    pub fn absorb_u64(self, value: u64) -> Self
        ensures { result.value ≡ fnv self.value (le_bytes 8 value) }
    {
        self.absorb_bytes(&u64::to_le_bytes(value))
    }

    pub fn absorb_u32(self, value: u32) -> Self
        ensures { result.value ≡ fnv self.value (le_bytes 4 value) }
    {
        self.absorb_bytes(&u32::to_le_bytes(value))
    }

    pub fn finish(self) -> u64
        ensures { result ≡ self.value }
    {
        self.value
    }
}
