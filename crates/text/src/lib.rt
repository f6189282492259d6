// The byte writer: pieces, decimals and hex digits go behind a text in fixed memory. What does not fit is dropped.
#![tactic(auto)]

ghost use Rattle.std.specs.Prelude.{◌≡◌, ◌<◌, ◌≤◌, ℕ, List, [], ◌∷◌, length, take};
ghost use Rattle.text.specs.Text.{put_within, Copies};
ghost use Rattle.text.specs.Decimal.{decimal};
ghost use Rattle.text.specs.Hex.{hex_digit, hex_byte, hex16, hex_bytes};

use std::marker::Model;

// The longest text.
pub const LIMIT: usize = 2048;

// A text of at most N bytes.
#[derive(Drop)]
pub struct Buffer<const N: usize> {
    bytes: [u8; N],
    len: usize,
}

pub type Text = Buffer<LIMIT>;

// A lent buffer is shorter than the text.
#[derive(Clone, Copy, Debug, PartialEq, Eq)]
pub struct NoRoom;

// Clauses see the text.
impl<const N: usize> Model for Buffer<N> {
    ghost Value = { List ℕ };

    ghost view = { λ b. take b.len b.bytes };
}

impl<const N: usize> Buffer<N> {
    pub fn new() -> Self
        ensures { result ≡ [] }
    {
        Self {
            bytes: [0; N],
            len: 0,
        }
    }

    pub fn clear(&mut self)
        ensures { self.new ≡ [] }
    {
        self.len = 0;
    }

    pub fn len(&self) -> usize
        ensures length { result ≡ length self.now }
        ensures within { result ≤ N }
    {
        self.len.min(N)
    }

    pub fn as_bytes(&self) -> &[u8]
        ensures { result.now ≡ self.now }
    {
        &self.bytes[..self.len.min(N)]
    }

    pub fn piece(&mut self, s: &[u8])
        ensures { self.new ≡ put_within N self.old s.now }
    {
        let from = self.len.min(N);
        let n = s.len().min(N - from);
        let all = &mut self.bytes[..];
        all[from..from + n].copy_from_slice(&s[..n]);
        self.len = from + n;
    }

    pub fn byte(&mut self, b: u8)
        ensures { self.new ≡ put_within N self.old (b ∷ []) }
    {
        if self.len < N {
            self.bytes[self.len] = b;
            self.len += 1;
        }
    }

    // A number, without leading zeros.
    pub fn decimal(&mut self, n: u64)
        ensures { self.new ≡ put_within N self.old (decimal n) }
    {
        if n >= 10 {
            self.decimal(n / 10);
        }
        self.byte(b'0' + (n % 10) as u8);
    }

    // Sixteen lower-case digits.
    pub fn hex16(&mut self, n: u64)
        ensures { self.new ≡ put_within N self.old (hex16 n) }
    {
        self.hex_bytes(&n.to_be_bytes());
    }

    // Two lower-case digits for each byte.
    pub fn hex_bytes(&mut self, s: &[u8])
        ensures { self.new ≡ put_within N self.old (hex_bytes s.now) }
    {
        // Nothing runs here: by its fields a text is no longer than N, so to put nothing behind it leaves it.
        let _ = &self.len;
        for &b in s {
            self.hex_byte(b);
        }
    }

    fn hex_byte(&mut self, b: u8)
        ensures { self.new ≡ put_within N self.old (hex_byte b) }
    {
        self.byte(hex_digit(b / 16));
        self.byte(hex_digit(b % 16));
    }

    // The text at the front of `out`, if `out` has room for all of it.
    pub fn copy_out(&self, out: &mut [u8]) -> Result<usize, NoRoom>
        ensures { Copies self.now out.old result out.new }
    {
        let text = self.as_bytes();
        let n = text.len();
        if out.len() < n {
            return Err(NoRoom);
        }
        out[..n].copy_from_slice(text);
        Ok(n)
    }
}

// The digit of a number below 16.
fn hex_digit(d: u8) -> u8
    requires { d < 16 }
    ensures { result ≡ hex_digit d }
{
    if d < 10 {
        return b'0' + d;
    }
    b'a' + (d - 10)
}
