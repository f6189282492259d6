// The script that a session is driven by: where a record ends, and what it asks. Nothing here reads a session.
#![tactic(auto)]

ghost use Rattle.std.specs.Prelude.{◌+◌, ◌*◌, ◌^◌, ◌<◌, ◌≤◌, ◌≡◌, None, length, get_or};
ghost use Rattle.script.specs.Records.{le, longest, record_size, record_lacks, right_length};
ghost use Rattle.script.specs.Records.{params_from, body_from, message_from, call_from, asked, rest_start, rest_of};

use params::SessionParams;
use wire::{Body, ByeBody, DigestBody, HelloBody, InputsBody, Message};

// A payload length and a kind stand before each payload.
pub const HEADER: usize = 4;

// The longest record: a header and as long a payload as its length can say.
pub const LONGEST: usize = 65539;

// What is asked of the session that stands.
#[derive(Clone, Copy, Debug, PartialEq, Eq)]
pub enum Call {
    Submit,
    Deliver { source: u8, message: Message },
    Advance,
    Commit { tick: u64, digest: Option<u64> },
    Leave,
    Pump,
    Report,
}

#[derive(Clone, Copy, Debug, PartialEq, Eq)]
pub enum Asked {
    Bad,
    Open(SessionParams),
    Of(Call),
}

// A byte, 0 past the end.
fn byte_at(s: &[u8], at: usize) -> u8
    ensures { result ≡ get_or s.now at 0 }
{
    s.get(at).copied().unwrap_or(0)
}

// A little-endian number of n bytes.
fn le(s: &[u8], at: usize, n: usize) -> u64
    requires { (n ≤ 8) × (at + n ≤ 65535) }
    ensures value { result ≡ le s.now at n }
    ensures fits_bytes { result < 2 ^ (8 * n) }
{
    let mut value = 0;
    for i in (0..n).rev() {
        value = u64::from(byte_at(s, at + i)) + value * 256;
    }
    value
}

// How many bytes the first record has, once all of them are there.
pub fn record_size(bytes: &[u8]) -> Option<usize>
    ensures value { result ≡ record_size bytes.now }
    ensures short_if_lacking { result ≡ None → length bytes.now < longest }
{
    let have = bytes.len();
    if have < HEADER {
        return None;
    }
    let size = HEADER + le(bytes, 0, 2) as usize;
    if have < size {
        return None;
    }
    Some(size)
}

// How many bytes a record that has begun waits for: those of its header, and then those of its payload.
pub fn record_lacks(bytes: &[u8]) -> usize
    ensures value { result ≡ record_lacks bytes.now }
    ensures within_longest { record_size bytes.now ≡ None → length bytes.now + result ≤ longest }
{
    let have = bytes.len();
    if have < HEADER {
        return HEADER - have;
    }
    let size = HEADER + le(bytes, 0, 2) as usize;
    size.saturating_sub(have)
}

// A kind that there is, with a length that it can have.
fn right_length(kind: u64, length: usize) -> bool
    ensures { result ≡ right_length kind length }
{
    match kind {
        1 => length == 37,
        2 => true,
        3 => length == 46,
        4 => (20..=148).contains(&length),
        5 => length == 34,
        6 => length == 18,
        7 => length == 11,
        8 => length == 0,
        9 => length == 17,
        10..=12 => length == 0,
        _ => false,
    }
}

fn params_from(p: &[u8]) -> SessionParams
    ensures { result ≡ params_from p.now }
{
    SessionParams {
        count: byte_at(p, 0),
        local: byte_at(p, 1),
        width: byte_at(p, 2),
        delay: byte_at(p, 3),
        period: byte_at(p, 4),
        seed: le(p, 5, 8),
        content: le(p, 13, 8),
        rules: le(p, 21, 8),
        session: le(p, 29, 8),
    }
}

fn body_from(kind: u64, p: &[u8]) -> Body
    ensures { result ≡ body_from kind p.now }
{
    match kind {
        3 => Body::Hello(HelloBody {
            agreement: le(p, 10, 8),
            content: le(p, 18, 8),
            rules: le(p, 26, 8),
            seed: le(p, 34, 8),
            count: byte_at(p, 42),
            width: byte_at(p, 43),
            delay: byte_at(p, 44),
            period: byte_at(p, 45),
        }),
        4 => Body::Inputs(InputsBody {
            first: le(p, 10, 8),
            count: byte_at(p, 18),
            width: byte_at(p, 19),
        }),
        5 => Body::Digest(DigestBody {
            tick: le(p, 10, 8),
            state: le(p, 18, 8),
            input: le(p, 26, 8),
        }),
        6 => Body::Bye(ByeBody { tick: le(p, 10, 8) }),
        _ => Body::Other(byte_at(p, 10)),
    }
}

fn message_from(kind: u64, p: &[u8]) -> Message
    ensures { result ≡ message_from kind p.now }
{
    Message {
        sender: byte_at(p, 1),
        session: le(p, 2, 8),
        body: body_from(kind, p),
    }
}

fn call_from(kind: u64, p: &[u8]) -> Call
    ensures { result ≡ call_from kind p.now }
{
    match kind {
        2 => Call::Submit,
        3..=7 => Call::Deliver {
            source: byte_at(p, 0),
            message: message_from(kind, p),
        },
        8 => Call::Advance,
        9 => Call::Commit {
            tick: le(p, 0, 8),
            digest: (byte_at(p, 8) != 0).then_some(le(p, 9, 8)),
        },
        10 => Call::Leave,
        11 => Call::Pump,
        _ => Call::Report,
    }
}

// What a whole record asks.
pub fn asked_by(bytes: &[u8]) -> Asked
    ensures { result ≡ asked bytes.now }
{
    if bytes.len() < HEADER {
        return Asked::Bad;
    }
    let kind = le(bytes, 2, 2);
    let payload = &bytes[HEADER..];
    if !right_length(kind, payload.len()) {
        return Asked::Bad;
    }
    if kind == 1 {
        return Asked::Open(params_from(payload));
    }
    Asked::Of(call_from(kind, payload))
}

// Where in a record of n bytes that begins.
fn rest_start(kind: u64, n: usize) -> usize
    ensures { result ≡ rest_start kind n }
{
    match kind {
        2 => HEADER.min(n),
        4 => (HEADER + 20).min(n),
        _ => n,
    }
}

// What goes beside a call: the bytes of a submit, the run of an Inputs.
pub fn rest_of(bytes: &[u8]) -> &[u8]
    ensures { result.now ≡ rest_of bytes.now }
{
    let from = rest_start(le(bytes, 2, 2), bytes.len());
    &bytes[from..]
}
