// What is asked, of either host: which call comes next, and what it is given. The circle has two seats, of which this is
// seat 0, four bytes a tick, and a digest every tick.
ghost use Rattle.std.specs.Prelude.{◌≤◌};

use params::SessionParams;
use wire::{Body, DigestBody, HelloBody, InputsBody, Message};

// This seat's press is the front of this, and so are the other's, of one tick or more.
pub(crate) const PRESSES: [u8; 32] = *b"abcdabcdabcdabcdabcdabcdabcdabcd";

pub(crate) const PAIR: SessionParams = SessionParams {
    count: 2,
    local: 0,
    width: 4,
    delay: 0,
    period: 1,
    seed: 1,
    content: 2,
    rules: 3,
    session: 9,
};

fn hello() -> Body {
    let p = PAIR;
    Body::Hello(HelloBody {
        agreement: p.agreement(),
        content: p.content,
        rules: p.rules,
        seed: p.seed,
        count: p.count,
        width: p.width,
        delay: p.delay,
        period: p.period,
    })
}

fn inputs(first: u64, count: u8) -> Body {
    Body::Inputs(InputsBody {
        first,
        count,
        width: 4,
    })
}

fn digest(tick: u64) -> Body {
    Body::Digest(DigestBody {
        tick,
        state: 6,
        input: 7,
    })
}

fn body(call: u8, pending: u64) -> Body {
    match call {
        b'h' => hello(),
        b'i' => inputs(pending, 1),
        b'e' => inputs(pending, 8),
        b'd' => digest(3),
        _ => digest(0),
    }
}

// The other seat's message.
pub(crate) fn message(call: u8, pending: u64) -> Message {
    Message {
        sender: 1,
        session: 9,
        body: body(call, pending),
    }
}

// How many bytes of the presses go with a call.
pub(crate) fn size(call: u8) -> usize
    ensures { result ≤ 32 }
{
    match call {
        b's' | b'i' => 4,
        b'x' => 5,
        b'e' => 32,
        _ => 0,
    }
}
