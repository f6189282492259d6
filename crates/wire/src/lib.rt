// The messages that players send each other, as records, and the reasons for which one is malformed. Whatever can be
// told from a record alone is told here; what depends on the session is the session's.
#![tactic(auto)]

ghost use Rattle.std.specs.Prelude.{◌≡◌};
ghost use Rattle.wire.specs.Wire.{width_form, hello_form, inputs_form, other_form, form_of, reason_no};

use logic::{Numbered, is_outside};

// How many frames an Inputs carries at most: the newest and seven before it.
pub const REDUNDANCY: u8 = 8;

// I am here, and this is what I believe we play. The agreement number decides, the rest explains.
#[derive(Clone, Copy, Debug, PartialEq, Eq)]
pub struct HelloBody {
    pub agreement: u64,
    pub content: u64,
    pub rules: u64,
    pub seed: u64,
    pub count: u8,
    pub width: u8,
    pub delay: u8,
    pub period: u8,
}

// My presses for `count` ticks in a row, of `width` bytes each, in a run of bytes that stands beside the record: frame
// i belongs to tick first + i.
#[derive(Clone, Copy, Debug, PartialEq, Eq)]
pub struct InputsBody {
    pub first: u64,
    pub count: u8,
    pub width: u8,
}

// What my world and my inputs hashed to after a tick.
#[derive(Clone, Copy, Debug, PartialEq, Eq)]
pub struct DigestBody {
    pub tick: u64,
    pub state: u64,
    pub input: u64,
}

// I leave, and this is the last tick that I committed.
#[derive(Clone, Copy, Debug, PartialEq, Eq)]
pub struct ByeBody {
    pub tick: u64,
}

// Other: Chat, Join, Roster and Start as 1 to 4. A session refuses them, so that is all it needs of them.
#[derive(Clone, Copy, Debug, PartialEq, Eq)]
pub enum Body {
    Hello(HelloBody),
    Inputs(InputsBody),
    Digest(DigestBody),
    Bye(ByeBody),
    Other(u8),
}

#[derive(Clone, Copy, Debug, PartialEq, Eq)]
pub struct Message {
    pub sender: u8,
    pub session: u64,
    pub body: Body,
}

// Why a message is malformed, with what was seen.
#[derive(Clone, Copy, Debug, PartialEq, Eq)]
pub enum WireError {
    SenderPastCeiling { saw: u8, ceiling: u8 },
    SessionZero,
    PeerCount { saw: u8, floor: u8, ceiling: u8 },
    InputBytes { saw: u8, ceiling: u8 },
    InputDelay { saw: u8, window: u32 },
    DigestPeriodZero,
    FrameCount { saw: u8, ceiling: u8 },
    RunLength { declared: usize, actual: usize },
    TickOverflow { first: u64, count: u8 },
    UnknownKind { saw: u8 },
}

// Document 01's number of the reason.
impl Numbered for WireError {
    ghost number_of = { reason_no };

    fn number(self) -> u8 {
        match self {
            WireError::SenderPastCeiling { .. } => 1,
            WireError::SessionZero => 2,
            WireError::PeerCount { .. } => 3,
            WireError::InputBytes { .. } => 4,
            WireError::InputDelay { .. } => 5,
            WireError::DigestPeriodZero => 6,
            WireError::FrameCount { .. } => 7,
            WireError::RunLength { .. } => 8,
            WireError::TickOverflow { .. } => 9,
            WireError::UnknownKind { .. } => 10,
        }
    }
}

// Of a Hello and of an Inputs.
fn width_form(width: u8) -> Result<(), WireError>
    ensures { result ≡ width_form width }
{
    if is_outside(width, 1, params::MAX_WIDTH) {
        return Err(WireError::InputBytes {
            saw: width,
            ceiling: params::MAX_WIDTH,
        });
    }
    Ok(())
}

impl HelloBody {
    fn form(self) -> Result<(), WireError>
        ensures { result ≡ hello_form self }
    {
        if is_outside(self.count, params::MIN_PEERS, peer::SEATS) {
            return Err(WireError::PeerCount {
                saw: self.count,
                floor: params::MIN_PEERS,
                ceiling: peer::SEATS,
            });
        }
        width_form(self.width)?;
        if self.delay > params::MAX_DELAY {
            return Err(WireError::InputDelay {
                saw: self.delay,
                window: params::INPUT_WINDOW,
            });
        }
        if self.period == 0 {
            return Err(WireError::DigestPeriodZero);
        }
        Ok(())
    }
}

impl InputsBody {
    fn form(self, length: usize) -> Result<(), WireError>
        ensures { result ≡ inputs_form self length }
    {
        width_form(self.width)?;
        if is_outside(self.count, 1, REDUNDANCY) {
            return Err(WireError::FrameCount {
                saw: self.count,
                ceiling: REDUNDANCY,
            });
        }
        let declared = usize::from(self.count) * usize::from(self.width);
        if length != declared {
            return Err(WireError::RunLength {
                declared,
                actual: length,
            });
        }
        if self.first.checked_add(u64::from(self.count)).is_none() {
            return Err(WireError::TickOverflow {
                first: self.first,
                count: self.count,
            });
        }
        Ok(())
    }
}

fn other_form(kind: u8) -> Result<(), WireError>
    ensures { result ≡ other_form kind }
{
    if is_outside(kind, 1, 4) {
        return Err(WireError::UnknownKind { saw: kind });
    }
    Ok(())
}

impl Message {
    // Whether the message, with its run beside it, has the form of its kind; the reason with the lowest number where it
    // has not.
    pub fn form(self, run: &[u8]) -> Result<(), WireError>
        ensures { result ≡ form_of self run.now }
    {
        if self.sender >= peer::SEATS {
            return Err(WireError::SenderPastCeiling {
                saw: self.sender,
                ceiling: peer::SEATS,
            });
        }
        if self.session == 0 {
            return Err(WireError::SessionZero);
        }
        match self.body {
            Body::Hello(hello) => hello.form(),
            Body::Inputs(inputs) => inputs.form(run.len()),
            Body::Digest(_) | Body::Bye(_) => Ok(()),
            Body::Other(kind) => other_form(kind),
        }
    }
}
