// What every player of a circle must agree on before tick 0: the parameters, their checks and the agreement number.
#![tactic(auto)]

ghost use Rattle.std.specs.Prelude.{◌≡◌};
ghost use Rattle.params.specs.Params.{validity, error_no, bad_state, bad_state_no, check_of};
ghost use Rattle.params.specs.Params.{agreement_of, roster_of, remotes_of};

use hash::StateHash;
use logic::{Numbered, is_outside};
use peer::PeerSet;

// The smallest circle: one reader alone needs no session.
pub const MIN_PEERS: u8 = 2;

// The widest input of one seat and tick, in bytes.
pub const MAX_WIDTH: u8 = 16;

// The longest delay, and the number that the refusal of a longer one carries: a delay is below the window.
pub const MAX_DELAY: u8 = (peer::WINDOW - 1) as u8;

pub const INPUT_WINDOW: u32 = peer::WINDOW as u32;

// What the agreement starts with, so that players of another version of it disagree by number.
const VERSION: u32 = 3;

#[derive(Clone, Copy, Debug, Default, PartialEq, Eq)]
pub struct SessionParams {
    pub count: u8,
    pub local: u8,
    pub width: u8,
    pub delay: u8,
    pub period: u8,
    pub seed: u64,
    pub content: u64,
    pub rules: u64,
    pub session: u64,
}

// Why parameters cannot start a session: the first check that fails, with what it saw.
#[derive(Clone, Copy, Debug, PartialEq, Eq)]
pub enum ParamsError {
    PeerCount { saw: u8, floor: u8, ceiling: u8 },
    LocalNotInRoster { local: u8, count: u8 },
    InputBytes { saw: u8, ceiling: u8 },
    InputDelay { saw: u8, window: u32 },
    DigestPeriodZero,
    SessionZero,
}

impl Numbered for ParamsError {
    ghost number_of = { error_no };

    fn number(self) -> u8 {
        match self {
            ParamsError::PeerCount { .. } => 11,
            ParamsError::LocalNotInRoster { .. } => 12,
            ParamsError::InputBytes { .. } => 13,
            ParamsError::InputDelay { .. } => 14,
            ParamsError::DigestPeriodZero => 15,
            ParamsError::SessionZero => 16,
        }
    }
}

// The parameters fail 11 to 16: every session call over them is refused with this.
#[derive(Clone, Copy, Debug, PartialEq, Eq)]
pub struct BadState;

impl Numbered for BadState {
    ghost number_of = { bad_state_no };

    fn number(self) -> u8 {
        20
    }
}

impl SessionParams {
    pub fn validate(self) -> Result<(), ParamsError>
        ensures { result ≡ validity self }
    {
        if is_outside(self.count, MIN_PEERS, peer::SEATS) {
            return Err(ParamsError::PeerCount {
                saw: self.count,
                floor: MIN_PEERS,
                ceiling: peer::SEATS,
            });
        }
        if self.local >= self.count {
            return Err(ParamsError::LocalNotInRoster {
                local: self.local,
                count: self.count,
            });
        }
        if is_outside(self.width, 1, MAX_WIDTH) {
            return Err(ParamsError::InputBytes {
                saw: self.width,
                ceiling: MAX_WIDTH,
            });
        }
        if self.delay > MAX_DELAY {
            return Err(ParamsError::InputDelay {
                saw: self.delay,
                window: INPUT_WINDOW,
            });
        }
        if self.period == 0 {
            return Err(ParamsError::DigestPeriodZero);
        }
        if self.session == 0 {
            return Err(ParamsError::SessionZero);
        }
        Ok(())
    }

    pub fn bad_state(self) -> bool
        ensures { result ≡ bad_state self }
    {
        self.validate().is_err()
    }

    // `bad_state` as what a call is refused with.
    pub fn check(self) -> Result<(), BadState>
        ensures { result ≡ check_of self }
    {
        if self.bad_state() {
            Err(BadState)
        } else {
            Ok(())
        }
    }

    // The number that every player puts in its Hello. The local seat is left out, as it differs from player to player,
    // and the session number, as another one is refused before the agreement is looked at.
    pub fn agreement(self) -> u64
        ensures { result ≡ agreement_of self }
    {
        StateHash::new()
            .absorb_u32(VERSION)
            .absorb_u64(self.content)
            .absorb_u64(self.rules)
            .absorb_u64(self.seed)
            .absorb_u32(u32::from(self.count))
            .absorb_u32(u32::from(self.width))
            .absorb_u32(u32::from(self.delay))
            .absorb_u32(u32::from(self.period))
            .finish()
    }

    // Every seat of the circle.
    pub fn roster(self) -> PeerSet
        ensures { result.0 ≡ roster_of self }
    {
        PeerSet::of_count(self.count)
    }

    // Every seat but the local one.
    pub fn remotes(self) -> PeerSet
        ensures { result.0 ≡ remotes_of self }
    {
        self.roster().without(self.local)
    }
}
