// Who sits where, and where a tick is kept: sets of seats, a bit for each, and the cells of the two rings.
#![tactic(auto)]

ghost use Rattle.std.specs.Prelude.{◌≡◌};
ghost use Rattle.peer.specs.Cells.{slot_of, digest_slot_of};
ghost use Rattle.peer.specs.Seats.{seats, has, first_seats, adding, removing, less, is_empty, is_subset, seat_count};

// How many seats there are at most, and what holds a set of them: a bit for each.
pub const SEATS: u8 = 8;

pub type Bits = u8;

const ONE: Bits = 1;

#[derive(Clone, Copy, Debug, PartialEq, Eq)]
pub struct PeerSet(pub Bits);

impl PeerSet {
    // The first `count` seats: all of them from SEATS on.
    pub fn of_count(count: u8) -> PeerSet
        ensures { result.0 ≡ first_seats seats count }
    {
        if count < SEATS {
            let next = ONE << count;
            let below = next - 1;
            PeerSet(below)
        } else {
            PeerSet(!0)
        }
    }

    pub fn contains(self, seat: u8) -> bool
        ensures { result ≡ has self.0 seat }
    {
        if seat < SEATS {
            let mask = ONE << seat;
            self.0 & mask != 0
        } else {
            false
        }
    }

    pub fn with(self, seat: u8) -> PeerSet
        ensures { result.0 ≡ adding seats self.0 seat }
    {
        if seat < SEATS {
            let mask = ONE << seat;
            PeerSet(self.0 | mask)
        } else {
            self
        }
    }

    pub fn without(self, seat: u8) -> PeerSet
        ensures { result.0 ≡ removing seats self.0 seat }
    {
        if seat < SEATS {
            let mask = ONE << seat;
            PeerSet(self.0 & !mask)
        } else {
            self
        }
    }

    pub fn without_all(self, other: PeerSet) -> PeerSet
        ensures { result.0 ≡ less seats self.0 other.0 }
    {
        PeerSet(self.0 & !other.0)
    }

    pub fn is_empty(self) -> bool
        ensures { result ≡ is_empty seats self.0 }
    {
        self.0 == 0
    }

    // Every seat of this set is in `other`.
    pub fn subset(self, other: PeerSet) -> bool
        ensures { result ≡ is_subset seats self.0 other.0 }
    {
        self.0 & !other.0 == 0
    }

    pub fn count(self) -> u32
        ensures { result ≡ seat_count seats self.0 }
    {
        self.0.count_ones()
    }

    pub fn bits(self) -> Bits
        ensures { result ≡ self.0 }
    {
        let PeerSet(bits) = self;
        bits
    }
}

// How many ticks the window holds, from pending on, and how many fingerprints are kept of each seat. Both are powers of
// two, so that a mask finds a tick's cell.
pub const WINDOW: u64 = 64;

pub const HISTORY: u64 = 16;

const WINDOW_MASK: u64 = 63;

const HISTORY_MASK: u64 = 15;

// The window's cell of a tick.
pub fn slot(tick: u64) -> usize
    ensures { result ≡ slot_of tick }
{
    (tick & WINDOW_MASK) as usize
}

// The fingerprints' cell of a tick.
pub fn digest_slot(tick: u64) -> usize
    ensures { result ≡ digest_slot_of tick }
{
    (tick & HISTORY_MASK) as usize
}
