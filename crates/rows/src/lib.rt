// A step's frames, as eight rows of sixteen bytes by value, and what a step hashes.
#![tactic(auto)]

ghost use Rattle.std.specs.Prelude.{◌≡◌, ◌<◌, take};
ghost use Rattle.hash.specs.Fnv.{fnv};
ghost use Rattle.peer.specs.Seats.{seats};
ghost use Rattle.window.specs.Window.{frame_of};
ghost use Rattle.rows.specs.Rows.{padded, rows_of, step_digest};

use hash::StateHash;
use window::Window;

// One for each seat, and the bytes of each.
pub const ROWS: usize = peer::SEATS as usize;

const ROW: usize = params::MAX_WIDTH as usize;

pub type Rows = [[u8; ROW]; ROWS];

// A frame, then zeros.
fn row_of(window: &Window, seat: u8, tick: u64, width: u8) -> [u8; ROW]
    requires { seat < seats }
    ensures { result ≡ padded (frame_of window.now seat tick width) }
{
    let n = usize::from(width).min(ROW);
    let at = window::frame_start(seat, tick);
    let mut row = [0u8; ROW];
    row[..n].copy_from_slice(&window.ring[at..at + n]);
    row
}

// The frames of a tick: for each seat of the roster its frame and then zeros, and zeros for the others.
pub fn rows_at(window: &Window, tick: u64, count: u8, width: u8) -> Rows
    ensures { result ≡ rows_of window.now tick count width }
{
    let mut rows = [[0u8; ROW]; ROWS];
    for seat in 0..count.min(peer::SEATS) {
        rows[usize::from(seat)] = row_of(window, seat, tick, width);
    }
    rows
}

// The first width bytes of a row.
fn absorb_head(h: StateHash, row: &[u8; ROW], width: u8) -> StateHash
    ensures { result.value ≡ fnv h.value (take width row.now) }
{
    let n = usize::from(width).min(ROW);
    h.absorb_bytes(&row[..n])
}

// What a step makes of the digest of the steps before it: the tick goes in, then the frames by rising seat.
pub fn step_digest(digest: u64, tick: u64, rows: Rows, count: u8, width: u8) -> u64
    ensures { result ≡ step_digest digest tick count width rows }
{
    let mut h = StateHash { value: digest }.absorb_u64(tick);
    for row in &rows[..usize::from(count).min(ROWS)] {
        h = absorb_head(h, row, width);
    }
    h.finish()
}
