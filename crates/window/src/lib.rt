// The window: every seat's presses for the ticks from pending on, in one flat ring of bytes, with the tick at which
// each cell stands and the seats that it holds. It is lent: no call here copies it.
#![tactic(auto)]

ghost use Rattle.std.specs.Prelude.{◌≡◌};
ghost use Rattle.window.specs.Window.{frame_start, fresh_window, held_by, is_held, standing, write_frame};
ghost use Rattle.window.specs.Absorb.{absorbed, absorb_one, absorb_inputs};

use peer::PeerSet;
use wire::InputsBody;

// A cell for each tick of the window, and in the ring sixteen bytes for each cell of each seat.
pub const SLOTS: usize = peer::WINDOW as usize;

const FRAME: usize = params::MAX_WIDTH as usize;

pub const RING: usize = peer::SEATS as usize * SLOTS * FRAME;

// Arrays side by side, and no array of cells: the definitions have a window as three lists, `written` in
// specs/Window.antt among them.
#[derive(Clone, Copy)]
pub struct Window {
    pub ring: [u8; RING],
    pub ticks: [u64; SLOTS],
    pub present: [peer::Bits; SLOTS],
}

// What stood in a frame's way: the values of the refusal that it may become.
#[derive(Clone, Copy)]
pub enum Note {
    OutOfWindow { tick: u64, pending: u64 },
    Contradiction { peer: u8, tick: u64 },
}

// What a message's frames came to so far, beside the window that they go into: the counter of repeats, the last note
// if any, and whether a frame was written.
#[derive(Clone, Copy)]
pub struct Taken {
    pub repeated: u64,
    pub note: Option<Note>,
    pub wrote: bool,
}

impl Window {
    pub fn new() -> Window
        ensures { result ≡ fresh_window }
    {
        Window {
            ring: [0u8; RING],
            ticks: [logic::MOST; SLOTS],
            present: [0; SLOTS],
        }
    }

    // As a new one, in the place where it stands: a window is too large for a copy on a player's stack.
    pub fn clear(&mut self)
        ensures { self.new ≡ fresh_window }
    {
        self.ring = [0u8; RING];
        self.ticks = [logic::MOST; SLOTS];
        self.present = [0; SLOTS];
    }

    // The seats whose frame for the tick is held: none where the cell stands at another tick.
    pub fn held_by(&self, tick: u64) -> PeerSet
        ensures { result.0 ≡ held_by self.now tick }
    {
        let cell = peer::slot(tick);
        if self.ticks[cell] == tick {
            return PeerSet(self.present[cell]);
        }
        PeerSet(0)
    }

    pub fn holds(&self, seat: u8, tick: u64) -> bool
        ensures { result ≡ is_held self.now seat tick }
    {
        self.held_by(tick).contains(seat)
    }

    // Puts a frame in its cell. What the cell held for another tick is no longer held. A seat above the last has no
    // cell, and a cell takes sixteen bytes.
    pub fn write_frame(&mut self, seat: u8, tick: u64, input: &[u8])
        ensures { self.new ≡ write_frame self.old seat tick input.now }
    {
        let n = input.len();
        if seat >= peer::SEATS || n > FRAME {
            return;
        }
        let set = self.held_by(tick);
        let cell = peer::slot(tick);
        let at = frame_start(seat, tick);
        self.ring[at..at + n].copy_from_slice(input);
        self.ticks[cell] = tick;
        self.present[cell] = set.with(seat).bits();
    }

    // One frame of a message, the body of the loop of `absorb_inputs`. Bytes that are held stand, so those of the
    // message are compared with them; where none are held the message's own stand, and are written.
    fn absorb_one(&mut self, taken: &mut Taken, pending: u64, seat: u8, tick: u64, bytes: &[u8])
        ensures { absorbed self.new taken.new
            ≡ absorb_one (absorbed self.old taken.old) pending seat tick bytes.now }
    {
        if tick < pending {
            return;
        }
        if tick - pending >= peer::WINDOW {
            taken.note = Some(Note::OutOfWindow { tick, pending });
            return;
        }
        let held = self.holds(seat, tick);
        let at = frame_start(seat, tick);
        let stands = stand_for(&self.ring, at, bytes, held);
        if stands != bytes {
            taken.note = Some(Note::Contradiction { peer: seat, tick });
        } else if held {
            taken.repeated = logic::raise(taken.repeated);
        } else {
            self.write_frame(seat, tick, bytes);
            taken.wrote = true;
        }
    }

    // The frames of one message, in order. Of a message whose form is not good it takes what there is: a tick stops at
    // the last number, and a frame past the run's end is empty.
    pub fn absorb_inputs(
        &mut self,
        repeated: u64,
        pending: u64,
        seat: u8,
        inputs: InputsBody,
        run: &[u8],
    ) -> Taken
        ensures { absorbed self.new result
            ≡ absorb_inputs self.old repeated pending seat inputs run.now }
    {
        let n = usize::from(inputs.width);
        let mut taken = Taken {
            repeated,
            note: None,
            wrote: false,
        };
        for i in 0..inputs.count {
            let from = (usize::from(i) * n).min(run.len());
            let to = (from + n).min(run.len());
            let tick = logic::saturating_add(inputs.first, u64::from(i));
            self.absorb_one(&mut taken, pending, seat, tick, &run[from..to]);
        }
        taken
    }
}

// Where the frame of a seat and a tick starts in the ring: past its end for a seat above the last.
pub fn frame_start(seat: u8, tick: u64) -> usize
    ensures { result ≡ frame_start seat tick }
{
    (usize::from(seat) * SLOTS + peer::slot(tick)) * FRAME
}

// The bytes that stand for a seat and tick: as many as the message has at `at` of the ring if they are held, else the
// message's.
fn stand_for<'a>(ring: &'a [u8], at: usize, bytes: &'a [u8], held: bool) -> &'a [u8]
    ensures { result.now ≡ standing held ring.now at bytes.now }
{
    if held {
        let from = at.min(ring.len());
        let to = (from + bytes.len()).min(ring.len());
        return &ring[from..to];
    }
    bytes
}
