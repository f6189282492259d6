// What worlds and inputs hashed to after a tick: the fingerprints of this player and of each other one, sixteen of
// each, and where they part.
#![tactic(auto)]

ghost use Rattle.std.specs.Prelude.{◌≡◌};
ghost use Rattle.fingerprint.specs.Cells.{own_cell, remote_cell, no_prints, cell_at, stored_at, own};
ghost use Rattle.fingerprint.specs.Cells.{remote, with_own, with_remote, of_tick, remote_for};
ghost use Rattle.fingerprint.specs.Judging.{agrees, all_agree, parted, arrival};
ghost use Rattle.fingerprint.specs.LastAgreed.{offer, last_agreed};

use peer::PeerSet;

#[derive(Clone, Copy, PartialEq, Eq)]
pub struct Fingerprint {
    pub tick: u64,
    pub state: u64,
    pub input: u64,
}

// What an arriving print is to its sender's cell.
#[derive(Clone, Copy, PartialEq, Eq)]
pub enum Arrival {
    New,
    Repeated,
    Contradicted,
}

// How many prints are kept of each player, and how many cells that makes: one's own, then those of each seat.
const KEPT: usize = peer::HISTORY as usize;

pub const CELLS: usize = (peer::SEATS as usize + 1) * KEPT;

// A cell is the numbers at one place of each list, with a mark whether they are a print. That they are flat numbers
// with a presence mark, and no `[Option<Fingerprint>; CELLS]`, is document 01's rule.
#[derive(Clone, Copy)]
pub struct Fingerprints {
    pub held: [bool; CELLS],
    pub ticks: [u64; CELLS],
    pub states: [u64; CELLS],
    pub inputs: [u64; CELLS],
}

// The cell's print, where it is the tick's.
fn of_tick(cell: Option<Fingerprint>, tick: u64) -> Option<Fingerprint>
    ensures { result ≡ of_tick tick cell }
{
    cell.filter(|print| print.tick == tick)
}

// The cell's state is that of one's own print, or it holds none: silence counts as agreement. Judging compares states
// alone.
fn agrees(cell: Option<Fingerprint>, mine: Fingerprint) -> bool
    ensures { result ≡ agrees mine.state cell }
{
    cell.is_none_or(|theirs| theirs.state == mine.state)
}

// Where a tick's print is kept, one's own and a seat's. A seat above the last has no cell: it would be past the end.
fn own_cell(tick: u64) -> usize
    ensures { result ≡ own_cell tick }
{
    peer::digest_slot(tick)
}

fn remote_cell(seat: u8, tick: u64) -> usize
    ensures { result ≡ remote_cell seat tick }
{
    (seat as usize + 1) * KEPT + own_cell(tick)
}

impl Fingerprints {
    pub fn new() -> Self
        ensures { result ≡ no_prints }
    {
        Fingerprints {
            held: [false; CELLS],
            ticks: [0; CELLS],
            states: [0; CELLS],
            inputs: [0; CELLS],
        }
    }

    // As new ones, in the place where they stand.
    pub fn clear(&mut self)
        ensures { self.new ≡ no_prints }
    {
        self.held = [false; CELLS];
        self.ticks = [0; CELLS];
        self.states = [0; CELLS];
        self.inputs = [0; CELLS];
    }

    // ---- one cell of the four lists. Past the end nothing is found, and nothing is stored

    fn cell_at(&self, cell: usize) -> Option<Fingerprint>
        ensures { result ≡ cell_at self.now cell }
    {
        if cell < CELLS && self.held[cell] {
            return Some(Fingerprint {
                tick: self.ticks[cell],
                state: self.states[cell],
                input: self.inputs[cell],
            });
        }
        None
    }

    fn store_at(&mut self, cell: usize, print: Fingerprint)
        ensures { self.new ≡ stored_at self.old cell print }
    {
        if cell < CELLS {
            self.held[cell] = true;
            self.ticks[cell] = print.tick;
            self.states[cell] = print.state;
            self.inputs[cell] = print.input;
        }
    }

    // ---- by tick, and by seat

    // One's own cell of a tick as it stands, whatever tick it holds.
    pub fn own(&self, tick: u64) -> Option<Fingerprint>
        ensures { result ≡ own self.now tick }
    {
        self.cell_at(own_cell(tick))
    }

    // The same of a seat.
    fn remote(&self, seat: u8, tick: u64) -> Option<Fingerprint>
        ensures { result ≡ remote self.now seat tick }
    {
        self.cell_at(remote_cell(seat, tick))
    }

    // The seat's print for that very tick.
    pub fn remote_for(&self, seat: u8, tick: u64) -> Option<Fingerprint>
        ensures { result ≡ remote_for self.now seat tick }
    {
        of_tick(self.remote(seat, tick), tick)
    }

    pub fn store_own(&mut self, print: Fingerprint)
        ensures { self.new ≡ with_own self.old print }
    {
        self.store_at(own_cell(print.tick), print);
    }

    pub fn store_remote(&mut self, seat: u8, print: Fingerprint)
        ensures { self.new ≡ with_remote self.old seat print }
    {
        self.store_at(remote_cell(seat, print.tick), print);
    }

    // ---- judging

    // What a seat's print is to the cell that it would go in.
    pub fn arrival_of(&self, seat: u8, print: Fingerprint) -> Arrival
        ensures { result ≡ arrival self.now seat print }
    {
        match self.remote_for(seat, print.tick) {
            None => Arrival::New,
            Some(held) if held == print => Arrival::Repeated,
            Some(_) => Arrival::Contradicted,
        }
    }

    // No remote's print for the tick of one's own has another state.
    fn all_agree(&self, remotes: PeerSet, mine: Fingerprint) -> bool
        ensures { result ≡ all_agree self.now remotes.0 mine.tick mine.state }
    {
        for seat in 0..peer::SEATS {
            if remotes.contains(seat) && !agrees(self.remote_for(seat, mine.tick), mine) {
                return false;
            }
        }
        true
    }

    // One's own state for this tick and a remote's differ.
    pub fn parted(&self, remotes: PeerSet, tick: u64) -> bool
        ensures { result ≡ parted self.now remotes.0 tick }
    {
        of_tick(self.own(tick), tick).is_some_and(|mine| !self.all_agree(remotes, mine))
    }

    // What one of one's own cells can offer as the last tick agreed on below this one.
    fn offer(&self, remotes: PeerSet, tick: u64, cell: usize) -> Option<u64>
        ensures { result ≡ offer self.now remotes.0 tick (cell_at self.now cell) }
    {
        let mine = self.cell_at(cell)?;
        if mine.tick < tick && self.all_agree(remotes, mine) {
            return Some(mine.tick);
        }
        None
    }

    // The last of one's own ticks below this one that no remote's print denies.
    pub fn last_agreed(&self, remotes: PeerSet, tick: u64) -> Option<u64>
        ensures { result ≡ last_agreed self.now remotes.0 tick }
    {
        let mut best = None;
        for cell in 0..KEPT {
            best = best.max(self.offer(remotes, tick, cell));
        }
        best
    }
}
