// The session of one player: what it holds, and the calls its host makes. A call in place is lent the session and
// copies none of it; a call by value takes a whole session and hands the next one back, by the call in place on it.
// `deliver` and `pump` are the crates that bring messages in and out.
#![tactic(auto, unfolding(crate::proofs::Calls::calls))]

ghost use Rattle.std.specs.Prelude.{◌≡◌, false};
ghost use Rattle.params.specs.Params.{bad_state};
ghost use Rattle.window.specs.Window.{held_by};
ghost use Rattle.session.specs.Session.{head_with, session_with, fresh_head, every_seat, over, starts, started};
ghost use Rattle.session.specs.Host.{opened, unopened, submit_head, submit, leave_head, leave};
ghost use Rattle.session.specs.Step.{beside, idle, step_rows, take_step, stall, drain, play_on, advanced_with, advance};
ghost use Rattle.session.specs.Step.{advance_head, mismatch, keep_digest, commit};
ghost use Rattle.session.specs.Numbers.{outcome_no, submit_error_no, advance_no, commit_error_no};
ghost use Rattle.session.specs.declared.SubmitError.TheVariants as SubmitError';
ghost use Rattle.session.specs.declared.CommitError.TheVariants as CommitError';

use fingerprint::{Fingerprint, Fingerprints};
use logic::Numbered;
use params::{BadState, ParamsError, SessionParams};
use peer::PeerSet;
use rows::Rows;
use stats::SessionStats;
use window::Window;

// What stands beside an answer that is no step.
const NO_ROWS: Rows = [[0; params::MAX_WIDTH as usize]; rows::ROWS];

// Why a session ended.
#[derive(Clone, Copy, PartialEq, Eq, Debug)]
pub enum Outcome {
    Desynced { tick: u64 },
    PeerLeft { peer: u8, tick: u64 },
    LeftLocally { tick: u64 },
}

// The step that was handed out and not yet committed, and whether it owes a digest.
#[derive(Clone, Copy, PartialEq, Eq, Debug)]
pub struct Outstanding {
    pub tick: u64,
    pub due: bool,
}

// What the pump sends next.
#[derive(Clone, Copy, PartialEq, Eq, Debug)]
pub enum Emit {
    Hello,
    Inputs,
    Digest,
    Bye,
    Done,
}

// How far the player is.
#[derive(Clone, Copy)]
pub struct Play {
    // the tick that is played next, and the one that the next submit fills
    pub pending: u64,
    pub next_local: u64,
    // the input digest
    pub digest: u64,
    pub step: Option<Outstanding>,
    // the last stalled tick
    pub stalled: u64,
}

// Who is there: the seats that said Hello, those seen playing, and whether this player has started.
#[derive(Clone, Copy)]
pub struct Marks {
    pub hellos: peer::Bits,
    pub playing: peer::Bits,
    pub started: bool,
}

// Where the pump's pass is: its kind, and the seat at which it goes on.
#[derive(Clone, Copy)]
pub struct Pass {
    pub kind: Emit,
    pub place: u8,
}

// All of a session but its arrays.
#[derive(Clone, Copy)]
pub struct Head {
    pub params: SessionParams,
    pub play: Play,
    pub marks: Marks,
    pub pass: Pass,
    // the fingerprint that the pump owes to the others
    pub owed: Option<Fingerprint>,
    pub outcome: Option<Outcome>,
    pub stats: SessionStats,
}

#[derive(Clone, Copy)]
pub struct Session {
    pub head: Head,
    pub window: Window,
    pub prints: Fingerprints,
}

// What a call by value came to: the session that stands after it, and the answer.
#[derive(Clone, Copy)]
pub struct Answered<A> {
    pub session: Session,
    pub answer: A,
}

#[derive(Clone, Copy, PartialEq, Eq, Debug)]
pub enum SubmitError {
    Ended(Outcome),
    BadState,
    WrongWidth { saw: usize, agreed: u8 },
    WindowFull { tick: u64, pending: u64 },
}

#[derive(Clone, Copy, PartialEq, Eq, Debug)]
pub enum CommitError {
    BadState,
    OutOfOrder { saw: u64, expected: u64 },
    DigestMismatch { tick: u64, owed: bool },
}

// A tick to play: every seat of the roster pressed `width` bytes for it, which stand in the rows beside it.
#[derive(Clone, Copy)]
pub struct Step {
    pub tick: u64,
    pub due: bool,
    pub count: u8,
    pub width: u8,
}

// An enum of its own, and no Result: to wait and to stall are no steps, and no refusals.
#[derive(Clone, Copy)]
pub enum Advance {
    Step(Step),
    Waiting,
    Stalled {
        tick: u64,
        waiting: peer::Bits,
        pumps: u64,
    },
    Ended(Outcome),
    BadState,
}

// The rows of a step stand beside its record (document 01); they are zero where the answer is no step.
#[derive(Clone, Copy)]
pub struct Advanced {
    pub session: Session,
    pub answer: Advance,
    pub frames: Rows,
}

impl From<BadState> for SubmitError {
    ghost from_gives = { λ _ e. e ≡ SubmitError'.BadState };

    fn from(_bad: BadState) -> SubmitError {
        SubmitError::BadState
    }
}

impl From<BadState> for CommitError {
    ghost from_gives = { λ _ e. e ≡ CommitError'.BadState };

    fn from(_bad: BadState) -> CommitError {
        CommitError::BadState
    }
}

// ---- document 01's numbers

// A call that gives an outcome says that the session is over.
impl Numbered for Outcome {
    ghost number_of = { outcome_no };

    fn number(self) -> u8 {
        1
    }
}

impl Numbered for SubmitError {
    ghost number_of = { submit_error_no };

    fn number(self) -> u8 {
        match self {
            SubmitError::Ended(outcome) => outcome.number(),
            SubmitError::BadState => 20,
            SubmitError::WrongWidth { .. } => 41,
            SubmitError::WindowFull { .. } => 42,
        }
    }
}

// To wait or to stall is no refusal.
impl Numbered for Advance {
    ghost number_of = { advance_no };

    fn number(self) -> u8 {
        match self {
            Advance::Step(_) | Advance::Waiting | Advance::Stalled { .. } => 0,
            Advance::Ended(outcome) => outcome.number(),
            Advance::BadState => 20,
        }
    }
}

impl Numbered for CommitError {
    ghost number_of = { commit_error_no };

    fn number(self) -> u8 {
        match self {
            CommitError::BadState => 20,
            CommitError::OutOfOrder { .. } => 51,
            CommitError::DigestMismatch { .. } => 52,
        }
    }
}

// ---- what a delivery needs to know too. It stands over values that are no session: a method that sets a mark or an
// outcome would be a call of a host's that skips 20

// Whether a player starts: every seat's Hello is in, and the next local tick exceeds the delay.
pub fn starts(params: SessionParams, hellos: peer::Bits, next_local: u64) -> bool
    ensures { result ≡ starts params hellos next_local }
{
    params.roster().subset(PeerSet(hellos)) && u64::from(params.delay) < next_local
}

// The outcome that stands after a new one: the first stays.
pub fn outcome_after(was: Option<Outcome>, new: Outcome) -> Option<Outcome>
    ensures { result ≡ over was new }
{
    was.or(Some(new))
}

// ---- what a call does to the head

impl Head {
    fn new(params: SessionParams) -> Head
        ensures { result ≡ fresh_head params }
    {
        Head {
            params,
            play: Play {
                pending: 0,
                next_local: 0,
                digest: hash::StateHash::new().finish(),
                step: None,
                stalled: logic::MOST,
            },
            marks: Marks {
                hellos: PeerSet(0).with(params.local).bits(),
                playing: 0,
                started: false,
            },
            pass: Pass {
                kind: Emit::Hello,
                place: 0,
            },
            owed: None,
            outcome: None,
            stats: SessionStats::new(),
        }
    }

    // Starts playing if all is there.
    fn maybe_start(&mut self)
        ensures { self.new ≡ started self.old }
    {
        if starts(self.params, self.marks.hellos, self.play.next_local) {
            self.marks.started = true;
        }
    }

    // Whether a press of so many bytes is taken, and for which tick.
    fn take_press(&mut self, saw: usize) -> Result<u64, SubmitError>
        ensures { head_with self.new result ≡ submit_head self.old saw }
    {
        self.params.check()?;
        if let Some(outcome) = self.outcome {
            return Err(SubmitError::Ended(outcome));
        }
        let agreed = self.params.width;
        if saw != usize::from(agreed) {
            return Err(SubmitError::WrongWidth { saw, agreed });
        }
        let tick = self.play.next_local;
        let pending = self.play.pending;
        if tick.saturating_sub(pending) >= peer::WINDOW {
            return Err(SubmitError::WindowFull { tick, pending });
        }
        self.play.next_local = logic::raise(tick);
        self.maybe_start();
        Ok(tick)
    }

    // Ends the session as left, unless it is over already, and gives the outcome that stands.
    fn leave(&mut self) -> Result<Outcome, BadState>
        ensures { head_with self.new result ≡ leave_head self.old }
    {
        self.params.check()?;
        if let Some(outcome) = self.outcome {
            return Ok(outcome);
        }
        let outcome = Outcome::LeftLocally {
            tick: self.play.pending.saturating_sub(1),
        };
        self.outcome = Some(outcome);
        self.pass = Pass {
            kind: Emit::Bye,
            place: 0,
        };
        Ok(outcome)
    }

    // The pending tick is handed out: its frames are hashed and laid in rows, and it stands out until it is committed.
    fn take_step(&mut self, window: &Window) -> (Advance, Rows)
        requires { bad_state self.old.params ≡ false }
        ensures { beside self.new result.0 result.1 ≡ take_step self.old (step_rows self.old window.now) }
    {
        let tick = self.play.pending;
        let count = self.params.count;
        let width = self.params.width;
        let due = tick % u64::from(self.params.period) == 0;
        let rows = rows::rows_at(window, tick, count, width);
        self.play.digest = rows::step_digest(self.play.digest, tick, rows, count, width);
        self.play.step = Some(Outstanding { tick, due });
        self.play.stalled = logic::MOST;
        let step = Step {
            tick,
            due,
            count,
            width,
        };
        (Advance::Step(step), rows)
    }

    // The pending tick waits for a seat that is not among those held.
    fn stall(&mut self, held: PeerSet) -> Advance
        ensures { idle self.new result ≡ stall self.old held.0 }
    {
        let tick = self.play.pending;
        self.stats = self.stats.stalled(self.play.stalled == tick);
        self.play.stalled = tick;
        Advance::Stalled {
            tick,
            waiting: self.params.roster().without_all(held).bits(),
            pumps: self.stats.stall_pumps,
        }
    }

    // Whether every seat of the roster is among these.
    fn every_seat(&self, set: PeerSet) -> bool
        ensures { result ≡ every_seat self.now set.0 }
    {
        self.params.roster().subset(set)
    }

    // After an outcome that is no desync, what every seat was held for is still played.
    fn drain(&mut self, window: &Window, held: PeerSet, outcome: Outcome) -> (Advance, Rows)
        requires { bad_state self.old.params ≡ false }
        ensures { beside self.new result.0 result.1
            ≡ drain self.old held.0 (step_rows self.old window.now) outcome }
    {
        if self.every_seat(held) {
            return self.take_step(window);
        }
        (Advance::Ended(outcome), NO_ROWS)
    }

    // With no outcome, a player that has started takes the pending tick or stalls at it.
    fn play_on(&mut self, window: &Window, held: PeerSet) -> (Advance, Rows)
        requires { bad_state self.old.params ≡ false }
        ensures { beside self.new result.0 result.1
            ≡ play_on self.old held.0 (step_rows self.old window.now) }
    {
        if !self.marks.started {
            return (Advance::Waiting, NO_ROWS);
        }
        if self.every_seat(held) {
            return self.take_step(window);
        }
        (self.stall(held), NO_ROWS)
    }

    // The next tick to play, if there is one.
    fn advance(&mut self, window: &Window) -> (Advance, Rows)
        ensures { beside self.new result.0 result.1
            ≡ advance_head self.old (held_by window.now self.old.play.pending) (step_rows self.old window.now) }
    {
        if self.params.bad_state() {
            return (Advance::BadState, NO_ROWS);
        }
        if self.play.step.is_some() {
            return (Advance::Waiting, NO_ROWS);
        }
        let held = window.held_by(self.play.pending);
        match self.outcome {
            None => self.play_on(window, held),
            Some(desynced @ Outcome::Desynced { .. }) => (Advance::Ended(desynced), NO_ROWS),
            Some(outcome) => self.drain(window, held, outcome),
        }
    }
}

// ---- the calls in place

// Whether a digest is given where none is due, or not given where one is.
fn mismatches(digest: Option<u64>, due: bool) -> bool
    ensures { result ≡ mismatch due digest }
{
    digest.is_some() != due
}

impl Session {
    // Room for a session, for `open_in`: before that every call on it is refused with 20. All of its arrays are zeros,
    // which a host has where it keeps a session and nowhere else; those of `open` are made apart and copied.
    pub fn unopened() -> Session
        ensures { result ≡ unopened }
    {
        Session {
            head: Head::new(SessionParams::default()),
            window: Window {
                ring: [0u8; window::RING],
                ticks: [0; window::SLOTS],
                present: [0; window::SLOTS],
            },
            prints: Fingerprints::new(),
        }
    }

    // A session that has not started. Where the parameters fail a check it is there all the same, and every call on it
    // is refused with 20.
    pub fn open_in(&mut self, params: SessionParams) -> Result<(), ParamsError>
        ensures { session_with self.new result ≡ opened params }
    {
        self.head = Head::new(params);
        self.window.clear();
        self.prints.clear();
        params.validate()
    }

    // This player's press for the next local tick.
    pub fn submit_in(&mut self, input: &[u8]) -> Result<u64, SubmitError>
        ensures { session_with self.new result ≡ submit self.old input.now }
    {
        let tick = self.head.take_press(input.len())?;
        self.window.write_frame(self.head.params.local, tick, input);
        Ok(tick)
    }

    // The next tick to play, if there is one.
    pub fn advance_in(&mut self) -> (Advance, Rows)
        ensures { advanced_with self.new result.0 result.1 ≡ advance self.old }
    {
        self.head.advance(&self.window)
    }

    // The host's digest of its world after a tick: kept, owed to the others, and judged.
    fn keep_digest(&mut self, tick: u64, digest: Option<u64>)
        ensures { self.new ≡ keep_digest self.old tick digest }
    {
        let Some(state) = digest else {
            return;
        };
        let print = Fingerprint {
            tick,
            state,
            input: self.head.play.digest,
        };
        self.prints.store_own(print);
        self.head.owed = Some(print);
        if self.prints.parted(self.head.params.remotes(), tick) {
            self.head.outcome = outcome_after(self.head.outcome, Outcome::Desynced { tick });
        }
    }

    // The step was played. A digest is given exactly where one is due.
    pub fn commit_in(&mut self, tick: u64, digest: Option<u64>) -> Result<(), CommitError>
        ensures { session_with self.new result ≡ commit self.old tick digest }
    {
        self.head.params.check()?;
        let Some(out) = self.head.play.step else {
            return Err(CommitError::OutOfOrder {
                saw: tick,
                expected: self.head.play.pending,
            });
        };
        if tick != out.tick {
            return Err(CommitError::OutOfOrder {
                saw: tick,
                expected: out.tick,
            });
        }
        if mismatches(digest, out.due) {
            return Err(CommitError::DigestMismatch {
                tick,
                owed: out.due,
            });
        }
        self.head.play.pending = logic::raise(self.head.play.pending);
        self.head.play.step = None;
        self.keep_digest(tick, digest);
        Ok(())
    }

    // Leaves the circle. After any outcome nothing changes, and that one is given.
    pub fn leave_in(&mut self) -> Result<Outcome, BadState>
        ensures { session_with self.new result ≡ leave self.old }
    {
        self.head.leave()
    }
}

// ---- the calls by value

impl Session {
    // A session that has not started, whatever the answer.
    pub fn open(params: SessionParams) -> Answered<Result<(), ParamsError>>
        ensures { result ≡ opened params }
    {
        let session = Session {
            head: Head::new(params),
            window: Window::new(),
            prints: Fingerprints::new(),
        };
        Answered {
            session,
            answer: params.validate(),
        }
    }

    // This player's press for the next local tick.
    pub fn submit(mut self, input: &[u8]) -> Answered<Result<u64, SubmitError>>
        ensures { result ≡ submit self input.now }
    {
        let answer = self.submit_in(input);
        Answered {
            session: self,
            answer,
        }
    }

    // The next tick to play, if there is one.
    pub fn advance(mut self) -> Advanced
        ensures { result ≡ advance self }
    {
        let (answer, frames) = self.advance_in();
        Advanced {
            session: self,
            answer,
            frames,
        }
    }

    // The step was played. A digest is given exactly where one is due.
    pub fn commit(mut self, tick: u64, digest: Option<u64>) -> Answered<Result<(), CommitError>>
        ensures { result ≡ commit self tick digest }
    {
        let answer = self.commit_in(tick, digest);
        Answered {
            session: self,
            answer,
        }
    }

    // Leaves the circle. After any outcome nothing changes, and that one is given.
    pub fn leave(mut self) -> Answered<Result<Outcome, BadState>>
        ensures { result ≡ leave self }
    {
        let answer = self.leave_in();
        Answered {
            session: self,
            answer,
        }
    }
}
