// What a session shows, whether it wants a press, and how many ticks are ready. Nothing here changes a session. All but
// the last stands in the head, so such a question is lent the head alone and refuses no record; whoever holds a session
// asks it of `&s.head`. What is ready stands in the window too.
#![tactic(auto)]

ghost use Rattle.std.specs.Prelude.{◌≡◌, ◌+◌};
ghost use Rattle.session.specs.Session.{is_playing};
ghost use Rattle.shown.specs.Wants.{wants_local};
ghost use Rattle.shown.specs.Ahead.{is_ready, ahead, ready_ticks};

use params::{BadState, SessionParams};
use session::{Head, Outcome, Session};
use stats::SessionStats;

pub fn params(h: &Head) -> SessionParams
    ensures { result ≡ h.now.params }
{
    h.params
}

pub fn stats(h: &Head) -> SessionStats
    ensures { result ≡ h.now.stats }
{
    h.stats
}

// The tick that is played next.
pub fn pending_tick(h: &Head) -> u64
    ensures { result ≡ h.now.play.pending }
{
    h.play.pending
}

// The tick that the next submit fills. A press that depends on the tick goes by this one, and never by the pending
// tick, which moves with the radio.
pub fn next_local_tick(h: &Head) -> u64
    ensures { result ≡ h.now.play.next_local }
{
    h.play.next_local
}

#[tactic(auto, unfolding(session::specs::Session::is_playing))]
pub fn is_playing(h: &Head) -> bool
    ensures { result ≡ is_playing h.now }
{
    h.marks.started && h.outcome.is_none()
}

pub fn outcome(h: &Head) -> Option<Outcome>
    ensures { result ≡ h.now.outcome }
{
    h.outcome
}

pub fn input_digest(h: &Head) -> u64
    ensures { result ≡ h.now.play.digest }
{
    h.play.digest
}

// Whether the host owes a press now. Ask once a turn, and submit at most once: whoever submits until it says no fills
// the window with one moment's press.
#[tactic(auto, using(logic::proofs::Cases::if_true, logic::proofs::Cases::if_false), unfolding(crate::specs::Wants::wants_local, logic::specs::Saturating::sum))]
pub fn wants_local(h: &Head) -> bool
    ensures { result ≡ wants_local h.now }
{
    if h.outcome.is_some() || h.params.bad_state() {
        return false;
    }
    let next = h.play.next_local;
    let pending = h.play.pending;
    let last = pending.saturating_add(u64::from(h.params.delay));
    next <= last && next.saturating_sub(pending) < peer::WINDOW
}

// Whether every seat of the roster has its frame for the tick that stands this far ahead of pending. One past the last
// number is a gap.
#[tactic(auto, unfolding(crate::specs::Ahead::is_ready, session::specs::Session::every_seat))]
fn is_ready(s: &Session, distance: u64) -> bool
    ensures { result ≡ is_ready s.now.head s.now.window (s.now.head.play.pending + distance) }
{
    let Some(tick) = s.head.play.pending.checked_add(distance) else {
        return false;
    };
    s.head.params.roster().subset(s.window.held_by(tick))
}

// How many are, up to the first gap.
#[tactic(auto, using(crate::proofs::Front::ahead_stops, crate::proofs::Front::ahead_full))]
fn run_ahead(s: &Session) -> u64
    ensures { result ≡ ahead s.now.head s.now.window }
{
    for distance in 0..peer::WINDOW {
        if !is_ready(s, distance) {
            return distance;
        }
    }
    peer::WINDOW
}

// How many ticks can be played before the circle stalls, if nothing more comes; one that is out and not yet committed
// is among them, and there are 64 at most. Ask after an advance, and slow the speech where few are left.
#[tactic(auto, using(logic::proofs::Cases::if_true, logic::proofs::Cases::if_false), unfolding(crate::specs::Ahead::ready_ticks, params::specs::Params::check_of))]
pub fn ready_ticks(s: &Session) -> Result<u64, BadState>
    ensures { result ≡ ready_ticks s.now }
{
    s.head.params.check()?;
    Ok(run_ahead(s))
}
