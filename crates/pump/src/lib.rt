// The pump: what a session sends next. A pass goes kind by kind, each over the other seats, and answers with one
// message a call until it has come to its end. It changes nothing but the head; the window is only read.
#![tactic(auto)]

ghost use Rattle.std.specs.Prelude.{◌≡◌, false, ◌+◌, ◌-◌, ◌<◌, ◌≤◌};
ghost use Rattle.logic.specs.Saturating.{most};
ghost use Rattle.peer.specs.Seats.{seats};
ghost use Rattle.params.specs.Params.{max_width, bad_state};
ghost use Rattle.wire.specs.Wire.{redundancy};
ghost use Rattle.pump.specs.Numbers.{outbound_no};
ghost use Rattle.pump.specs.Pump.{next_remote, span, carried, run_byte, run_from, run_of, hello_of, inputs_of};
ghost use Rattle.pump.specs.Pump.{digest_of, saying, say, first_kind, pass_ends, run_beside, sent_with};
ghost use Rattle.pump.specs.Pump.{send, sent, pump_inputs, pump_hello, pump_from, pumped_with, pump};

use fingerprint::Fingerprint;
use logic::Numbered;
use params::SessionParams;
use peer::PeerSet;
use session::{Emit, Head, Pass, Session};
use window::Window;
use wire::{Body, ByeBody, DigestBody, HelloBody, InputsBody, Message};

// The longest run: as many frames as an Inputs carries, each as wide as can be.
pub const RUN: usize = wire::REDUNDANCY as usize * params::MAX_WIDTH as usize;

pub type Run = [u8; RUN];

// What a message without frames has beside it.
const NO_RUN: Run = [0; RUN];

// Three answers of its own: 71 ends a pass and is no refusal.
#[derive(Clone, Copy)]
pub enum Outbound {
    Send { peer: u8, message: Message },
    Nothing,
    BadState,
}

// An Inputs' run stands beside the answer (document 01). It is zero past the frames, and beside anything that is no
// Inputs.
#[derive(Clone, Copy)]
pub struct Pumped {
    pub session: Session,
    pub answer: Outbound,
    pub run: Run,
}

impl Numbered for Outbound {
    ghost number_of = { outbound_no };

    fn number(self) -> u8 {
        match self {
            Outbound::Send { .. } => 0,
            Outbound::Nothing => 71,
            Outbound::BadState => 20,
        }
    }
}

// The first seat from `place` on that is in the set.
#[tactic(auto, using(crate::proofs::Loops::next_steps))]
fn next_remote(remotes: PeerSet, place: u8) -> Option<u8>
    ensures { result ≡ next_remote remotes.0 place (seats - place) }
{
    for seat in place..peer::SEATS {
        if remotes.contains(seat) {
            return Some(seat);
        }
    }
    None
}

// How many frames of the seat are held without a gap, from the newest back.
#[tactic(auto, using(crate::proofs::Loops::span_steps))]
fn span(window: &Window, seat: u8, newest: u64) -> u8
    ensures { result ≡ span window.now seat newest redundancy }
{
    let mut tick = newest;
    for n in 0..wire::REDUNDANCY {
        if !window.holds(seat, tick) {
            return n;
        }
        if tick == 0 {
            return n + 1;
        }
        tick -= 1;
    }
    wire::REDUNDANCY
}

// How many frames an Inputs carries now.
#[tactic(auto, using(logic::proofs::Cases::if_true, logic::proofs::Cases::if_false), unfolding(crate::specs::Pump::carried))]
fn carried(head: &Head, window: &Window) -> u8
    ensures { result ≡ carried head.now window.now }
{
    let next = head.play.next_local;
    if next == 0 {
        return 0;
    }
    span(window, head.params.local, next - 1)
}

// Byte j of the run of `count` frames of a seat from the tick `first` on: byte j mod width of frame j div width.
#[tactic(auto, using(logic::proofs::Cases::if_false, crate::proofs::Loops::run_byte_is), unfolding(crate::specs::Pump::run_byte))]
fn run_byte(window: &Window, seat: u8, first: u64, count: u8, width: u8, j: usize) -> u8
    requires { (seat < seats) × (1 ≤ width) × (width ≤ max_width) × (first + count ≤ most) }
    ensures { result ≡ run_byte window.now seat first count width j }
{
    let n = usize::from(width);
    if j >= usize::from(count) * n {
        return 0;
    }
    let tick = first + (j / n) as u64;
    window.ring[window::frame_start(seat, tick) + j % n]
}

// The run of `count` frames of a seat, from the tick `first` on; past the frames it is zero.
fn run_from(window: &Window, seat: u8, first: u64, count: u8, width: u8) -> Run
    requires { (seat < seats) × (1 ≤ width) × (width ≤ max_width) × (first + count ≤ most) }
    ensures { result ≡ run_from window.now seat first count width }
{
    // as many bytes as the frames have, which are fewer than the run's at most widths
    let mut run = NO_RUN;
    let end = (usize::from(count) * usize::from(width)).min(RUN);
    for j in 0..end {
        run[j] = run_byte(window, seat, first, count, width, j);
    }
    run
}

#[tactic(auto, using(crate::proofs::Loops::carried_next, params::proofs::Laws::sound), unfolding(crate::specs::Pump::run_of))]
fn run_of(head: &Head, window: &Window) -> Run
    requires { bad_state head.now.params ≡ false }
    ensures { result ≡ run_of head.now window.now }
{
    let count = carried(head, window);
    let first = head.play.next_local - u64::from(count);
    run_from(window, head.params.local, first, count, head.params.width)
}

#[tactic(auto, unfolding(crate::specs::Pump::hello_of))]
fn hello_of(p: SessionParams) -> HelloBody
    ensures { result ≡ hello_of p }
{
    HelloBody {
        agreement: p.agreement(),
        content: p.content,
        rules: p.rules,
        seed: p.seed,
        count: p.count,
        width: p.width,
        delay: p.delay,
        period: p.period,
    }
}

// The newest local frame and those before it that are still held. With the newest gone there is nothing to say.
#[tactic(auto, using(logic::proofs::Cases::if_true, logic::proofs::Cases::if_false, crate::proofs::Loops::carried_next), unfolding(crate::specs::Pump::inputs_of))]
fn inputs_of(head: &Head, window: &Window) -> Option<Body>
    ensures { result ≡ inputs_of head.now window.now }
{
    let count = carried(head, window);
    if count == 0 {
        return None;
    }
    Some(Body::Inputs(InputsBody {
        first: head.play.next_local - u64::from(count),
        count,
        width: head.params.width,
    }))
}

#[tactic(auto, unfolding(crate::specs::Pump::digest_of))]
fn digest_of(owed: Option<Fingerprint>) -> Option<Body>
    ensures { result ≡ digest_of owed }
{
    let print = owed?;
    Some(Body::Digest(DigestBody {
        tick: print.tick,
        state: print.state,
        input: print.input,
    }))
}

// What a kind says at this moment, to whichever seat.
#[tactic(auto, unfolding(crate::specs::Pump::saying))]
fn kind_says(head: &Head, window: &Window, emit: Emit) -> Option<Body>
    ensures { result ≡ saying head.now window.now emit }
{
    match emit {
        Emit::Hello => Some(Body::Hello(hello_of(head.params))),
        Emit::Inputs => inputs_of(head, window),
        Emit::Digest => digest_of(head.owed),
        Emit::Bye => Some(Body::Bye(ByeBody {
            tick: head.play.pending.saturating_sub(1),
        })),
        Emit::Done => None,
    }
}

// What a kind says, to the next seat from `place` on.
#[tactic(auto, unfolding(crate::specs::Pump::say, crate::specs::Pump::target_of, crate::specs::Pump::say_to, crate::specs::Pump::addressed))]
fn say_next(head: &Head, window: &Window, emit: Emit, place: u8) -> Option<(u8, Body)>
    ensures { result ≡ say head.now window.now emit place }
{
    let peer = next_remote(head.params.remotes(), place)?;
    let body = kind_says(head, window, emit)?;
    Some((peer, body))
}

// The kind that a pass starts with.
#[tactic(auto, using(logic::proofs::Cases::if_true, logic::proofs::Cases::if_false), unfolding(crate::specs::Pump::first_kind))]
fn first_kind(head: &Head) -> Emit
    ensures { result ≡ first_kind head.now }
{
    if head.outcome.is_some() {
        return Emit::Bye;
    }
    let everybody = head.params.remotes().subset(PeerSet(head.marks.playing));
    if shown::is_playing(head) && everybody {
        return Emit::Inputs;
    }
    Emit::Hello
}

#[tactic(auto, unfolding(crate::specs::Pump::pass_ends, crate::specs::Pump::quiet, crate::specs::Pump::no_run))]
fn pass_ends(head: &mut Head) -> (Outbound, Run)
    ensures { sent_with head.new result.0 result.1 ≡ pass_ends head.old }
{
    let kind = first_kind(head);
    head.pass = Pass { kind, place: 0 };
    (Outbound::Nothing, NO_RUN)
}

#[tactic(auto, unfolding(crate::specs::Pump::run_beside, crate::specs::Pump::no_run))]
fn run_beside(head: &Head, window: &Window, body: Body) -> Run
    requires { bad_state head.now.params ≡ false }
    ensures { result ≡ run_beside head.now window.now body }
{
    match body {
        Body::Inputs(_) => run_of(head, window),
        _ => NO_RUN,
    }
}

#[tactic(auto, unfolding(crate::specs::Pump::send))]
fn send(head: &mut Head, window: &Window, emit: Emit, peer: u8, body: Body) -> (Outbound, Run)
    requires { bad_state head.old.params ≡ false }
    ensures { sent_with head.new result.0 result.1 ≡ send head.old window.now emit peer body }
{
    let run = run_beside(head, window, body);
    let message = Message {
        sender: head.params.local,
        session: head.params.session,
        body,
    };
    head.pass = Pass {
        kind: emit,
        place: peer.saturating_add(1),
    };
    (Outbound::Send { peer, message }, run)
}

// ---- each kind, from a seat on; with nothing left of it, what comes after it in the pass

// A kind that a pass ends with: Digest, or Bye.
#[tactic(auto, unfolding(crate::specs::Pump::sent))]
fn pump_last(head: &mut Head, window: &Window, emit: Emit, place: u8) -> (Outbound, Run)
    requires { bad_state head.old.params ≡ false }
    ensures { sent_with head.new result.0 result.1
        ≡ sent head.old window.now emit (say head.old window.now emit place) (pass_ends head.old) }
{
    match say_next(head, window, emit, place) {
        Some((peer, body)) => send(head, window, emit, peer, body),
        None => pass_ends(head),
    }
}

#[tactic(auto, using(logic::proofs::Cases::if_true, logic::proofs::Cases::if_false), unfolding(crate::specs::Pump::pump_inputs, crate::specs::Pump::pump_digest, crate::specs::Pump::sent))]
fn pump_inputs(head: &mut Head, window: &Window, place: u8) -> (Outbound, Run)
    requires { bad_state head.old.params ≡ false }
    ensures { sent_with head.new result.0 result.1 ≡ pump_inputs head.old window.now place }
{
    match say_next(head, window, Emit::Inputs, place) {
        Some((peer, body)) => send(head, window, Emit::Inputs, peer, body),
        None if head.owed.is_some() => pump_last(head, window, Emit::Digest, 0),
        None => pass_ends(head),
    }
}

#[tactic(auto, using(logic::proofs::Cases::if_true, logic::proofs::Cases::if_false), unfolding(crate::specs::Pump::pump_hello, crate::specs::Pump::sent))]
fn pump_hello(head: &mut Head, window: &Window, place: u8) -> (Outbound, Run)
    requires { bad_state head.old.params ≡ false }
    ensures { sent_with head.new result.0 result.1 ≡ pump_hello head.old window.now place }
{
    match say_next(head, window, Emit::Hello, place) {
        Some((peer, body)) => send(head, window, Emit::Hello, peer, body),
        None if shown::is_playing(head) => pump_inputs(head, window, 0),
        None => pass_ends(head),
    }
}

#[tactic(auto, unfolding(crate::specs::Pump::pump_from, crate::specs::Pump::pump_digest, crate::specs::Pump::pump_bye))]
fn pump_from(head: &mut Head, window: &Window) -> (Outbound, Run)
    requires { bad_state head.old.params ≡ false }
    ensures { sent_with head.new result.0 result.1 ≡ pump_from head.old window.now head.old.pass.kind }
{
    let place = head.pass.place;
    match head.pass.kind {
        Emit::Hello => pump_hello(head, window, place),
        Emit::Inputs => pump_inputs(head, window, place),
        Emit::Digest => pump_last(head, window, Emit::Digest, place),
        Emit::Bye => pump_last(head, window, Emit::Bye, place),
        Emit::Done => pass_ends(head),
    }
}

// The session's next message, and its run. The answer is Nothing once in a pass, at its end.
#[tactic(auto, using(logic::proofs::Cases::if_true, logic::proofs::Cases::if_false), unfolding(crate::specs::Pump::pump, crate::specs::Pump::pump_head, crate::specs::Pump::quiet, crate::specs::Pump::no_run))]
pub fn next_outbound_in(s: &mut Session) -> (Outbound, Run)
    ensures { pumped_with s.new result.0 result.1 ≡ pump s.old }
{
    if s.head.params.bad_state() {
        return (Outbound::BadState, NO_RUN);
    }
    pump_from(&mut s.head, &s.window)
}

// The same by value.
pub fn next_outbound(mut s: Session) -> Pumped
    ensures { result ≡ pump s }
{
    let (answer, run) = next_outbound_in(&mut s);
    Pumped {
        session: s,
        answer,
        run,
    }
}
