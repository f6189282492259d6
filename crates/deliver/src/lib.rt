// A message comes in: the checks of its form and its header, then what its kind does to the session. Every refusal is
// counted.
#![tactic(auto)]

ghost use Rattle.std.specs.Prelude.{◌≡◌, Option};
ghost use Rattle.session.specs.Session.{head_with, session_with};
ghost use Rattle.deliver.specs.Numbers.{refusal_no, delivery_no};
ghost use Rattle.deliver.specs.Deliver.{refused, end_with, accept_hello, marked, refusal_of, noted};
ghost use Rattle.deliver.specs.Deliver.{absorb, judged, hear, accept, from_header, deliver};

use fingerprint::{Arrival, Fingerprint};
use logic::Numbered;
use peer::PeerSet;
use session::{Answered, Head, Outcome, Session};
use window::Note;
use wire::{Body, DigestBody, HelloBody, InputsBody, Message, WireError};

// Why a message was refused, with what was seen.
#[derive(Clone, Copy, PartialEq, Eq, Debug)]
pub enum Refusal {
    Malformed(WireError),
    WrongSession { saw: u64 },
    SenderNotSource { claimed: u8, source: u8 },
    FromSelf,
    NotInRoster { peer: u8 },
    Disagreement { theirs: u64, ours: u64 },
    OutOfWindow { tick: u64, pending: u64 },
    Contradiction { peer: u8, tick: u64 },
    WrongWidth { saw: u8, agreed: u8 },
    DigestContradiction { peer: u8, tick: u64 },
    NotSessionTraffic { kind: u8 },
}

// Four answers of its own, as in the published Rust but for BadState.
#[derive(Clone, Copy, PartialEq, Eq, Debug)]
pub enum Delivery {
    Accepted,
    Ended(Outcome),
    BadState,
    Refused(Refusal),
}

impl Numbered for Refusal {
    ghost number_of = { refusal_no };

    fn number(self) -> u8 {
        match self {
            Refusal::Malformed(_) => 21,
            Refusal::WrongSession { .. } => 22,
            Refusal::SenderNotSource { .. } => 23,
            Refusal::FromSelf => 24,
            Refusal::NotInRoster { .. } => 25,
            Refusal::Disagreement { .. } => 26,
            Refusal::OutOfWindow { .. } => 27,
            Refusal::Contradiction { .. } => 28,
            Refusal::WrongWidth { .. } => 29,
            Refusal::DigestContradiction { .. } => 30,
            Refusal::NotSessionTraffic { .. } => 31,
        }
    }
}

impl Numbered for Delivery {
    ghost number_of = { delivery_no };

    fn number(self) -> u8 {
        match self {
            Delivery::Accepted => 0,
            Delivery::Ended(outcome) => outcome.number(),
            Delivery::BadState => 20,
            Delivery::Refused(refusal) => refusal.number(),
        }
    }
}

impl From<Note> for Refusal {
    ghost from_gives = { λ note r. r ≡ refusal_of note };

    fn from(note: Note) -> Refusal {
        match note {
            Note::OutOfWindow { tick, pending } => Refusal::OutOfWindow { tick, pending },
            Note::Contradiction { peer, tick } => Refusal::Contradiction { peer, tick },
        }
    }
}

// ---- what changes the head alone

// The counters of a refusal go through the one function that is lent them for change (document 01).
#[tactic(auto, unfolding(crate::specs::Deliver::refused))]
fn refuse(head: &mut Head, refusal: Refusal) -> Delivery
    ensures { head_with head.new result ≡ refused head.old refusal }
{
    stats::record_refusal(&mut head.stats, refusal.number());
    Delivery::Refused(refusal)
}

// The delivery that ends a session answers with its outcome.
#[tactic(auto, unfolding(crate::specs::Deliver::end_with, session::specs::Session::ended))]
fn end(head: &mut Head, outcome: Outcome) -> Delivery
    ensures { head_with head.new result ≡ end_with head.old outcome }
{
    head.outcome = session::outcome_after(head.outcome, outcome);
    Delivery::Ended(outcome)
}

fn accept_hello(head: &mut Head, sender: u8, hello: HelloBody) -> Delivery
    ensures { head_with head.new result ≡ accept_hello head.old sender hello }
{
    let ours = head.params.agreement();
    if hello.agreement != ours {
        return refuse(
            head,
            Refusal::Disagreement {
                theirs: hello.agreement,
                ours,
            },
        );
    }
    head.marks.hellos = PeerSet(head.marks.hellos).with(sender).bits();
    if session::starts(head.params, head.marks.hellos, head.play.next_local) {
        head.marks.started = true;
    }
    Delivery::Accepted
}

#[tactic(auto, unfolding(crate::specs::Deliver::marked))]
fn mark_playing(head: &mut Head, sender: u8)
    ensures { head.new ≡ marked head.old sender }
{
    head.marks.playing = PeerSet(head.marks.playing).with(sender).bits();
}

// A note's refusal raises the counters; it is the answer only where nothing was written.
fn answer_note(head: &mut Head, note: Option<Note>, wrote: bool) -> Delivery
    ensures { head_with head.new result ≡ noted head.old note wrote }
{
    let Some(note) = note else {
        return Delivery::Accepted;
    };
    let refused = refuse(head, Refusal::from(note));
    if wrote { Delivery::Accepted } else { refused }
}

// ---- what changes the window, or the prints

fn absorb_inputs(s: &mut Session, sender: u8, body: InputsBody, run: &[u8]) -> Delivery
    ensures { session_with s.new result ≡ absorb s.old sender body run.now }
{
    let agreed = s.head.params.width;
    if body.width != agreed {
        return refuse(
            &mut s.head,
            Refusal::WrongWidth {
                saw: body.width,
                agreed,
            },
        );
    }
    let taken = s.window.absorb_inputs(
        s.head.stats.frames_repeated,
        s.head.play.pending,
        sender,
        body,
        run,
    );
    s.head.stats.frames_repeated = taken.repeated;
    answer_note(&mut s.head, taken.note, taken.wrote)
}

#[tactic(auto, unfolding(crate::specs::Deliver::hear, crate::specs::Deliver::hear_by))]
fn absorb_digest(s: &mut Session, sender: u8, digest: DigestBody) -> Delivery
    ensures { session_with s.new result ≡ hear s.old sender digest }
{
    let tick = digest.tick;
    let print = Fingerprint {
        tick,
        state: digest.state,
        input: digest.input,
    };
    match s.prints.arrival_of(sender, print) {
        Arrival::Contradicted => {
            refuse(
                &mut s.head,
                Refusal::DigestContradiction { peer: sender, tick },
            )
        }
        Arrival::Repeated => Delivery::Accepted,
        Arrival::New => {
            s.prints.store_remote(sender, print);
            judge(s, tick)
        }
    }
}

fn judge(s: &mut Session, tick: u64) -> Delivery
    ensures { session_with s.new result ≡ judged s.old tick }
{
    if s.prints.parted(s.head.params.remotes(), tick) {
        return end(&mut s.head, Outcome::Desynced { tick });
    }
    Delivery::Accepted
}

// ---- each kind, the header, and the order

#[tactic(auto, unfolding(crate::specs::Deliver::accept))]
fn accept(s: &mut Session, sender: u8, body: Body, run: &[u8]) -> Delivery
    ensures { session_with s.new result ≡ accept s.old sender body run.now }
{
    match body {
        Body::Hello(hello) => accept_hello(&mut s.head, sender, hello),
        Body::Inputs(inputs) => {
            mark_playing(&mut s.head, sender);
            absorb_inputs(s, sender, inputs, run)
        }
        Body::Digest(digest) => {
            mark_playing(&mut s.head, sender);
            absorb_digest(s, sender, digest)
        }
        Body::Bye(bye) => end(
            &mut s.head,
            Outcome::PeerLeft {
                peer: sender,
                tick: bye.tick,
            },
        ),
        Body::Other(kind) => refuse(&mut s.head, Refusal::NotSessionTraffic { kind }),
    }
}

fn from_header(s: &mut Session, source: u8, message: Message, run: &[u8]) -> Delivery
    ensures { session_with s.new result ≡ from_header s.old source message run.now }
{
    let sender = message.sender;
    let params = &s.head.params;
    if message.session != params.session {
        return refuse(
            &mut s.head,
            Refusal::WrongSession {
                saw: message.session,
            },
        );
    }
    if sender != source {
        return refuse(
            &mut s.head,
            Refusal::SenderNotSource {
                claimed: sender,
                source,
            },
        );
    }
    if sender == params.local {
        return refuse(&mut s.head, Refusal::FromSelf);
    }
    if !params.roster().contains(sender) {
        return refuse(&mut s.head, Refusal::NotInRoster { peer: sender });
    }
    accept(s, sender, message.body, run)
}

// A message that came in from the seat that the radio names as its source.
pub fn deliver_in(s: &mut Session, source: u8, message: Message, run: &[u8]) -> Delivery
    ensures { session_with s.new result ≡ deliver s.old source message run.now }
{
    if s.head.params.bad_state() {
        return Delivery::BadState;
    }
    if let Some(outcome) = s.head.outcome {
        return Delivery::Ended(outcome);
    }
    if let Err(error) = message.form(run) {
        return refuse(&mut s.head, Refusal::Malformed(error));
    }
    from_header(s, source, message, run)
}

// The same by value.
pub fn deliver(mut s: Session, source: u8, message: Message, run: &[u8]) -> Answered<Delivery>
    ensures { result ≡ deliver s source message run.now }
{
    let answer = deliver_in(&mut s, source, message, run);
    Answered { session: s, answer }
}
