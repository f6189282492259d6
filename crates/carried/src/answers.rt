// The line of each answer, without its end: the call, document 01's number of the answer, and every value that the
// answer carries. The runner's lines have only the number of a refusal, so these are this program's own. A line goes
// behind what stands in a lent text. Nothing here makes a call.
use deliver::{Delivery, Refusal};
use desync::WriteError;
use logic::Numbered;
use params::{BadState, ParamsError};
use pump::Outbound;
use session::{Advance, CommitError, Outcome, Step, SubmitError};
use text::Text;
use wire::{Body, HelloBody, Message, WireError};

// What a report in a lent buffer came to, and how many bytes of the buffer are no longer what they were. A report's
// line has several.
#[derive(Clone, Copy)]
pub(crate) struct Tried {
    pub answer: Result<usize, WriteError>,
    pub changed: u64,
}

// Each behind a blank.
fn numbers(out: &mut Text, ns: &[u64]) {
    for &n in ns {
        out.byte(b' ');
        out.decimal(n);
    }
}

fn call(out: &mut Text, name: &[u8], number: u8) {
    out.piece(name);
    numbers(out, &[u64::from(number)]);
}

fn ended(out: &mut Text, outcome: Outcome) {
    out.byte(b' ');
    lines::outcome(out, outcome);
}

fn flag(out: &mut Text, on: bool) {
    out.byte(b' ');
    lines::flag(out, on);
}

pub(crate) fn of_open(out: &mut Text, answer: Result<(), ParamsError>) {
    call(out, b"open", answer.number());
    let Err(error) = answer else {
        return;
    };
    match error {
        ParamsError::PeerCount {
            saw,
            floor,
            ceiling,
        } => numbers(out, &[u64::from(saw), u64::from(floor), u64::from(ceiling)]),
        ParamsError::LocalNotInRoster { local, count } => {
            numbers(out, &[u64::from(local), u64::from(count)])
        }
        ParamsError::InputBytes { saw, ceiling } => {
            numbers(out, &[u64::from(saw), u64::from(ceiling)])
        }
        ParamsError::InputDelay { saw, window } => {
            numbers(out, &[u64::from(saw), u64::from(window)])
        }
        ParamsError::DigestPeriodZero | ParamsError::SessionZero => {}
    }
}

pub(crate) fn of_submit(out: &mut Text, answer: Result<u64, SubmitError>) {
    call(out, b"submit", answer.number());
    match answer {
        Ok(tick) => numbers(out, &[tick]),
        Err(SubmitError::Ended(outcome)) => ended(out, outcome),
        Err(SubmitError::BadState) => {}
        Err(SubmitError::WrongWidth { saw, agreed }) => {
            numbers(out, &[saw as u64, u64::from(agreed)])
        }
        Err(SubmitError::WindowFull { tick, pending }) => numbers(out, &[tick, pending]),
    }
}

// A malformed message's reason by its number, and what the reason carries.
fn of_reason(out: &mut Text, error: WireError) {
    numbers(out, &[u64::from(error.number())]);
    match error {
        WireError::SenderPastCeiling { saw, ceiling } => {
            numbers(out, &[u64::from(saw), u64::from(ceiling)])
        }
        WireError::PeerCount {
            saw,
            floor,
            ceiling,
        } => numbers(out, &[u64::from(saw), u64::from(floor), u64::from(ceiling)]),
        WireError::InputBytes { saw, ceiling } => {
            numbers(out, &[u64::from(saw), u64::from(ceiling)])
        }
        WireError::InputDelay { saw, window } => numbers(out, &[u64::from(saw), u64::from(window)]),
        WireError::FrameCount { saw, ceiling } => {
            numbers(out, &[u64::from(saw), u64::from(ceiling)])
        }
        WireError::RunLength { declared, actual } => {
            numbers(out, &[declared as u64, actual as u64])
        }
        WireError::TickOverflow { first, count } => numbers(out, &[first, u64::from(count)]),
        WireError::UnknownKind { saw } => numbers(out, &[u64::from(saw)]),
        WireError::SessionZero | WireError::DigestPeriodZero => {}
    }
}

fn of_refusal(out: &mut Text, refusal: Refusal) {
    match refusal {
        Refusal::Malformed(error) => of_reason(out, error),
        Refusal::WrongSession { saw } => numbers(out, &[saw]),
        Refusal::SenderNotSource { claimed, source } => {
            numbers(out, &[u64::from(claimed), u64::from(source)])
        }
        Refusal::FromSelf => {}
        Refusal::NotInRoster { peer } => numbers(out, &[u64::from(peer)]),
        Refusal::Disagreement { theirs, ours } => numbers(out, &[theirs, ours]),
        Refusal::OutOfWindow { tick, pending } => numbers(out, &[tick, pending]),
        Refusal::Contradiction { peer, tick } => numbers(out, &[u64::from(peer), tick]),
        Refusal::WrongWidth { saw, agreed } => numbers(out, &[u64::from(saw), u64::from(agreed)]),
        Refusal::DigestContradiction { peer, tick } => numbers(out, &[u64::from(peer), tick]),
        Refusal::NotSessionTraffic { kind } => numbers(out, &[u64::from(kind)]),
    }
}

pub(crate) fn of_deliver(out: &mut Text, answer: Delivery) {
    call(out, b"deliver", answer.number());
    match answer {
        Delivery::Accepted | Delivery::BadState => {}
        Delivery::Ended(outcome) => ended(out, outcome),
        Delivery::Refused(refusal) => of_refusal(out, refusal),
    }
}

// The number 0 has three forms here, so a word says which.
fn of_step(out: &mut Text, step: Step) {
    out.piece(b" step");
    numbers(out, &[step.tick]);
    flag(out, step.due);
    numbers(out, &[u64::from(step.count), u64::from(step.width)]);
}

pub(crate) fn of_advance(out: &mut Text, answer: Advance) {
    call(out, b"advance", answer.number());
    match answer {
        Advance::Step(step) => of_step(out, step),
        Advance::Waiting => out.piece(b" waiting"),
        Advance::Stalled {
            tick,
            waiting,
            pumps,
        } => {
            out.piece(b" stalled");
            numbers(out, &[tick, u64::from(waiting), pumps]);
        }
        Advance::Ended(outcome) => ended(out, outcome),
        Advance::BadState => {}
    }
}

pub(crate) fn of_commit(out: &mut Text, answer: Result<(), CommitError>) {
    call(out, b"commit", answer.number());
    match answer {
        Ok(()) | Err(CommitError::BadState) => {}
        Err(CommitError::OutOfOrder { saw, expected }) => numbers(out, &[saw, expected]),
        Err(CommitError::DigestMismatch { tick, owed }) => {
            numbers(out, &[tick]);
            flag(out, owed);
        }
    }
}

pub(crate) fn of_leave(out: &mut Text, answer: Result<Outcome, BadState>) {
    call(out, b"leave", answer.number());
    if let Ok(outcome) = answer {
        ended(out, outcome);
    }
}

fn of_hello(out: &mut Text, hello: HelloBody) {
    numbers(
        out,
        &[hello.agreement, hello.content, hello.rules, hello.seed],
    );
    for byte in [hello.count, hello.width, hello.delay, hello.period] {
        numbers(out, &[u64::from(byte)]);
    }
}

// The kind, as a script numbers it.
fn kind_of(body: Body) -> u64 {
    match body {
        Body::Hello(_) => 3,
        Body::Inputs(_) => 4,
        Body::Digest(_) => 5,
        Body::Bye(_) => 6,
        Body::Other(_) => 7,
    }
}

// The message's own fields behind its kind.
fn of_message(out: &mut Text, message: Message) {
    let kind = kind_of(message.body);
    numbers(out, &[kind, u64::from(message.sender), message.session]);
    match message.body {
        Body::Hello(hello) => of_hello(out, hello),
        Body::Inputs(inputs) => numbers(
            out,
            &[
                inputs.first,
                u64::from(inputs.count),
                u64::from(inputs.width),
            ],
        ),
        Body::Digest(digest) => numbers(out, &[digest.tick, digest.state, digest.input]),
        Body::Bye(bye) => numbers(out, &[bye.tick]),
        Body::Other(which) => numbers(out, &[u64::from(which)]),
    }
}

pub(crate) fn of_pump(out: &mut Text, answer: Outbound) {
    call(out, b"pump", answer.number());
    if let Outbound::Send { peer, message } = answer {
        numbers(out, &[u64::from(peer)]);
        of_message(out, message);
    }
}

pub(crate) fn of_report(out: &mut Text, tried: Tried) {
    numbers(out, &[u64::from(tried.answer.number())]);
    if let Ok(n) = tried.answer {
        numbers(out, &[n as u64]);
    }
    numbers(out, &[tried.changed]);
}
