// Document 01's cases P1 to P10 through the code: a line for each row of the table in the crate table, with the case
// and the row's numbers. The file stdout beside src/ is written from document 01, not from what this program once
// printed.
#![tactic(auto)]

use deliver::Delivery;
use hash::StateHash;
use logic::Numbered;
use params::SessionParams;
use session::{Answered, Outcome, Session};
use std::io;
use wire::{Body, HelloBody, InputsBody, Message};

// ---- sessions grown by calls, as in specs/Cases.antt

fn circle(count: u8, delay: u8, period: u8) -> SessionParams {
    SessionParams {
        count,
        local: 0,
        width: 1,
        delay,
        period,
        seed: 0,
        content: 0,
        rules: 0,
        session: 9,
    }
}

fn new() -> Session {
    Session::open(circle(2, 0, 1)).session
}

fn hears(s: Session, body: Body, run: &[u8]) -> Answered<Delivery> {
    let message = Message {
        sender: 1,
        session: 9,
        body,
    };
    deliver::deliver(s, 1, message, run)
}

fn greeted(s: Session) -> Session {
    let hello = HelloBody {
        agreement: circle(2, 0, 1).agreement(),
        content: 0,
        rules: 0,
        seed: 0,
        count: 2,
        width: 1,
        delay: 0,
        period: 1,
    };
    hears(s, Body::Hello(hello), b"").session
}

fn sends(s: Session, first: u64, count: u8, run: &[u8]) -> Answered<Delivery> {
    let inputs = InputsBody {
        first,
        count,
        width: 1,
    };
    hears(s, Body::Inputs(inputs), run)
}

fn once() -> Session {
    sends(new(), 0, 1, b"B").session
}

fn twice() -> Session {
    sends(once(), 1, 1, b"D").session
}

fn pressed(s: Session, tick: u64) -> Session {
    let submitted = s.submit(b"A").session;
    sends(submitted, tick, 1, b"B").session
}

fn stepped(s: Session, tick: u64) -> Session {
    s.advance().session.commit(tick, Some(5)).session
}

fn plays(s: Session, tick: u64) -> Session {
    stepped(pressed(s, tick), tick)
}

// ---- a row's numbers

fn show(rt: &impl Print, number: u64) -> io::Result<()> {
    print!(rt; " {number}")
}

fn case(rt: &impl Print, number: u64) -> io::Result<()> {
    print!(rt; "P{number}")
}

fn end_line(rt: &impl Print) -> io::Result<()> {
    println!(rt; "")
}

fn opens(rt: &impl Print, number: u64, params: SessionParams) -> io::Result<()> {
    let opened = Session::open(params);
    case(rt, number)?;
    show(rt, u64::from(opened.answer.number()))?;
    end_line(rt)
}

fn counts(rt: &impl Print, number: u64, d: Answered<Delivery>, tick: u64) -> io::Result<()> {
    let stats = d.session.head.stats;
    case(rt, number)?;
    show(rt, d.session.head.play.pending)?;
    show(rt, u64::from(d.answer.number()))?;
    show(rt, stats.datagrams_refused)?;
    show(rt, stats.frames_repeated)?;
    show(rt, stats.frames_contradicted)?;
    show(rt, stats.frames_out_of_window)?;
    show(rt, stats.digests_contradicted)?;
    show(rt, stats.stall_pumps)?;
    show(rt, u64::from(d.session.window.holds(1, tick)))?;
    end_line(rt)
}

fn show_outcome(rt: &impl Print, outcome: Outcome) -> io::Result<()> {
    let (why, tick) = match outcome {
        Outcome::Desynced { tick } => (1, tick),
        Outcome::PeerLeft { tick, .. } => (2, tick),
        Outcome::LeftLocally { tick } => (3, tick),
    };
    show(rt, why)?;
    show(rt, tick)
}

fn leaves(rt: &impl Print, number: u64, s: Session) -> io::Result<()> {
    case(rt, number)?;
    show(rt, s.head.play.pending)?;
    let left = s.leave();
    show(rt, u64::from(left.answer.number()))?;
    if let Ok(outcome) = left.answer {
        show_outcome(rt, outcome)?;
    }
    end_line(rt)
}

fn hashes(rt: &impl Print, number: u64, bytes: &[u8]) -> io::Result<()> {
    case(rt, number)?;
    show(rt, StateHash::new().absorb_bytes(bytes).finish())?;
    end_line(rt)
}

// ---- the rows

fn main(rt: HostRuntime) -> io::Result<()> {
    opens(&rt, 1, circle(1, 0, 1))?;
    opens(&rt, 1, circle(2, 0, 1))?;
    opens(&rt, 1, circle(8, 0, 1))?;
    opens(&rt, 1, circle(9, 0, 1))?;
    counts(&rt, 2, sends(new(), 63, 1, b"B"), 63)?;
    counts(&rt, 3, sends(new(), 64, 1, b"B"), 64)?;
    counts(&rt, 4, sends(new(), 0, 1, b"B"), 0)?;
    counts(&rt, 4, sends(once(), 0, 1, b"B"), 0)?;
    counts(&rt, 5, sends(once(), 0, 2, b"CD"), 1)?;
    counts(&rt, 5, sends(once(), 0, 1, b"C"), 1)?;
    counts(&rt, 5, sends(twice(), 0, 2, b"CE"), 1)?;
    counts(
        &rt,
        5,
        sends(sends(once(), 0, 2, b"CD").session, 0, 2, b"BD"),
        1,
    )?;
    let one = plays(greeted(new()), 0);
    let two = plays(one, 1);
    counts(&rt, 6, sends(plays(two, 2), 2, 1, b"C"), 2)?;
    counts(&rt, 6, sends(pressed(two, 2), 2, 1, b"C"), 2)?;
    opens(&rt, 7, circle(2, 63, 1))?;
    opens(&rt, 7, circle(2, 64, 1))?;
    opens(&rt, 8, circle(9, 0, 0))?;
    opens(&rt, 8, circle(8, 0, 0))?;
    leaves(&rt, 9, new())?;
    leaves(&rt, 9, one)?;
    leaves(&rt, 9, two)?;
    hashes(&rt, 10, b"")
}
