// Sessions that no run of calls can reach, built by hand, and every call on each of them. Standard input holds a
// script; it is run on each session from its first record on, from its second on, and so on, so that each record meets
// each session as it was built. At the end stands how many ticks are ready: of each session as it was built, of such
// with full windows too, and after each record of the script. The file stdout beside src/ is what tests/handmade.py,
// over the rules' second writing, says of the same.
#![tactic(auto)]

ghost use Rattle.std.specs.Prelude.{◌≤◌, IfOk, length};

use fingerprint::Fingerprint;
use logic::Numbered;
use params::SessionParams;
use runner::Form;
use session::{Emit, Marks, Outcome, Outstanding, Pass, Play, Session};
use stats::SessionStats;
use std::io;
use std::io::{Read, Stdin, Stdout};
use window::Window;
use wire::{Body, ByeBody, Message};

const MOST: u64 = u64::MAX;

// How many bytes of a script are read, at most.
const READ: usize = 65536;

// Three seats, of which this is seat 1; two bytes a tick, delay 1, a digest every other tick.
fn trio(count: u8) -> SessionParams {
    SessionParams {
        count,
        local: 1,
        width: 2,
        delay: 1,
        period: 2,
        seed: 7,
        content: 8,
        rules: 9,
        session: 5,
    }
}

fn base() -> Session {
    Session::open(trio(3)).session
}

// A session that differs from a new one in what it plays and what it has seen.
fn with(play: Play, marks: Marks) -> Session {
    let mut s = base();
    s.head.play = play;
    s.head.marks = marks;
    s
}

fn at_ticks(pending: u64, next_local: u64) -> Play {
    Play {
        pending,
        next_local,
        ..base().head.play
    }
}

fn started() -> Marks {
    Marks {
        started: true,
        ..base().head.marks
    }
}

fn over(mut s: Session, outcome: Outcome) -> Session {
    s.head.outcome = Some(outcome);
    s
}

// Every tick number at its last.
fn at_the_last_tick() -> Session {
    let play = Play {
        stalled: MOST,
        ..at_ticks(MOST, MOST)
    };
    with(play, started())
}

// Seats that are none in every set.
fn strangers_in_the_sets() -> Session {
    let marks = Marks {
        hellos: 250,
        playing: 248,
        started: false,
    };
    with(at_ticks(3, 2), marks)
}

// It is over, and its marks say that it plays.
fn plays_though_over() -> Session {
    let marks = Marks {
        hellos: 7,
        ..started()
    };
    let outcome = Outcome::PeerLeft {
        peer: 200,
        tick: MOST,
    };
    over(with(at_ticks(4, 9), marks), outcome)
}

fn step_out(play: Play, tick: u64) -> Play {
    Play {
        step: Some(Outstanding { tick, due: true }),
        ..play
    }
}

// A step is out for another tick than the pending one.
fn steps_elsewhere() -> Session {
    with(step_out(at_ticks(5, 6), 77), started())
}

fn owing(mut s: Session, tick: u64, state: u64, input: u64) -> Session {
    s.head.owed = Some(Fingerprint { tick, state, input });
    s
}

// One's own cell 3 holds a print of tick 100, which belongs in cell 4. Cell 9 holds tick 9, of which seat 2 has another
// state, and seat 0's cell 9 holds tick 25. The owed print is of a tick that no cell holds.
fn prints_astray() -> Session {
    let marks = Marks {
        hellos: 7,
        ..started()
    };
    let mut s = with(step_out(at_ticks(9, 9), 9), marks);
    s.prints.held[3] = true;
    s.prints.ticks[3] = 100;
    s.prints.states[3] = 11;
    s.prints.inputs[3] = 12;
    s.prints.held[9] = true;
    s.prints.ticks[9] = 9;
    s.prints.states[9] = 13;
    s.prints.inputs[9] = 14;
    s.prints.held[25] = true;
    s.prints.ticks[25] = 25;
    s.prints.states[25] = 15;
    s.prints.held[57] = true;
    s.prints.ticks[57] = 9;
    s.prints.states[57] = 16;
    s.prints.inputs[57] = 17;
    owing(s, 40, 41, 42)
}

// The same, over as desynced at tick 9, which one's own cell holds and seat 2 denies, with pending at 0 again.
fn parted_astray() -> Session {
    let mut s = over(prints_astray(), Outcome::Desynced { tick: 9 });
    s.head.play.pending = 0;
    s
}

// The pump in the middle of a pass, at seats that are none.
fn pump_past_the_seats() -> Session {
    let mut s = with(at_ticks(0, 3), started());
    s.head.pass = Pass {
        kind: Emit::Inputs,
        place: 255,
    };
    owing(s, MOST, 1, 2)
}

// It says Bye, and is not over.
fn pump_says_bye() -> Session {
    let mut s = base();
    s.head.play = at_ticks(4, 0);
    s.head.pass = Pass {
        kind: Emit::Bye,
        place: 1,
    };
    s
}

// Cells of the ring that hold every seat, one for a tick 64 beyond pending.
fn ring_of_strangers() -> Session {
    let mut s = with(at_ticks(6, 70), started());
    let everybody = peer::PeerSet::of_count(peer::SEATS).bits();
    s.window.ticks[5] = 69;
    s.window.present[5] = everybody;
    s.window.ticks[6] = 6;
    s.window.present[6] = everybody;
    s.window.ring[(64 + 6) * 16] = 171;
    s
}

// Every counter at its end, and the last stall at this tick.
fn counters_full() -> Session {
    let play = Play {
        stalled: 0,
        ..at_ticks(0, 0)
    };
    let mut s = with(play, started());
    s.head.stats = SessionStats {
        datagrams_refused: MOST,
        frames_repeated: MOST,
        frames_contradicted: MOST,
        frames_out_of_window: MOST,
        digests_contradicted: MOST,
        stall_pumps: MOST,
    };
    s
}

// Parameters that no open takes: 20.
fn too_many_seats() -> Session {
    Session::open(trio(peer::SEATS + 1)).session
}

// ---- windows

// Every seat's frame for each of the ticks 0 to 63.
fn full_window() -> Window {
    let mut w = Window::new();
    for cell in 0..window::SLOTS {
        w.ticks[cell] = cell as u64;
    }
    w.present = [7; window::SLOTS];
    w
}

// A new session over it, but for where it is.
fn over_window(play: Play, window: Window) -> Session {
    let mut s = base();
    s.head.play = play;
    s.window = window;
    s
}

fn all_ready() -> Session {
    over_window(at_ticks(0, 0), full_window())
}

// All of the ticks 5 to 68, so that the first of them stand in the last cells.
fn turned() -> Session {
    let mut w = full_window();
    for cell in 0..5 {
        w.ticks[cell] = 64 + cell as u64;
    }
    over_window(at_ticks(5, 69), w)
}

// Seat 2 lacks at tick 40.
fn gap_ahead() -> Session {
    let mut w = full_window();
    w.present[40] = 3;
    over_window(at_ticks(0, 0), w)
}

// Seat 2 lacks at tick 0, and every seat that the circle does not have is there.
fn gap_at_once() -> Session {
    let mut w = full_window();
    w.present[0] = 251;
    over_window(at_ticks(0, 0), w)
}

// The same at tick 11, behind ticks of which every seat is there, those that the circle does not have too.
fn strangers_ahead() -> Session {
    let mut w = full_window();
    w.present[..11].fill(255);
    w.present[11] = 251;
    over_window(at_ticks(0, 0), w)
}

// The cell of tick 3 stands one turn ahead.
fn one_turn_ahead() -> Session {
    let mut w = full_window();
    w.ticks[3] = 67;
    over_window(at_ticks(0, 0), w)
}

// The last three ticks that there are; a sum that starts anew would go on at tick 0.
fn near_the_end() -> Session {
    let mut w = full_window();
    w.ticks[61] = MOST - 2;
    w.ticks[62] = MOST - 1;
    w.ticks[63] = MOST;
    over_window(at_ticks(MOST - 2, MOST), w)
}

fn at_the_end() -> Session {
    let mut w = full_window();
    w.ticks[63] = MOST;
    over_window(at_ticks(MOST, MOST), w)
}

// Over, with a step out for another tick.
fn ready_though_over() -> Session {
    let mut s = with(step_out(at_ticks(0, 0), 77), started());
    s.window = full_window();
    over(s, Outcome::Desynced { tick: 0 })
}

// Parameters that no open takes.
fn ready_for_none() -> Session {
    let mut s = too_many_seats();
    s.window = full_window();
    s
}

// The script on a session of its own.
fn run_on(to: Stdout, mut s: Session, script: &[u8], form: Form) {
    stream::run_bytes(to, &mut s, script, form);
}

// From each of its records on.
#[tactic(auto, using(script::proofs::Laws::size_is))]
fn from_each(to: Stdout, s: Session, script: &[u8]) {
    let mut left = script;
    while let Some(size) = script::record_size(left) {
        run_on(to, s, left, Form::Trace);
        left = &left[size..];
    }
}

fn number(to: Stdout, n: u8) -> io::Result<()> {
    println!(to; "{n}")
}

// The number that each call answers with, for a session that the runner takes for none.
fn numbers(to: Stdout, s: Session) -> io::Result<()> {
    let submitted = s.submit(b"ab").answer;
    number(to, submitted.number())?;
    let message = Message {
        sender: 0,
        session: 5,
        body: Body::Bye(ByeBody { tick: 0 }),
    };
    let delivered = deliver::deliver(s, 0, message, b"").answer;
    number(to, delivered.number())?;
    let advanced = s.advance().answer;
    number(to, advanced.number())?;
    let committed = s.commit(0, None).answer;
    number(to, committed.number())?;
    let left = s.leave().answer;
    number(to, left.number())?;
    let pumped = pump::next_outbound(s).answer;
    number(to, pumped.number())?;
    let sought = desync::desync_report(&s);
    number(to, sought.number())?;
    let ready = shown::ready_ticks(&s);
    number(to, ready.number())
}

// How many ticks are ready, of the session as it is and after each record of the script.
fn ready_on(to: Stdout, s: Session, script: &[u8]) -> io::Result<()> {
    match shown::ready_ticks(&s) {
        Ok(n) => println!(to; "ready {n}")?,
        Err(_) => println!(to; "ready none")?,
    }
    run_on(to, s, script, Form::Ready);
    Ok(())
}

// Standard input, as far as the buffer has room for it: how many bytes there are. Where a read begins is what those
// before it brought, so no iterator goes over the buffer.
fn read_script(mut from: Stdin, buffer: &mut [u8]) -> io::Result<usize>
    ensures { IfOk result (λ n. n ≤ length buffer.new) }
{
    let mut at: usize = 0;
    while at < buffer.len() {
        let n = from.read(&mut buffer[at..])?;
        if n == 0 {
            break;
        }
        at += n;
    }
    Ok(at)
}

fn main(rt: HostRuntime) -> io::Result<()> {
    let to = rt.stdout();
    let mut buffer = [0u8; READ];
    let n = read_script(rt.stdin(), &mut buffer)?;
    let script = &buffer[..n];
    from_each(to, at_the_last_tick(), script);
    from_each(to, strangers_in_the_sets(), script);
    from_each(to, plays_though_over(), script);
    from_each(to, steps_elsewhere(), script);
    from_each(to, prints_astray(), script);
    from_each(to, parted_astray(), script);
    from_each(to, pump_past_the_seats(), script);
    from_each(to, pump_says_bye(), script);
    from_each(to, ring_of_strangers(), script);
    from_each(to, counters_full(), script);
    from_each(to, too_many_seats(), script);
    numbers(to, too_many_seats())?;
    ready_on(to, at_the_last_tick(), script)?;
    ready_on(to, strangers_in_the_sets(), script)?;
    ready_on(to, plays_though_over(), script)?;
    ready_on(to, steps_elsewhere(), script)?;
    ready_on(to, prints_astray(), script)?;
    ready_on(to, parted_astray(), script)?;
    ready_on(to, pump_past_the_seats(), script)?;
    ready_on(to, pump_says_bye(), script)?;
    ready_on(to, ring_of_strangers(), script)?;
    ready_on(to, counters_full(), script)?;
    ready_on(to, too_many_seats(), script)?;
    ready_on(to, all_ready(), script)?;
    ready_on(to, turned(), script)?;
    ready_on(to, gap_ahead(), script)?;
    ready_on(to, gap_at_once(), script)?;
    ready_on(to, strangers_ahead(), script)?;
    ready_on(to, one_turn_ahead(), script)?;
    ready_on(to, near_the_end(), script)?;
    ready_on(to, at_the_end(), script)?;
    ready_on(to, ready_though_over(), script)?;
    ready_on(to, ready_for_none(), script)
}
