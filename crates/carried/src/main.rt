// What every answer carries. Standard input holds a script; for each record this prints the call, document 01's number
// of the answer and every value that the answer carries (answers.rt). A report is asked for three times, the second
// time in a buffer that is a byte too short (report.rt). The file stdout beside src/ is what the Rust says. Here is
// what drives: a record is read, its call is made, its line is written. The calls are those by value, so that they are
// held against the Rust as well as those in place, which `circle` makes.
#![tactic(auto)]

mod answers;
mod report;

ghost use Rattle.std.specs.Prelude.{◌≤◌};
ghost use Rattle.script.specs.Records.{longest};
ghost use Rattle.carried.specs.Reading.{size_of};

use params::SessionParams;
use script::{Asked, Call};
use session::Session;
use std::io::{Read, Stdin, Stdout};
use text::Text;

// What was read: a whole record, one that the end of the input cuts, or nothing.
#[derive(Clone, Copy)]
enum Record<'a> {
    Whole(&'a [u8]),
    Cut,
    End,
}

// ---- the calls

// A good open replaces the session, a refused one leaves it.
fn open(s: &mut Session, out: &mut Text, params: SessionParams) {
    let opened = Session::open(params);
    answers::of_open(out, opened.answer);
    if opened.answer.is_ok() {
        *s = opened.session;
    }
}

fn make(s: &mut Session, out: &mut Text, asked: Call, bytes: &[u8]) {
    match asked {
        Call::Submit => {
            let submitted = s.submit(bytes);
            *s = submitted.session;
            answers::of_submit(out, submitted.answer);
        }
        Call::Deliver { source, message } => {
            let delivered = deliver::deliver(*s, source, message, bytes);
            *s = delivered.session;
            answers::of_deliver(out, delivered.answer);
        }
        Call::Advance => {
            let advanced = s.advance();
            *s = advanced.session;
            answers::of_advance(out, advanced.answer);
        }
        Call::Commit { tick, digest } => {
            let committed = s.commit(tick, digest);
            *s = committed.session;
            answers::of_commit(out, committed.answer);
        }
        Call::Leave => {
            let left = s.leave();
            *s = left.session;
            answers::of_leave(out, left.answer);
        }
        Call::Pump => {
            let pumped = pump::next_outbound(*s);
            *s = pumped.session;
            answers::of_pump(out, pumped.answer);
        }
        Call::Report => report::three_times(s, out),
    }
}

// Before a good open only an open does anything.
fn answer(s: &mut Session, out: &mut Text, record: &[u8]) {
    match script::asked_by(record) {
        Asked::Bad => out.piece(b"bad"),
        Asked::Open(params) => open(s, out, params),
        Asked::Of(call) => {
            if s.head.params.bad_state() {
                out.piece(b"none");
            } else {
                make(s, out, call, script::rest_of(record));
            }
        }
    }
}

// ---- reading and writing

// The header first, which says how many bytes follow.
fn read_record(mut from: Stdin, buf: &mut [u8; script::LONGEST]) -> Record<'_>
    ensures { size_of result ≤ longest }
{
    let mut header = [0u8; script::HEADER];
    let got = from.read(&mut header).unwrap_or(0);
    if got == 0 {
        return Record::End;
    }
    if from.read_exact(&mut header[got..]).is_err() {
        return Record::Cut;
    }
    let size = usize::from(u16::from_le_bytes([header[0], header[1]]));
    let end = script::HEADER + size;
    buf[..script::HEADER].copy_from_slice(&header);
    if from.read_exact(&mut buf[script::HEADER..end]).is_err() {
        return Record::Cut;
    }
    Record::Whole(&buf[..end])
}

// Ends the line and writes it. It says whether that could be done.
fn say(to: Stdout, out: &mut Text) -> bool {
    out.byte(b'\n');
    to.write_all(out.as_bytes()).is_ok()
}

// The next record, if the input holds one: whether to go on.
fn take_turn(
    from: Stdin,
    to: Stdout,
    s: &mut Session,
    buf: &mut [u8; script::LONGEST],
    out: &mut Text,
) -> bool {
    out.clear();
    match read_record(from, buf) {
        Record::Whole(record) => {
            answer(s, out, record);
            say(to, out)
        }
        Record::Cut => {
            out.piece(b"cut");
            say(to, out);
            false
        }
        Record::End => false,
    }
}

// A proved loop has to end, and nothing says that the input does: it goes over more turns than any run uses up. Before
// a good open stands a session over parameters that no open takes.
fn main(rt: HostRuntime) {
    let mut buf = [0u8; script::LONGEST];
    let mut out = Text::new();
    let mut s = Session::open(SessionParams::default()).session;
    for _ in 0..u64::MAX {
        if !take_turn(rt.stdin(), rt.stdout(), &mut s, &mut buf, &mut out) {
            break;
        }
    }
}
