// The lines that the script runner prints, one for each answer: whatever the lent text was, it is the line after. What
// is ready goes behind the line that stands. Nothing here reads a session.
#![tactic(auto, using(crate::proofs::Laws::says, crate::proofs::Laws::written, crate::proofs::Laws::of_length, text::proofs::Decimals::decimal_20), unfolding(crate::proofs::Laws::lines))]

ghost use Rattle.std.specs.Prelude.{◌≤◌, ◌*◌, ◌≡◌, length};
ghost use Rattle.peer.specs.Seats.{seats};
ghost use Rattle.text.specs.Text.{put};
ghost use Rattle.text.specs.Decimal.{decimal};
ghost use Rattle.lines.specs.Lines.{Says, numbered, flag_text, outcome_text, ended_line, open_line};
ghost use Rattle.lines.specs.Lines.{submit_line, deliver_line, field_text, field_texts};
ghost use Rattle.lines.specs.Lines.{step_line, stalled_line, advance_line, commit_line, leave_line};
ghost use Rattle.lines.specs.Lines.{report_line, body_text, send_line, ready_line, bad_line, none_line, cut_line};

use deliver::Delivery;
use desync::{DesyncReport, ReportError};
use logic::Numbered;
use params::{BadState, ParamsError};
use pump::Outbound;
use rows::Rows;
use session::{Advance, CommitError, Outcome, Step, SubmitError};
use text::Text;
use wire::Body;

// A word, with its blanks, and a number.
fn worded(out: &mut Text, word: &[u8], n: u64)
    ensures { out.new ≡ put (put out.old word.now) (decimal n) }
{
    out.piece(word);
    out.decimal(n);
}

// The line of a name and a number.
fn numbered(out: &mut Text, name: &[u8], n: u8)
    requires { length name.now ≤ 16 }
    ensures { Says (numbered name.now n) out.new }
{
    out.clear();
    worded(out, name, u64::from(n));
    out.byte(b'\n');
}

// A line of one word.
fn word_line(out: &mut Text, line: &[u8])
    requires { length line.now ≤ 16 }
    ensures { Says line.now out.new }
{
    out.clear();
    out.piece(line);
}

pub fn flag(out: &mut Text, on: bool)
    ensures { out.new ≡ put out.old (flag_text on) }
{
    if on {
        out.byte(b'1');
    } else {
        out.byte(b'0');
    }
}

// Why, seat and tick.
pub fn outcome(out: &mut Text, o: Outcome)
    ensures writes { out.new ≡ put out.old (outcome_text o) }
    ensures within { length (outcome_text o) ≤ 64 }
{
    match o {
        Outcome::Desynced { tick } => worded(out, b"1 - ", tick),
        Outcome::PeerLeft { peer, tick } => {
            worded(out, b"2 ", u64::from(peer));
            worded(out, b" ", tick);
        }
        Outcome::LeftLocally { tick } => worded(out, b"3 - ", tick),
    }
}

fn ended(out: &mut Text, o: Outcome)
    ensures { Says (ended_line o) out.new }
{
    out.clear();
    out.piece(b"ended ");
    outcome(out, o);
    out.byte(b'\n');
}

pub fn open_line(out: &mut Text, answer: Result<(), ParamsError>)
    ensures { Says (open_line answer) out.new }
{
    numbered(out, b"open ", answer.number());
}

// The number and, of an accepted press, the tick.
pub fn submit_line(out: &mut Text, answer: Result<u64, SubmitError>)
    ensures { Says (submit_line answer) out.new }
{
    out.clear();
    worded(out, b"submit ", u64::from(answer.number()));
    if let Ok(at) = answer {
        worded(out, b" ", at);
    }
    out.byte(b'\n');
}

pub fn deliver_line(out: &mut Text, answer: Delivery)
    ensures { Says (deliver_line answer) out.new }
{
    numbered(out, b"deliver ", answer.number());
}

pub fn commit_line(out: &mut Text, answer: Result<(), CommitError>)
    ensures { Says (commit_line answer) out.new }
{
    numbered(out, b"commit ", answer.number());
}

pub fn leave_line(out: &mut Text, answer: Result<Outcome, BadState>)
    ensures { Says (leave_line answer) out.new }
{
    match answer {
        Ok(o) => ended(out, o),
        Err(bad) => numbered(out, b"leave ", bad.number()),
    }
}

pub fn bad_line(out: &mut Text)
    ensures { Says bad_line out.new }
{
    word_line(out, b"bad\n");
}

pub fn none_line(out: &mut Text)
    ensures { Says none_line out.new }
{
    word_line(out, b"none\n");
}

pub fn cut_line(out: &mut Text)
    ensures { Says cut_line out.new }
{
    word_line(out, b"cut\n");
}

// The text of a report, or why there is none.
pub fn report_line(out: &mut Text, answer: Result<DesyncReport, ReportError>)
    ensures { Says (report_line answer) out.new }
{
    match answer {
        Ok(report) => {
            report.json(out);
            out.byte(b'\n');
        }
        Err(why) => numbered(out, b"report ", why.number()),
    }
}

// Kind, tick and count.
fn body(out: &mut Text, body: Body)
    ensures writes { out.new ≡ put out.old (body_text body) }
    ensures within { length (body_text body) ≤ 64 }
{
    match body {
        Body::Hello(_) => out.piece(b"3 0 0"),
        Body::Inputs(b) => {
            worded(out, b"4 ", b.first);
            worded(out, b" ", u64::from(b.count));
        }
        Body::Digest(b) => {
            worded(out, b"5 ", b.tick);
            out.piece(b" 0");
        }
        Body::Bye(b) => {
            worded(out, b"6 ", b.tick);
            out.piece(b" 0");
        }
        Body::Other(_) => out.piece(b"7 0 0"),
    }
}

pub fn send_line(out: &mut Text, answer: Outbound)
    ensures says { Says (send_line answer) out.new }
    ensures within { length (send_line answer) ≤ 100 }
{
    match answer {
        Outbound::Send { peer, message } => {
            out.clear();
            worded(out, b"send ", u64::from(peer));
            out.byte(b' ');
            body(out, message.body);
            out.byte(b'\n');
        }
        Outbound::Nothing => numbered(out, b"send ", 71),
        Outbound::BadState => numbered(out, b"send ", 20),
    }
}

// The first width bytes of a seat's row.
fn field(out: &mut Text, row: &[u8; 16], width: u8)
    ensures writes { out.new ≡ put out.old (field_text width row.now) }
    ensures within { length (field_text width row.now) ≤ 33 }
{
    out.byte(b' ');
    out.hex_bytes(&row[..usize::from(width).min(16)]);
}

// Whether a digest is due, and the fields.
fn fields(out: &mut Text, step: Step, rows: Rows)
    ensures writes { out.new
        ≡ put (put out.old (flag_text step.due)) (field_texts step.count step.width rows) }
    ensures within { length (field_texts step.count step.width rows) ≤ 33 * seats }
{
    flag(out, step.due);
    for row in &rows[..usize::from(step.count).min(rows::ROWS)] {
        field(out, row, step.width);
    }
}

fn step_line(out: &mut Text, step: Step, rows: Rows)
    ensures { Says (step_line step rows) out.new }
{
    out.clear();
    worded(out, b"step ", step.tick);
    out.byte(b' ');
    fields(out, step, rows);
    out.byte(b'\n');
}

fn stalled_line(out: &mut Text, tick: u64, waiting: peer::Bits, pumps: u64)
    ensures { Says (stalled_line tick waiting pumps) out.new }
{
    out.clear();
    worded(out, b"stalled ", tick);
    worded(out, b" ", u64::from(waiting));
    worded(out, b" ", pumps);
    out.byte(b'\n');
}

pub fn advance_line(out: &mut Text, answer: Advance, rows: Rows)
    ensures { Says (advance_line answer rows) out.new }
{
    match answer {
        Advance::Step(step) => step_line(out, step, rows),
        Advance::Waiting => word_line(out, b"waiting\n"),
        Advance::Stalled {
            tick,
            waiting,
            pumps,
        } => stalled_line(out, tick, waiting, pumps),
        Advance::Ended(o) => ended(out, o),
        Advance::BadState => numbered(out, b"advance ", 20),
    }
}

// How many ticks are ready, behind the line that stands: `none` where there is no session to ask.
pub fn ready_line(out: &mut Text, answer: Result<u64, BadState>)
    ensures writes { out.new ≡ put out.old (ready_line answer) }
    ensures within { length (ready_line answer) ≤ 27 }
{
    match answer {
        Ok(n) => {
            worded(out, b"ready ", n);
            out.byte(b'\n');
        }
        Err(_) => out.piece(b"ready none\n"),
    }
}
