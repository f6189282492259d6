// The script runner: one record in, its lines out, and the session that stands after it. The session and the text for
// the lines are lent. The programs add reading and writing, nothing else.
#![tactic(auto, using(logic::proofs::Cases::if_true, logic::proofs::Cases::if_false), unfolding(crate::proofs::Laws::runs))]

ghost use Rattle.std.specs.Prelude.{ℕ, ◌≤◌, ◌≡◌, [], length};
ghost use Rattle.text.specs.Text.{text_limit, put};
ghost use Rattle.session.specs.Session.{fresh};
ghost use Rattle.runner.specs.Runner.{no_params, Runs, run_open, open_line_of, next_of, line_of, run_asked};
ghost use Rattle.runner.specs.Runner.{asked_line, traced_line, shown_line, is_trace, Prints, run_record, record_lines};
ghost use Rattle.runner.specs.Runner.{end_lines};

use params::SessionParams;
use script::{Asked, Call};
use session::{Head, Session};
use text::Text;

// What a script's lines are: what document 01 says, and behind each of them, if asked for, what the trace form shows or
// how many ticks are ready.
#[derive(Clone, Copy, PartialEq, Eq, Debug)]
pub enum Form {
    Plain,
    Trace,
    Ready,
}

impl Form {
    // Whether the messages that go out are shown whole.
    fn traces(self) -> bool
        ensures { result ≡ is_trace self }
    {
        self == Form::Trace
    }
}

// Parameters that no open takes.
fn no_params() -> SessionParams
    ensures { result ≡ no_params }
{
    SessionParams::default()
}

// What stands before a good open: a session over such parameters.
pub fn start() -> Session
    ensures { result ≡ fresh no_params }
{
    Session::open(no_params()).session
}

// A good open replaces the session, a refused one leaves it.
fn run_open(s: &mut Session, out: &mut Text, params: SessionParams)
    ensures { Runs (run_open s.old params) (open_line_of params) s.new out.new }
{
    lines::open_line(out, params.validate());
    if !params.bad_state() {
        let _opened = s.open_in(params);
    }
}

fn run_call(s: &mut Session, out: &mut Text, call: Call, bytes: &[u8], traced: bool)
    ensures { Runs (next_of s.old call bytes.now) (line_of s.old call bytes.now traced) s.new out.new }
{
    match call {
        Call::Submit => lines::submit_line(out, s.submit_in(bytes)),
        Call::Deliver { source, message } => {
            lines::deliver_line(out, deliver::deliver_in(s, source, message, bytes))
        }
        Call::Advance => {
            let (answer, frames) = s.advance_in();
            lines::advance_line(out, answer, frames)
        }
        Call::Commit { tick, digest } => lines::commit_line(out, s.commit_in(tick, digest)),
        Call::Leave => lines::leave_line(out, s.leave_in()),
        Call::Pump => {
            let (answer, run) = pump::next_outbound_in(s);
            trace_text::send_lines(out, answer, run, traced)
        }
        Call::Report => lines::report_line(out, desync::desync_report(s)),
    }
}

// Before a good open only an open does anything.
fn run_asked(s: &mut Session, out: &mut Text, asked: Asked, bytes: &[u8], traced: bool)
    ensures { Runs (run_asked s.old asked bytes.now) (asked_line s.old asked bytes.now traced) s.new out.new }
{
    match asked {
        Asked::Bad => lines::bad_line(out),
        Asked::Open(params) => run_open(s, out, params),
        Asked::Of(call) => {
            if s.head.params.bad_state() {
                lines::none_line(out);
            } else {
                run_call(s, out, call, bytes, traced);
            }
        }
    }
}

// What the trace form shows of a session, once there is one.
fn show_traced(h: &Head, out: &mut Text)
    ensures writes { out.new ≡ put out.old (traced_line h.now) }
    ensures within { length (traced_line h.now) ≤ 400 }
{
    if h.params.bad_state() {
        out.piece(b"");
        return;
    }
    trace_text::state_line(
        out,
        h.stats,
        h.play.pending,
        h.play.next_local,
        shown::is_playing(h),
        shown::wants_local(h),
        h.play.digest,
        h.outcome,
    );
}

// What a form shows behind the line that stands. Where that is nothing an empty piece is written: of a text that is not
// written no clause knows that it is within its limit.
fn show(s: &Session, out: &mut Text, form: Form)
    ensures writes { out.new ≡ put out.old (shown_line s.now form) }
    ensures within { length (shown_line s.now form) ≤ 400 }
{
    match form {
        Form::Plain => out.piece(b""),
        Form::Trace => show_traced(&s.head, out),
        Form::Ready => lines::ready_line(out, shown::ready_ticks(s)),
    }
}

// One whole record: whatever the lent text was, it is the record's lines after.
pub fn run_record(s: &mut Session, out: &mut Text, record: &[u8], form: Form)
    ensures { Prints (run_record s.old «record».now) (record_lines s.old «record».now form) s.new out.new }
{
    let asked = script::asked_by(record);
    run_asked(s, out, asked, script::rest_of(record), form.traces());
    show(s, out, form);
}

// What a script ends in, which the lent text is after: a record that has begun and is not whole is cut.
pub fn end_lines(s: &Session, out: &mut Text, begun: usize, form: Form)
    ensures writes { out.new ≡ end_lines s.now begun form }
    ensures within { length (end_lines s.now begun form) ≤ text_limit }
{
    if begun == 0 {
        out.clear();
        return;
    }
    lines::cut_line(out);
    show(s, out, form);
}
