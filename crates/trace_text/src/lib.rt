// The trace form of a script's lines: every message whole, and after each record what the session shows. Programs are
// held against each other by it. All goes behind the record's line.
#![tactic(auto, using(lines::proofs::Laws::written, lines::proofs::Laws::of_length, text::proofs::Decimals::decimal_20, crate::proofs::Laws::spaced_short, lines::proofs::Laws::flag_one), unfolding(crate::proofs::Laws::parts))]

ghost use Rattle.std.specs.Prelude.{◌*◌, ◌≤◌, min, ◌≡◌, length};
ghost use Rattle.text.specs.Text.{put};
ghost use Rattle.lines.specs.Lines.{Says};
ghost use Rattle.trace_text.specs.Trace.{spaced, hello_whole, inputs_whole, body_whole, message_whole};
ghost use Rattle.trace_text.specs.Trace.{sent_line, send_lines, standing_text, counters_text, state_line};

use lines::{flag, outcome};
use pump::{Outbound, Run};
use session::Outcome;
use stats::SessionStats;
use text::Text;
use wire::{Body, HelloBody, InputsBody, Message};

// A number after a blank.
#[tactic(auto, using(lines::proofs::Laws::written), unfolding(crate::specs::Trace::spaced))]
fn spaced(out: &mut Text, n: u64)
    ensures { out.new ≡ put out.old (spaced n) }
{
    out.byte(b' ');
    out.decimal(n);
}

fn hello_whole(out: &mut Text, b: HelloBody)
    ensures writes { out.new ≡ put out.old (hello_whole b) }
    ensures within { length (hello_whole b) ≤ 168 }
{
    spaced(out, b.agreement);
    spaced(out, b.content);
    spaced(out, b.rules);
    spaced(out, b.seed);
    spaced(out, u64::from(b.count));
    spaced(out, u64::from(b.width));
    spaced(out, u64::from(b.delay));
    spaced(out, u64::from(b.period));
}

fn run_size(count: u8, width: u8) -> usize
    ensures { result ≡ min (count * width) 128 }
{
    (usize::from(count) * usize::from(width)).min(pump::RUN)
}

fn inputs_whole(out: &mut Text, b: InputsBody, run: Run)
    ensures writes { out.new ≡ put out.old (inputs_whole b run) }
    ensures within { length (inputs_whole b run) ≤ 320 }
{
    spaced(out, b.first);
    spaced(out, u64::from(b.count));
    spaced(out, u64::from(b.width));
    out.byte(b' ');
    out.hex_bytes(&run[..run_size(b.count, b.width)]);
}

// What a message holds, its run too.
fn body_whole(out: &mut Text, body: Body, run: Run)
    ensures writes { out.new ≡ put out.old (body_whole body run) }
    ensures within { length (body_whole body run) ≤ 320 }
{
    match body {
        Body::Hello(b) => hello_whole(out, b),
        Body::Inputs(b) => inputs_whole(out, b, run),
        Body::Digest(b) => {
            spaced(out, b.tick);
            spaced(out, b.state);
            spaced(out, b.input);
        }
        Body::Bye(b) => spaced(out, b.tick),
        Body::Other(kind) => spaced(out, u64::from(kind)),
    }
}

fn message_whole(out: &mut Text, m: Message, run: Run)
    ensures writes { out.new ≡ put out.old (message_whole m run) }
    ensures within { length (message_whole m run) ≤ 384 }
{
    out.decimal(u64::from(m.sender));
    spaced(out, m.session);
    body_whole(out, m.body, run);
}

// What a pump prints: its line and, in the trace form, the message that went out, if one did.
pub fn send_lines(out: &mut Text, answer: Outbound, run: Run, traced: bool)
    ensures { Says (send_lines answer run traced) out.new }
{
    lines::send_line(out, answer);
    if traced {
        sent_line(out, answer, run);
    }
}

// The trace form of a message that went out. Where none did an empty piece is written: of a text that is not written no
// clause knows that it is within its limit.
fn sent_line(out: &mut Text, answer: Outbound, run: Run)
    ensures writes { out.new ≡ put out.old (sent_line answer run) }
    ensures within { length (sent_line answer run) ≤ 400 }
{
    match answer {
        Outbound::Send { peer: _, message } => {
            out.piece(b"> ");
            message_whole(out, message, run);
            out.byte(b'\n');
        }
        Outbound::Nothing | Outbound::BadState => out.piece(b""),
    }
}

fn standing(out: &mut Text, standing: Option<Outcome>)
    ensures writes { out.new ≡ put out.old (standing_text standing) }
    ensures within { length (standing_text standing) ≤ 64 }
{
    match standing {
        Some(o) => outcome(out, o),
        None => out.piece(b"0 - 0"),
    }
}

fn counters(out: &mut Text, s: SessionStats)
    ensures writes { out.new ≡ put out.old (counters_text s) }
    ensures within { length (counters_text s) ≤ 128 }
{
    out.decimal(s.datagrams_refused);
    spaced(out, s.frames_repeated);
    spaced(out, s.frames_contradicted);
    spaced(out, s.frames_out_of_window);
    spaced(out, s.digests_contradicted);
    spaced(out, s.stall_pumps);
}

// The trace form of what a session shows, in the order in which it is written. The values stand side by side: a struct
// for them would be made in the one call and taken apart here, with as many names in each, and be no plainer.
pub fn state_line(
    out: &mut Text,
    stats: SessionStats,
    pending: u64,
    next: u64,
    playing: bool,
    wants: bool,
    digest: u64,
    outcome: Option<Outcome>,
)
    ensures writes { out.new
        ≡ put out.old (state_line stats pending next playing wants digest outcome) }
    ensures within { length (state_line stats pending next playing wants digest outcome) ≤ 400 }
{
    out.piece(b"= ");
    counters(out, stats);
    spaced(out, pending);
    spaced(out, next);
    out.byte(b' ');
    flag(out, playing);
    out.byte(b' ');
    flag(out, wants);
    spaced(out, digest);
    out.byte(b' ');
    standing(out, outcome);
    out.byte(b'\n');
}
