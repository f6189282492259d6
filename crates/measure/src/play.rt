// A job: its calls are made of a host, and every answer goes into the sum.
use crate::host::Host;
use crate::{asked, told};
use text::Text;

// Where the next call stands: behind the last one it is `again`.
fn place_after(calls: &[u8], at: usize, again: usize) -> usize {
    if at < calls.len() && at + 1 < calls.len() {
        at + 1
    } else {
        again
    }
}

// Makes a call: what its answer adds to the sum, but for the length of its line, which goes into `line` if it is asked
// for.
fn make<H: Host>(host: &mut H, call: u8, line: &mut Text, lined: bool) -> u64 {
    let given = &asked::PRESSES[..asked::size(call)];
    let pending = host.session().head.play.pending;
    match call {
        b'o' => {
            let answer = host.open(asked::PAIR);
            if lined {
                lines::open_line(line, answer);
            }
            told::of_number(answer)
        }
        b's' | b'x' => {
            let answer = host.submit(given);
            if lined {
                lines::submit_line(line, answer);
            }
            told::of_submit(answer)
        }
        b'h' | b'i' | b'e' | b'd' | b'f' => {
            let answer = host.deliver(1, asked::message(call, pending), given);
            if lined {
                lines::deliver_line(line, answer);
            }
            told::of_number(answer)
        }
        b'a' => {
            let (answer, rows) = host.advance();
            if lined {
                lines::advance_line(line, answer, rows);
            }
            told::of_advance(answer, &rows)
        }
        b'c' => {
            let answer = host.commit(pending, Some(5));
            if lined {
                lines::commit_line(line, answer);
            }
            told::of_number(answer)
        }
        b'p' => {
            let (answer, run) = host.pump();
            if lined {
                lines::send_line(line, answer);
            }
            told::of_pump(answer, run[3])
        }
        b'l' => {
            let answer = host.leave();
            if lined {
                lines::leave_line(line, answer);
            }
            told::of_leave(answer)
        }
        b'r' => {
            let answer = desync::desync_report(host.session());
            let value = told::of_report(&answer);
            if lined {
                lines::report_line(line, answer);
            }
            value
        }
        _ => 0,
    }
}

pub(crate) fn play<H: Host + Drop>(calls: &[u8], turns: u64, lined: bool) -> u64 {
    let again = crate::behind(calls, b'*');
    let mut host = H::new();
    let _opened = host.open(asked::PAIR);
    let mut line = Text::new();
    let mut report = [0u8; text::LIMIT];
    let mut written: usize = 0;
    let mut sum: u64 = 0;
    let mut at: usize = 0;
    for _ in 0..turns {
        let call = calls.get(at).copied().unwrap_or(0);
        at = place_after(calls, at, again);
        line.clear();
        written = 0;
        let value = if call == b'w' {
            let answer = desync::write_report(host.session(), &mut report);
            written = answer.unwrap_or(0);
            told::of_number(answer)
        } else {
            make(&mut host, call, &mut line, lined)
        };
        sum = told::sum(&[sum, value, line.len() as u64, written as u64]);
    }
    let text = &report[..written.min(text::LIMIT)];
    told::whole(sum, line.as_bytes(), text, host.session())
}
