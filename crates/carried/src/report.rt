// A report, asked for three times in buffers that this lends: no record of a script asks for one in a buffer that is
// too short, and the runner's lines do not show which bytes of a buffer were written.
ghost use Rattle.std.specs.Prelude.{◌≤◌};
ghost use Rattle.text.specs.Text.{text_limit};

use crate::answers::{Tried, of_report};
use session::Session;
use text::Text;

// What a lent buffer holds before a report is written into it. A report is ASCII, so every byte that it writes is
// another.
const UNTOUCHED: u8 = 170;

// How many bytes are not as they were; the whole buffer is looked at, and not only the part that was lent.
fn changed(buffer: &[u8]) -> u64 {
    buffer.iter().filter(|&&byte| byte != UNTOUCHED).count() as u64
}

// Only the first `room` bytes are lent.
fn try_in(s: &Session, room: usize) -> Tried
    requires { room ≤ text_limit }
{
    let mut buffer = [UNTOUCHED; text::LIMIT];
    let answer = desync::write_report(s, &mut buffer[..room]);
    Tried {
        answer,
        changed: changed(&buffer),
    }
}

// In the largest buffer, in one that is a byte too short for what that took, and in one that just holds it.
pub(crate) fn three_times(s: &Session, out: &mut Text) {
    let large = try_in(s, text::LIMIT);
    // no text is longer than the limit
    let n = large.answer.unwrap_or(0).min(text::LIMIT);
    out.piece(b"report");
    of_report(out, large);
    of_report(out, try_in(s, n.saturating_sub(1)));
    of_report(out, try_in(s, n));
}
