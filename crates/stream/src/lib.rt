// Standard input to standard output, over the runner. The bytes come in pieces: a whole record in a piece is run where
// it stands, and one that a piece breaks off is gathered apart. What is read and written is in no contract, everything
// between is.
#![tactic(auto)]

ghost use Rattle.std.specs.Prelude.{◌≤◌, ◌≡◌, true, None, IfSome, [], length};
ghost use Rattle.text.specs.Text.{text_limit};
ghost use Rattle.script.specs.Records.{record_size};
ghost use Rattle.stream.specs.Stream.{reading_of, Feeds, Reads};
ghost use Rattle.runner.specs.Script.{reading, from};

use runner::Form;
use session::Session;
use std::io::{Read, Stdin, Stdout};
use text::{Buffer, Text};

// How much is read at once.
pub const PIECE: usize = 65536;

// How many bytes of lines are written at once. A piece's are written before the next is read.
pub const OUT: usize = 16384;

const LONGEST: usize = script::LONGEST;

// Of a script that is being read, the bytes of the record that has begun, which is not whole. The session that stands is
// lent, so that it is never copied.
#[derive(Drop)]
struct Reader {
    begun: Buffer<LONGEST>,
    ghost part: { record_size begun ≡ None },
}

// Writes the bytes, all of them. It says whether that could be done.
fn say(to: Stdout, bytes: &[u8]) -> bool {
    to.write_all(bytes).is_ok()
}

impl Reader {
    // Nothing has begun.
    fn new() -> Reader
        ensures { result.begun ≡ [] }
    {
        Reader {
            begun: Buffer::new(),
        }
    }

    // One record more, or some bytes of one: how many bytes of the piece are used. The text is the record's lines after.
    fn feed_one(&mut self, s: &mut Session, line: &mut Text, piece: &[u8], form: Form) -> usize
        ensures feeds { Feeds form (reading_of s.old self.old.begun []) piece.now result
            (reading_of s.new self.new.begun line.new) }
        ensures within_limit { length line.new ≤ text_limit }
    {
        if self.begun.len() == 0 {
            if let Some(size) = script::record_size(piece) {
                runner::run_record(s, line, &piece[..size], form);
                return size;
            }
        }
        let used = script::record_lacks(self.begun.as_bytes()).min(piece.len());
        self.begun.piece(&piece[..used]);
        if script::record_size(self.begun.as_bytes()).is_some() {
            runner::run_record(s, line, self.begun.as_bytes(), form);
            self.begun.clear();
        } else {
            line.clear();
        }
        used
    }

    // As much of a piece as there is room for the lines of, in `out`; each record's go through `line`.
    fn feed(
        &mut self,
        s: &mut Session,
        line: &mut Text,
        out: &mut Buffer<OUT>,
        piece: &[u8],
        form: Form,
    ) -> usize
        ensures { Feeds form (reading_of s.old self.old.begun []) piece.now result
            (reading_of s.new self.new.begun out.new) }
    {
        out.clear();
        // where a record begins is what those before it used, so no iterator goes over the piece
        let mut used = 0;
        while used < piece.len() && text::LIMIT <= OUT - out.len() {
            used += self.feed_one(s, line, &piece[used..], form);
            out.piece(line.as_bytes());
        }
        used
    }

    // A whole piece, its lines written. It says whether that could be done. The room for lines is lent: pieces may be
    // bytes, and new room for each would take longer than they do.
    fn run_piece(
        &mut self,
        to: Stdout,
        s: &mut Session,
        line: &mut Text,
        out: &mut Buffer<OUT>,
        piece: &[u8],
        form: Form,
    ) -> bool
        ensures { result ≡ true → Reads form (reading_of s.old self.old.begun []) piece.now s.new
            self.new.begun }
    {
        // as in `feed`
        let mut used = 0;
        while used < piece.len() {
            used += self.feed(s, line, out, &piece[used..], form);
            if !say(to, out.as_bytes()) {
                return false;
            }
        }
        true
    }
}

// The whole records of some bytes, on a session that was made elsewhere: how many bytes of a record have begun behind
// them, or nothing where the lines could not be written.
pub fn run_bytes(to: Stdout, s: &mut Session, bytes: &[u8], form: Form) -> Option<usize>
    ensures session { IfSome result (λ have. (reading form (from s.old) bytes.now).session ≡ s.new) }
    ensures have { IfSome result (λ have. length (reading form (from s.old) bytes.now).begun ≡ have) }
{
    let mut reader = Reader::new();
    let mut line = Text::new();
    let mut out = Buffer::new();
    if reader.run_piece(to, s, &mut line, &mut out, bytes, form) {
        Some(reader.begun.len())
    } else {
        None
    }
}

// One read: how many bytes it brought. The input ends where it brings none, or fails.
fn read_piece(mut from: Stdin, piece: &mut [u8]) -> usize
    ensures { result ≤ length piece.old }
{
    from.read(piece).unwrap_or(0)
}

// A proved loop has to end, and nothing says that the input does: the turns are more than any run uses up.
pub fn run(from: Stdin, to: Stdout, form: Form) {
    let mut s = runner::start();
    let mut reader = Reader::new();
    let mut line = Text::new();
    let mut out = Buffer::new();
    let mut piece = [0u8; PIECE];
    for _ in 0..u64::MAX {
        let n = read_piece(from, &mut piece);
        if n == 0 || !reader.run_piece(to, &mut s, &mut line, &mut out, &piece[..n], form) {
            break;
        }
    }
    runner::end_lines(&s, &mut line, reader.begun.len(), form);
    say(to, line.as_bytes());
}
