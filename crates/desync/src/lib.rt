// What is written down of two players that parted: the report, and its text, which a support desk reads and tools
// parse.
#![tactic(auto)]

ghost use Rattle.std.specs.Prelude.{◌≡◌, ◌≤◌, ◌<◌, min, length, Option};
ghost use Rattle.peer.specs.Seats.{seats, set_of};
ghost use Rattle.text.specs.Text.{put};
ghost use Rattle.text.specs.Decimal.{decimal};
ghost use Rattle.desync.specs.Report.{others_of, differs, dissenters_of, inputs_agree, is_witnessed};
ghost use Rattle.desync.specs.Report.{print_in, heard_from, heard_all, report_at};
ghost use Rattle.desync.specs.Json.{report_most, flag_text, digest_text, seat_digest, tick_text, comma};
ghost use Rattle.desync.specs.Json.{seat_list, peer_text, peer_list, head_text, verdict_text};
ghost use Rattle.desync.specs.Json.{own_text, lists_text, agreed_text, stats_text, report_text};
ghost use Rattle.desync.specs.Asked.{unwritten, desync_report, Writes};
ghost use Rattle.logic.specs.Numbered.{done_no};
ghost use Rattle.desync.specs.Numbers.{report_error_no, write_error_no};
ghost use Rattle.desync.specs.declared.ReportError.TheVariants as ReportError';
ghost use Rattle.desync.specs.declared.WriteError.TheVariants as WriteError';

use fingerprint::{Fingerprint, Fingerprints};
use logic::Numbered;
use params::{BadState, SessionParams};
use peer::PeerSet;
use session::{Outcome, Session};
use stats::SessionStats;
use text::{NoRoom, Text};

const SEATS: usize = peer::SEATS as usize;

// Everything known of a divergence at the tick where it was caught. A seat's state and input are there where the set
// beside them has the seat: flat numbers with a presence mark (document 01).
#[derive(Clone, Copy)]
pub struct DesyncReport {
    pub tick: u64,
    pub local: u8,
    pub peer_count: u8,
    pub local_state: u64,
    pub local_input: u64,
    pub states_in: peer::Bits,
    pub states: [u64; SEATS],
    pub inputs_in: peer::Bits,
    pub inputs: [u64; SEATS],
    // the divergence is after this tick, so this bounds the search for it
    pub last_agreed: Option<u64>,
    pub agreement: u64,
    pub content: u64,
    pub rules: u64,
    pub seed: u64,
    pub stats: SessionStats,
}

// What each seat reported for a tick, flat as in the report that it goes into.
#[derive(Clone, Copy)]
struct Heard {
    pub there: peer::Bits,
    pub states: [u64; SEATS],
    pub inputs: [u64; SEATS],
}

// Why there is no report.
#[derive(Clone, Copy, PartialEq, Eq, Debug)]
pub enum ReportError {
    BadState,
    NoDesync,
}

// Why no text was written.
#[derive(Clone, Copy, PartialEq, Eq, Debug)]
pub enum WriteError {
    BadState,
    NoDesync,
    NoRoom,
}

impl From<BadState> for ReportError {
    ghost from_gives = { λ _ e. e ≡ ReportError'.BadState };

    fn from(_bad: BadState) -> Self {
        Self::BadState
    }
}

impl From<ReportError> for WriteError {
    ghost from_gives = { λ why e. e ≡ unwritten why };

    fn from(why: ReportError) -> Self {
        match why {
            ReportError::BadState => Self::BadState,
            ReportError::NoDesync => Self::NoDesync,
        }
    }
}

impl From<NoRoom> for WriteError {
    ghost from_gives = { λ _ e. e ≡ WriteError'.NoRoom };

    fn from(_full: NoRoom) -> Self {
        Self::NoRoom
    }
}

impl Numbered for ReportError {
    ghost number_of = { report_error_no };

    fn number(self) -> u8 {
        match self {
            ReportError::BadState => 20,
            ReportError::NoDesync => 61,
        }
    }
}

impl Numbered for WriteError {
    ghost number_of = { write_error_no };

    fn number(self) -> u8 {
        match self {
            WriteError::BadState => 20,
            WriteError::NoDesync => 61,
            WriteError::NoRoom => 62,
        }
    }
}

// A report is no refusal.
impl Numbered for DesyncReport {
    ghost number_of = { done_no };

    fn number(self) -> u8 {
        0
    }
}

// ---- what a report says

// The seat is asked, its number is there, and it is another than one's own.
#[tactic(auto, unfolding(crate::specs::Report::differs))]
fn differs(asked: PeerSet, there: PeerSet, numbers: [u64; SEATS], own: u64, seat: u8) -> bool
    requires { seat < seats }
    ensures { result ≡ differs asked.0 there.0 numbers own seat }
{
    asked.contains(seat) && there.contains(seat) && numbers[usize::from(seat)] != own
}

#[tactic(auto, using(peer::proofs::Loops::built_none, peer::proofs::Loops::built_with, peer::proofs::Loops::built_skip, peer::proofs::Loops::built_all))]
fn unlike(asked: PeerSet, there: PeerSet, numbers: [u64; SEATS], own: u64) -> PeerSet
    ensures { result.0 ≡ set_of seats (differs asked.0 there.0 numbers own) }
{
    let mut set = PeerSet(0);
    for seat in 0..peer::SEATS {
        if differs(asked, there, numbers, own, seat) {
            set = set.with(seat);
        }
    }
    set
}

impl DesyncReport {
    #[tactic(auto, unfolding(crate::specs::Report::others_of))]
    fn others(&self) -> PeerSet
        ensures { result.0 ≡ others_of self.now }
    {
        PeerSet::of_count(self.peer_count).without(self.local)
    }

    // The peers whose state differs from this player's. Of three or more this names the odd one out.
    #[tactic(auto, unfolding(crate::specs::Report::dissenters_of))]
    pub fn dissenters(&self) -> PeerSet
        ensures { result.0 ≡ dissenters_of self.now }
    {
        unlike(
            self.others(),
            PeerSet(self.states_in),
            self.states,
            self.local_state,
        )
    }

    // Whose fault it is, in one bit: the players that reported ran the same inputs, so it is the world's; or they did
    // not, and it is the session's, the host's or the radio's.
    #[tactic(auto, using(crate::proofs::Loops::empty_set), unfolding(crate::specs::Report::inputs_agree))]
    pub fn inputs_agree(&self) -> bool
        ensures { result ≡ inputs_agree self.now }
    {
        unlike(
            self.others(),
            PeerSet(self.inputs_in),
            self.inputs,
            self.local_input,
        )
        .is_empty()
    }

    // A report about a tick that nobody else reported compares nothing, and must not read as agreement.
    #[tactic(auto, unfolding(crate::specs::Report::is_witnessed))]
    pub fn witnessed(&self) -> bool
        ensures { result ≡ is_witnessed self.now }
    {
        !PeerSet(self.states_in).is_empty()
    }
}

// ---- a report is made

// What a cell holds; zeros when it is empty.
fn print_in(cell: Option<Fingerprint>) -> Fingerprint
    ensures { result ≡ print_in cell }
{
    cell.unwrap_or(Fingerprint {
        tick: 0,
        state: 0,
        input: 0,
    })
}

// What a seat reported for that very tick, if it is a remote.
#[tactic(auto, using(logic::proofs::Cases::if_true, logic::proofs::Cases::if_false), unfolding(crate::specs::Report::heard_from))]
fn heard_from(remotes: PeerSet, prints: &Fingerprints, tick: u64, seat: u8) -> Option<Fingerprint>
    ensures { result ≡ heard_from remotes.0 prints.now tick seat }
{
    if !remotes.contains(seat) {
        return None;
    }
    prints.remote_for(seat, tick)
}

fn heard_all(remotes: PeerSet, prints: &Fingerprints, tick: u64) -> Heard
    ensures { result ≡ heard_all remotes.0 prints.now tick }
{
    let mut there = PeerSet(0);
    let mut states = [0u64; SEATS];
    let mut inputs = [0u64; SEATS];
    for seat in 0..peer::SEATS {
        let cell = heard_from(remotes, prints, tick, seat);
        let print = print_in(cell);
        states[usize::from(seat)] = print.state;
        inputs[usize::from(seat)] = print.input;
        if cell.is_some() {
            there = there.with(seat);
        }
    }
    Heard {
        there: there.bits(),
        states,
        inputs,
    }
}

// One's own numbers are those of the tick's cell as it stands; those of the others are of this very tick.
#[tactic(auto, unfolding(crate::specs::Report::report_at))]
pub fn report_at(
    params: SessionParams,
    prints: &Fingerprints,
    stats: SessionStats,
    tick: u64,
) -> DesyncReport
    ensures { result ≡ report_at params prints.now stats tick }
{
    let mine = print_in(prints.own(tick));
    let remotes = params.remotes();
    let Heard {
        there,
        states,
        inputs,
    } = heard_all(remotes, prints, tick);
    DesyncReport {
        tick,
        local: params.local,
        peer_count: params.count,
        local_state: mine.state,
        local_input: mine.input,
        states_in: there,
        states,
        inputs_in: there,
        inputs,
        last_agreed: prints.last_agreed(remotes, tick),
        agreement: params.agreement(),
        content: params.content,
        rules: params.rules,
        seed: params.seed,
        stats,
    }
}

// ---- its text: each function writes a name, and a value behind it

fn number(out: &mut Text, name: &[u8], n: u64)
    ensures { out.new ≡ put (put out.old name.now) (decimal n) }
{
    out.piece(name);
    out.decimal(n);
}

#[tactic(auto, unfolding(crate::specs::Json::flag_text))]
fn flag(out: &mut Text, name: &[u8], on: bool)
    ensures { out.new ≡ put (put out.old name.now) (flag_text on) }
{
    out.piece(name);
    out.piece(if on { b"true" } else { b"false" });
}

fn digest(out: &mut Text, name: &[u8], n: u64)
    ensures { out.new ≡ put (put out.old name.now) (digest_text n) }
{
    out.piece(name);
    out.piece(b"\"0x");
    out.hex16(n);
    out.piece(b"\"");
}

#[tactic(auto, using(logic::proofs::Cases::if_true, logic::proofs::Cases::if_false), unfolding(crate::specs::Json::seat_digest))]
fn seat_digest(out: &mut Text, name: &[u8], there: PeerSet, numbers: [u64; SEATS], seat: u8)
    requires { seat < seats }
    ensures { out.new ≡ put (put out.old name.now) (seat_digest there.0 numbers seat) }
{
    if there.contains(seat) {
        return digest(out, name, numbers[usize::from(seat)]);
    }
    out.piece(name);
    out.piece(b"null");
}

#[tactic(auto, using(crate::proofs::Laws::tick_length), unfolding(crate::specs::Json::tick_text))]
fn last_tick(out: &mut Text, name: &[u8], last: Option<u64>)
    ensures writes { out.new ≡ put (put out.old name.now) (tick_text last) }
    ensures tick_within_20 { length (tick_text last) ≤ 20 }
{
    out.piece(name);
    match last {
        Some(tick) => out.decimal(tick),
        None => out.piece(b"null"),
    }
}

// A comma goes before each element but the first.
#[tactic(auto, using(crate::proofs::Loops::comma_some), unfolding(crate::specs::Json::comma))]
fn comma(out: &mut Text, position: u8)
    ensures { out.new ≡ put out.old (comma position) }
{
    out.piece(if position == 0 { b"" } else { b"," });
}

fn seat_list(out: &mut Text, name: &[u8], set: PeerSet)
    ensures { out.new ≡ put (put out.old name.now) (seat_list set.0 seats) }
{
    out.piece(name);
    let mut position: u8 = 0;
    for seat in 0..peer::SEATS {
        if set.contains(seat) {
            comma(out, position);
            out.decimal(u64::from(seat));
            position += 1;
        }
    }
}

impl DesyncReport {
    fn peer(&self, out: &mut Text, seat: u8)
        requires { seat < seats }
        ensures { out.new ≡ put out.old (peer_text self.now seat) }
    {
        comma(out, seat);
        number(out, b"{\"seat\":", u64::from(seat));
        let stated = PeerSet(self.states_in);
        seat_digest(out, b",\"state_digest\":", stated, self.states, seat);
        let pressed = PeerSet(self.inputs_in);
        seat_digest(out, b",\"input_digest\":", pressed, self.inputs, seat);
        out.piece(b"}");
    }

    // The list has the seats of the circle that there are.
    fn peers(&self, out: &mut Text, name: &[u8])
        ensures { out.new ≡ put (put out.old name.now) (peer_list self.now (min self.now.peer_count seats)) }
    {
        out.piece(name);
        for seat in 0..self.peer_count.min(peer::SEATS) {
            self.peer(out, seat);
        }
    }

    fn head(&self, out: &mut Text)
        ensures { out.new ≡ put out.old (head_text self.now) }
    {
        number(out, b"{\"schema_version\":1,\"tick\":", self.tick);
        number(out, b",\"local\":", u64::from(self.local));
        number(out, b",\"peer_count\":", u64::from(self.peer_count));
    }

    fn verdict(&self, out: &mut Text)
        ensures { out.new ≡ put out.old (verdict_text self.now) }
    {
        flag(out, b",\"inputs_agree\":", self.inputs_agree());
        flag(out, b",\"witnessed\":", self.witnessed());
    }

    fn own(&self, out: &mut Text)
        ensures writes { out.new ≡ put out.old (own_text self.now) }
        ensures last_tick_within_20 { length (tick_text self.now.last_agreed) ≤ 20 }
    {
        digest(out, b",\"local_state_digest\":", self.local_state);
        digest(out, b",\"local_input_digest\":", self.local_input);
        last_tick(out, b",\"last_agreed_tick\":", self.last_agreed);
    }

    fn lists(&self, out: &mut Text)
        ensures { out.new ≡ put out.old (lists_text self.now) }
    {
        seat_list(out, b",\"dissenters\":[", self.dissenters());
        self.peers(out, b"],\"peers\":[");
    }

    fn agreed(&self, out: &mut Text)
        ensures { out.new ≡ put out.old (agreed_text self.now) }
    {
        digest(out, b"],\"agreement_digest\":", self.agreement);
        digest(out, b",\"content\":", self.content);
        digest(out, b",\"rules\":", self.rules);
        number(out, b",\"seed\":", self.seed);
    }

    // The report's text, whatever the lent text was. By value: only then the check knows that its numbers are u64 and
    // bytes, which bounds the text.
    pub fn json(self, out: &mut Text)
        ensures writes { out.new ≡ report_text self }
        ensures within_report_most { length (report_text self) ≤ report_most }
    {
        out.clear();
        self.head(out);
        self.verdict(out);
        self.own(out);
        self.lists(out);
        self.agreed(out);
        counters(out, self.stats);
    }
}

fn counters(out: &mut Text, s: SessionStats)
    ensures { out.new ≡ put out.old (stats_text s) }
{
    number(
        out,
        b",\"stats\":{\"datagrams_refused\":",
        s.datagrams_refused,
    );
    number(out, b",\"frames_repeated\":", s.frames_repeated);
    number(out, b",\"frames_contradicted\":", s.frames_contradicted);
    number(out, b",\"frames_out_of_window\":", s.frames_out_of_window);
    number(out, b",\"digests_contradicted\":", s.digests_contradicted);
    number(out, b",\"stall_pumps\":", s.stall_pumps);
    out.piece(b"}}");
}

// ---- what a session is asked

// The report of a session that is over because the players parted.
#[tactic(auto, using(logic::proofs::Cases::if_true, logic::proofs::Cases::if_false), unfolding(crate::specs::Asked::report_by, crate::specs::Asked::desync_report, params::specs::Params::check_of))]
pub fn desync_report(s: &Session) -> Result<DesyncReport, ReportError>
    ensures { result ≡ desync_report s.now }
{
    s.head.params.check()?;
    let Some(Outcome::Desynced { tick }) = s.head.outcome else {
        return Err(ReportError::NoDesync);
    };
    Ok(report_at(s.head.params, &s.prints, s.head.stats, tick))
}

// The text at the front of `out`, if there is a desync and room for all of it. Its length is known only when it is
// made, and without room nothing is written: so it is made apart.
pub fn write_report(s: &Session, out: &mut [u8]) -> Result<usize, WriteError>
    ensures { Writes s.now out.old result out.new }
{
    let report = desync_report(s)?;
    let mut text = Text::new();
    report.json(&mut text);
    Ok(text.copy_out(out)?)
}
