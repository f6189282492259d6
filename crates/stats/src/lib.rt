// The six counters of a session, and the one thin function that records a refusal in counters that are lent for change.
#![tactic(auto)]

ghost use Rattle.std.specs.Prelude.{◌≡◌};
ghost use Rattle.stats.specs.Stats.{raised_if, no_stats, counted_of, stalled_of};

use logic::{is_outside, raise};

#[derive(Clone, Copy, Debug, Default, PartialEq, Eq)]
pub struct SessionStats {
    pub datagrams_refused: u64,
    pub frames_repeated: u64,
    pub frames_contradicted: u64,
    pub frames_out_of_window: u64,
    pub digests_contradicted: u64,
    pub stall_pumps: u64,
}

fn raise_if(on: bool, n: u64) -> u64
    ensures { result ≡ raised_if on n }
{
    if on { raise(n) } else { n }
}

impl SessionStats {
    pub fn new() -> Self
        ensures { result ≡ no_stats }
    {
        SessionStats::default()
    }

    // The counters after a delivery that answered `number`.
    pub fn counted(self, number: u8) -> Self
        ensures { result ≡ counted_of self number }
    {
        let refused = !is_outside(number, 21, 31);
        SessionStats {
            datagrams_refused: raise_if(refused, self.datagrams_refused),
            frames_contradicted: raise_if(number == 28, self.frames_contradicted),
            frames_out_of_window: raise_if(number == 27, self.frames_out_of_window),
            digests_contradicted: raise_if(number == 30, self.digests_contradicted),
            ..self
        }
    }

    // The counters after a stall; `again`: at the tick of the last one.
    pub fn stalled(self, again: bool) -> Self
        ensures { result ≡ stalled_of self again }
    {
        let stalls = if again { self.stall_pumps } else { 0 };
        SessionStats {
            stall_pumps: raise(stalls),
            ..self
        }
    }
}

// The same as `counted` for counters that are lent: document 01 names this form, "over a covered by-value function
// first".
pub fn record_refusal(stats: &mut SessionStats, number: u8)
    ensures { stats.new ≡ counted_of stats.old number }
{
    *stats = stats.counted(number);
}

// Lends its own copy, so that whoever calls this one holds plain counters.
pub fn refused(stats: SessionStats, number: u8) -> SessionStats
    ensures { result ≡ counted_of stats number }
{
    let mut counters = stats;
    record_refusal(&mut counters, number);
    counters
}
