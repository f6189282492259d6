// What an answer adds to a job's sum: document 01's number or values that it carries, and, where its line is asked for,
// the line's length.
use desync::{DesyncReport, ReportError};
use logic::Numbered;
use params::BadState;
use pump::Outbound;
use rows::Rows;
use session::{Advance, Outcome, Session, SubmitError};
use stats::SessionStats;
use std::num::wrapping_add_u64;

// The sums of a job wrap: they are there to be compared.
pub(crate) fn sum(ns: &[u64]) -> u64 {
    let mut all = 0;
    for &n in ns {
        all = wrapping_add_u64(all, n);
    }
    all
}

pub(crate) fn of_number(answer: impl Numbered) -> u64 {
    u64::from(answer.number())
}

pub(crate) fn of_submit(answer: Result<u64, SubmitError>) -> u64 {
    answer.unwrap_or_else(|error| u64::from(error.number()))
}

// A byte of each of the two seats' presses.
pub(crate) fn of_advance(answer: Advance, rows: &Rows) -> u64 {
    match answer {
        Advance::Step(step) => sum(&[step.tick, u64::from(rows[0][0]), u64::from(rows[1][3])]),
        Advance::Waiting => 0,
        Advance::Stalled {
            tick,
            waiting,
            pumps,
        } => sum(&[tick, u64::from(waiting), pumps]),
        Advance::Ended(_) => 1,
        Advance::BadState => 20,
    }
}

// To whom, and a byte of the run.
pub(crate) fn of_pump(answer: Outbound, run: u8) -> u64 {
    match answer {
        Outbound::Send { peer, .. } => sum(&[u64::from(peer), u64::from(run)]),
        _ => of_number(answer),
    }
}

fn ended_at(outcome: Outcome) -> u64 {
    match outcome {
        Outcome::Desynced { tick } => tick,
        Outcome::PeerLeft { tick, .. } => tick,
        Outcome::LeftLocally { tick } => tick,
    }
}

pub(crate) fn of_leave(answer: Result<Outcome, BadState>) -> u64 {
    match answer {
        Ok(outcome) => sum(&[1, ended_at(outcome)]),
        Err(_) => 20,
    }
}

// Of a report, a number that was kept, and one that was worked out.
pub(crate) fn of_report(answer: &Result<DesyncReport, ReportError>) -> u64 {
    match answer {
        Ok(report) => sum(&[report.tick, report.local_state, report.agreement]),
        Err(error) => u64::from(error.number()),
    }
}

fn counted(stats: SessionStats) -> u64 {
    sum(&[
        stats.datagrams_refused,
        stats.frames_contradicted,
        stats.frames_repeated,
        stats.stall_pumps,
    ])
}

// What a job prints: the sum, the bytes of the line or the report that stands last, and how far the session came.
pub(crate) fn whole(told: u64, line: &[u8], report: &[u8], s: &Session) -> u64 {
    let mut all = sum(&[told, counted(s.head.stats), s.head.play.pending]);
    for &byte in line.iter().chain(report) {
        all = wrapping_add_u64(all, u64::from(byte));
    }
    all
}
