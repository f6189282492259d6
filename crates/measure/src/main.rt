// The calls of a session, made over and over, to be timed beside the Rust's (tools/bench). Standard input holds jobs,
// one to a line: the way in which the calls are made, how many there are, a blank, and the calls; those behind the star
// are made again and again. For each job this prints a number that every answer went into. The file stdout beside src/
// is what the Rust says.
//
//     way    p in place   v by value   P, V the same, and the line of each answer is made
//     calls  o open       s submit     x submit, a byte too long
//            h Hello      i Inputs     e Inputs of eight ticks   d Digest   f Digest, which parts the two
//            a advance    c commit     p pump   l leave   r report   w report, written   * and others: nothing
#![tactic(auto)]

mod asked;
mod host;
mod play;
mod told;

ghost use Rattle.std.specs.Prelude.{◌≤◌, length};

use host::{ByValue, InPlace};
use play::play;
use std::io;
use std::io::{Read, Stdout};

// The place behind the first one of a byte, or the end.
fn behind(bytes: &[u8], sought: u8) -> usize
    ensures { result ≤ length bytes.now }
{
    match bytes.iter().position(|&byte| byte == sought) {
        Some(at) => at + 1,
        None => bytes.len(),
    }
}

// A digit more; no job has more calls than numbers of twelve digits say.
fn with_digit(n: u64, byte: u8) -> u64 {
    if !byte.is_ascii_digit() || n > 99_999_999_999 {
        return n;
    }
    n * 10 + u64::from(byte - b'0')
}

// The digits among the bytes as a number.
fn count_in(bytes: &[u8]) -> u64 {
    let mut n = 0;
    for &byte in bytes {
        n = with_digit(n, byte);
    }
    n
}

fn make(way: u8, turns: u64, calls: &[u8]) -> u64 {
    match way {
        b'p' => play::<InPlace>(calls, turns, false),
        b'P' => play::<InPlace>(calls, turns, true),
        b'v' => play::<ByValue>(calls, turns, false),
        b'V' => play::<ByValue>(calls, turns, true),
        _ => 0,
    }
}

fn answer(to: Stdout, job: &[u8]) -> io::Result<()> {
    let blank = behind(job, b' ');
    let way = job.first().copied().unwrap_or(0);
    let sum = make(way, count_in(&job[..blank]), &job[blank..]);
    println!(to; "{sum}")
}

// The jobs are as many as one read brings.
fn main(rt: HostRuntime) -> io::Result<()> {
    let mut jobs = [0u8; 2048];
    let end = rt.stdin().read(&mut jobs)?;
    for line in jobs[..end].split_inclusive(|&byte| byte == b'\n') {
        answer(rt.stdout(), line.strip_suffix(b"\n").unwrap_or(line))?;
    }
    Ok(())
}
