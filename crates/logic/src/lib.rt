// Sums that stop at their ends, a test of a range, the lesser of two, a byte in a wider type, and document 01's number
// of an answer: what every layer uses.
#![tactic(auto)]

ghost use Rattle.std.specs.Prelude.{◌≡◌, ◌-◌, min};
ghost use Rattle.logic.specs.Saturating.{raised, sum};
ghost use Rattle.logic.specs.Range.{outside};

mod numbered;

pub use numbered::Numbered;

// Where counters and ticks stop, 2^64-1.
pub const MOST: u64 = u64::MAX;

// One more, as a counter rises.
pub fn raise(n: u64) -> u64
    ensures { result ≡ raised n }
{
    n.saturating_add(1)
}

pub fn saturating_add(a: u64, b: u64) -> u64
    ensures { result ≡ sum a b }
{
    a.saturating_add(b)
}

pub fn saturating_sub(a: u64, b: u64) -> u64
    ensures { result ≡ a - b }
{
    a.saturating_sub(b)
}

// n is not among low to high.
pub fn is_outside(n: u8, low: u8, high: u8) -> bool
    ensures { result ≡ outside low high n }
{
    !(low..=high).contains(&n)
}

// A cast asks for the fact that the number fits wherever it stands. Here it asks once, and a caller has an equation to
// rewrite by.
pub fn wide(x: u8) -> usize
    ensures { result ≡ x }
{
    usize::from(x)
}

// As `wide`, to a u64.
pub fn long(x: u8) -> u64
    ensures { result ≡ x }
{
    u64::from(x)
}

// The lesser, the `min` of the definitions.
pub fn least(a: usize, b: usize) -> usize
    ensures { result ≡ min a b }
{
    a.min(b)
}
