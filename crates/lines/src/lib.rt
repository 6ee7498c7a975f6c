// Comparing two lines of counts, rank 1 first, a byte each, by the order that best plans are defined by.
#![tactic(auto)]

ghost use Rattle.std.specs.Prelude.{◌≡◌, Ok};
ghost use Rattle.plans.specs.Order.{filled};
ghost use Rattle.lines.specs.Comparing.{Judged, Ordered, Compares, comparison_order};

use std::cmp::Ordering;
use units::{MOST_RANKS, MOST_SIGNALS, Refusal};

// The count at index i; a shorter line is filled up with zeros.
fn count_at(line: &[u8], i: usize) -> u8
    ensures { result ≡ filled line.now i }
{
    line.get(i).copied().unwrap_or(0)
}

// Whether there are more than 15 counts or a count above 200.
fn is_no_line(line: &[u8]) -> bool
    ensures { Judged line.now result }
{
    MOST_RANKS < line.len() || line.iter().any(|&count| MOST_SIGNALS < usize::from(count))
}

// The order of two lines that are known to be lines: the first rank where they differ decides.
// By index, since the shorter line goes on with zeros. Tried: arrays filled up by from_fn, and their own order; the law from the slices'
// order is longer than this loop's, and what from_fn says of its closure's calls was left open.
#[tactic(auto, using(crate::proofs::Compared::ordered_by, crate::proofs::Compared::ordered_equal))]
fn order_of(a: &[u8], b: &[u8]) -> Ordering
    ensures { Ordered a.now b.now (Ok result) }
{
    for i in 0..MOST_RANKS {
        let order = count_at(a, i).cmp(&count_at(b, i));
        if order != Ordering::Equal {
            return order;
        }
    }
    Ordering::Equal
}

// Compares two lines (row 5).
pub fn compare(a: &[u8], b: &[u8]) -> Result<Ordering, Refusal>
    ensures { Compares a.now b.now result }
{
    if is_no_line(a) || is_no_line(b) {
        return Err(Refusal::NoLine);
    }
    Ok(order_of(a, b))
}

// What a comparison comes to as a number: -1 where the first line is the lesser, 1 where it is the greater, 0 where they are equal or
// there is a refusal.
pub fn order(comparison: Result<Ordering, Refusal>) -> i32
    ensures { result ≡ comparison_order comparison }
{
    match comparison {
        Ok(Ordering::Less) => -1,
        Ok(Ordering::Equal) => 0,
        Ok(Ordering::Greater) => 1,
        Err(_) => 0,
    }
}
