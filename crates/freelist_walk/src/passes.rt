// A piece passed: the gap that lies before it is the next region, with the loan in front of it, or nothing lies there.
ghost use Rattle.std.specs.Prelude.{◌≡◌, ◌+◌, ◌*◌, ◌≤◌, length};
ghost use Rattle.words.specs.Rows.{rows};
ghost use Rattle.freelist_rules.specs.Records.{region_words, gap_row};
ghost use Rattle.freelist_walk.specs.Turn.{within, GapPassed, LoanPassed};

use freelist_regions::gap_at;
use freelist_rules::Gap;
use store_rules::Loan;

// A piece passed: the byte and the region that are next then.
#[derive(Clone, Copy)]
pub struct Passed {
    pub byte: u64,
    pub region: usize,
}

// What lies from `from` to `to` of a chunk is region d of the first n, behind the loan of record `last`, or nothing.
pub fn pass_gap(
    t: &[u64],
    n: usize,
    d: usize,
    chunk: u64,
    from: u64,
    to: u64,
    last: usize,
) -> Option<Passed>
    requires { (d ≤ n) × (region_words + region_words * n ≤ length t.now) }
    ensures { GapPassed chunk from to last (rows gap_row n t.now) d result }
{
    if from == to {
        return Some(Passed {
            byte: to,
            region: d,
        });
    }
    if (to < from) | (n <= d) {
        return None;
    }
    let wanted = Gap {
        chunk: chunk,
        start: from,
        end: to,
        front: last as u64,
    };
    if gap_at(t, d) == wanted {
        return Some(Passed {
            byte: to,
            region: d + 1,
        });
    }
    None
}

// Whether a loan is not empty and ends within a chunk of `size` bytes.
fn is_within(l: Loan, size: u64) -> bool
    ensures { result ≡ within l size }
{
    if l.offset <= size {
        (0 < l.size) & (l.size <= size - l.offset)
    } else {
        false
    }
}

// A loan of a chunk of `size` bytes, and what lies before it from `from` on, behind the loan of record `last`.
pub fn pass_loan(
    t: &[u64],
    n: usize,
    d: usize,
    size: u64,
    from: u64,
    l: Loan,
    last: usize,
) -> Option<Passed>
    requires { (d ≤ n) × (region_words + region_words * n ≤ length t.now) }
    ensures { LoanPassed size from last l (rows gap_row n t.now) d result }
{
    if !is_within(l, size) {
        return None;
    }
    let g = pass_gap(t, n, d, l.chunk, from, l.offset, last)?;
    Some(Passed {
        byte: l.offset + l.size,
        region: g.region,
    })
}
