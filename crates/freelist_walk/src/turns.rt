// A turn of the walk passes one loan, or what is left of one chunk.
ghost use Rattle.std.specs.Prelude.{◌≡◌, true, ◌+◌, ◌*◌, ◌≤◌, ◌<◌, length};
ghost use Rattle.counter.specs.Limits.{chunks_most};
ghost use Rattle.store_rules.specs.Loans.{loan_words};
ghost use Rattle.freelist_walk.specs.Left.{all_of};
ghost use Rattle.freelist_walk.specs.Turn.{over_loan, over_chunk, Stands, next_ok, Turned};
ghost use Rattle.freelist_walk.specs.Grounds.{ground_in};

use crate::grounds::Ground;
use crate::passes::{Passed, pass_gap, pass_loan};
use crate::records::{chunk_in, record_after, record_before};
use store_rules::{CHUNK_AT, LOAN_WORDS};

// How far the walk has come: at a byte of a chunk, behind the loan of record `last`, with so many loans left, with the region that
// is next, and with so many whole ones met.
#[derive(Clone, Copy)]
pub struct Reached {
    pub chunk: usize,
    pub byte: u64,
    pub last: usize,
    pub left: usize,
    pub region: usize,
    pub whole: u64,
}

// 1 where what is left of a chunk is all of it, and not empty.
fn all_of(byte: u64, size: u64) -> u64
    ensures { result ≡ all_of byte size }
{
    u64::from((byte == 0) & (0 < size))
}

// Past the loan of record r, where p tells of its bytes.
fn over_loan(s: Reached, r: usize, p: Passed) -> Reached
    requires { 0 < s.left }
    ensures { result ≡ over_loan s r p }
{
    Reached {
        chunk: s.chunk,
        byte: p.byte,
        last: r,
        left: s.left - 1,
        region: p.region,
        whole: s.whole,
    }
}

// Past a chunk of `size` bytes, where p tells of what was left of it.
fn over_chunk(s: Reached, size: u64, p: Passed) -> Reached
    requires { (s.chunk < chunks_most) × (s.whole ≤ s.chunk) }
    ensures { result ≡ over_chunk s size p }
{
    Reached {
        chunk: s.chunk + 1,
        byte: 0,
        last: s.last,
        left: s.left,
        region: p.region,
        whole: s.whole + all_of(s.byte, size),
    }
}

// Whether record r is that of a loan, of so many that are left, and of the chunk with this number. Only then is a record read.
fn is_next(loans: &[u64], places: usize, left: usize, r: usize, number: u64) -> bool
    requires { loan_words + loan_words * places ≤ length loans.now }
    ensures { result ≡ next_ok left r places loans.now number }
{
    if ((0 < left) & (0 < r)) & (r <= places) {
        return loans[CHUNK_AT + LOAN_WORDS * (r - 1)] == number;
    }
    false
}

// One turn: the next loan, where it is one of this chunk, or else what is left of the chunk. None where they do not lie as the
// tables say.
pub fn turn(ground: &Ground<'_>, s: Reached) -> Option<Reached>
    requires { (s.chunk < ground.now.held) × Stands ground.now.held ground.now.count ground.now.places s }
    ensures { Turned ground.now.held ground.now.count (ground_in ground.now) s result }
{
    let c = chunk_in(ground.chunks, s.chunk);
    let r = record_after(ground.index, ground.most, s.last);
    if is_next(ground.loans, ground.places, s.left, r, c.number) {
        let l = book::loan_in(ground.loans, r - 1);
        let p = pass_loan(
            ground.regions,
            ground.count,
            s.region,
            c.size,
            s.byte,
            l,
            s.last,
        )?;
        let back = record_before(ground.index, ground.most, r);
        if back != s.last {
            return None;
        }
        return Some(over_loan(s, r, p));
    }
    let p = pass_gap(
        ground.regions,
        ground.count,
        s.region,
        c.number,
        s.byte,
        c.size,
        s.last,
    )?;
    Some(over_chunk(s, c.size, p))
}
