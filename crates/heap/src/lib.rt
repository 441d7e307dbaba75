// One heap: what is used of it, and the two running totals of 128 bits, each in two words with carry.
// Any numbers may be handed in; what passes a bound wraps, and the tests here say beforehand whether it would.
#![tactic(auto)]

ghost use Rattle.std.specs.Prelude.{◌≡◌};
ghost use Rattle.heap.specs.Heap.{plus_of, charged_of, released_of, bears_ok, agrees_ok};

use counter::{HEAP_BYTES_MOST, Heap, Total};

// A total with n more.
pub fn plus(t: Total, n: u64) -> Total
    ensures { result ≡ plus_of t n }
{
    let (lo, carries) = t.lo.overflowing_add(n);
    let hi = t.hi.wrapping_add(u64::from(carries));
    Total { hi, lo }
}

pub fn charge(h: Heap, bytes: u64) -> Heap
    ensures { result ≡ charged_of h bytes }
{
    Heap {
        used: h.used.wrapping_add(bytes),
        allocated: plus(h.allocated, bytes),
        ..h
    }
}

// A give-back is a release too.
pub fn release(h: Heap, bytes: u64) -> Heap
    ensures { result ≡ released_of h bytes }
{
    Heap {
        used: h.used.saturating_sub(bytes),
        deallocated: plus(h.deallocated, bytes),
        ..h
    }
}

// Whether a charge passes no bound: 2^62 for what is used, 128 bits for the allocated total.
pub fn bears(h: Heap, bytes: u64) -> bool
    ensures { result ≡ bears_ok h bytes }
{
    let t = h.allocated;
    let room = (bytes <= u64::MAX - t.lo) | (t.hi < u64::MAX);
    if bytes <= HEAP_BYTES_MOST {
        (h.used <= HEAP_BYTES_MOST - bytes) & room
    } else {
        false
    }
}

// Whether what is used is what was allocated less what was deallocated.
pub fn agrees(h: Heap) -> bool
    ensures { result ≡ agrees_ok h }
{
    let a = h.allocated;
    let d = h.deallocated;
    let (lo, carries) = d.lo.overflowing_add(h.used);
    let (hi, over) = d.hi.overflowing_add(u64::from(carries));
    !over & (lo == a.lo) & (hi == a.hi)
}
