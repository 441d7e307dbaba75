// A store's share of the account as a call finds and leaves it: its heap, the objects still allowed, and the order.
ghost use Rattle.std.specs.Prelude.{◌≡◌, ◌+◌, ◌-◌, ◌≤◌};
ghost use Rattle.counter.specs.Limits.{objects_most};
ghost use Rattle.counter.specs.Paper.{free_of};
ghost use Rattle.store_rules.specs.Outcomes.{with_order};
ghost use Rattle.store_rules.specs.Shares.{share_of, with_share, charged_share, back_share, closed_share, lost_share, released_share};
ghost use Rattle.store_rules.specs.Tests.{covers_ok};

use counter::{Account, Heap, OBJECTS_MOST, OpenOrder, StoreSettings};
use store_rules::Share;

// Whether the heap and the object count cover a store's chunks.
pub fn covers(h: Heap, objects: u32, chunks: u64, bytes: u64) -> bool
    ensures { result ≡ covers_ok h objects chunks bytes }
{
    let most = (OBJECTS_MOST - objects) as u64;
    (bytes <= h.used) & (heap::agrees(h) & (chunks <= most))
}

// The share of a store with these settings.
pub fn share_of(s: StoreSettings, a: Account) -> Share
    ensures { result ≡ share_of s a }
{
    Share {
        bounded: counter::heaps_in_table(a.heaps),
        idle: crate::orders::no_order(a.order),
        heap: a.heap(s.heap),
        objects: a.objects,
    }
}

// The account with this share and this order in it, and the rest as it was.
pub fn with_share(s: StoreSettings, a: Account, share: Share, order: OpenOrder) -> Account
    ensures { result ≡ with_share s a share order }
{
    a.settled(s.heap, share.heap, share.objects, order)
}

pub fn with_order(a: Account, order: OpenOrder) -> Account
    ensures { result ≡ with_order a order }
{
    Account { order, ..a }
}

// One object fewer, not below 0.
fn one_fewer(objects: u32) -> u32
    ensures { result ≡ objects - 1 }
{
    objects.saturating_sub(1)
}

// A chunk of so many bytes was allocated, and the order is closed.
pub fn charged(share: Share, size: u64) -> Share
    ensures { result ≡ charged_share share size }
{
    Share {
        idle: true,
        heap: heap::charge(share.heap, size),
        objects: one_fewer(share.objects),
        ..share
    }
}

// It was, and is given back.
fn given_back(share: Share, size: u64) -> Share
    ensures { result ≡ back_share share size }
{
    Share {
        idle: true,
        heap: heap::release(heap::charge(share.heap, size), size),
        ..share
    }
}

// The order is closed, and nothing else has changed.
fn closed(share: Share) -> Share
    ensures { result ≡ closed_share share }
{
    Share {
        idle: true,
        ..share
    }
}

// The order is closed by a failure.
pub fn lost(share: Share, size: u64, charge: bool, free: Option<u64>) -> Share
    ensures { result ≡ lost_share share size charge (free_of free) }
{
    match free {
        _ if !charge => closed(share),
        None => charged(share, size),
        Some(_) => given_back(share, size),
    }
}

// So many chunks, of so many bytes in all, are released.
pub fn released(share: Share, count: u32, bytes: u64) -> Share
    requires { share.objects + count ≤ objects_most }
    ensures { result ≡ released_share share count bytes }
{
    Share {
        heap: heap::release(share.heap, bytes),
        objects: share.objects + count,
        ..share
    }
}
