// A store's share of the account, read from words and written again; wire_rules' specs/Wire says which word is what.
#![tactic(auto)]

ghost use Rattle.std.specs.Prelude.{◌≡◌, true, ◌<◌};
ghost use Rattle.counter.specs.Account.{heap_at};
ghost use Rattle.counter.specs.Limits.{heaps_most};
ghost use Rattle.counter.specs.Paper.{ask_said};
ghost use Rattle.counter.specs.Table.{heaps_ok};
ghost use Rattle.std.specs.Prelude.{Some};
ghost use Rattle.store_rules.specs.Shares.{share_of};
ghost use Rattle.wire_rules.specs.Wire.{heaps_in, order_in, account_in, account_ok, heap_out, order_out, share_out, asked_out};

use counter::{
    Ask, Granted, HEAP_BYTES_MOST, HEAPS, Heap, KeptOrder, OpenOrder, Order, Refused,
    StoreSettings, Total,
};
use store_rules::Share;
use wire::{is_narrow, narrow};

// Where each word stands, by the names that specs/Wire gives.
const HEAP_WORDS: usize = 6;

const OBJECTS_AT: usize = 96;

const OPEN_AT: usize = 97;

const ORDER_STORE_AT: usize = 98;

const ORDER_SIZE_AT: usize = 99;

const ORDER_MEMTYPE_AT: usize = 100;

const ORDER_MAP_AT: usize = 101;

const ASK_SIZE_AT: usize = 102;

const ASK_MASK_AT: usize = 103;

const ACCOUNT_WORDS: usize = 104;

// Whether the words are an account's.
pub fn is_account(w: &[u64]) -> bool
    ensures { result ≡ account_ok w.now }
{
    if w.len() != ACCOUNT_WORDS {
        return false;
    }
    is_narrow(w, OBJECTS_AT)
        & (words::word(w, OPEN_AT) <= 1)
        & is_narrow(w, ORDER_STORE_AT)
        & is_narrow(w, ORDER_MEMTYPE_AT)
        & (words::word(w, ORDER_MAP_AT) <= 1)
}

// Whether every heap is in 01's table.
#[tactic(auto, using(wire_rules::proofs::Orders::right_yes))]
pub fn heaps_in_table(w: &[u64]) -> bool
    requires { account_ok w.now ≡ true }
    ensures { result ≡ heaps_ok (heaps_in w.now heaps_most) }
{
    // to the end, so that no turn branches: what is tested is in the table nearly always
    let mut ok = true;
    for i in 0..HEAPS {
        let at = HEAP_WORDS * i;
        ok &= (w[at] <= HEAP_BYTES_MOST) & (w[at + 1] <= HEAP_BYTES_MOST);
    }
    ok
}

// The heap with this number, an empty one past the last.
#[tactic(auto, using(wire_rules::proofs::Orders::right_yes, wire_rules::proofs::Shares::read_own, wire_rules::proofs::Shares::read_none))]
fn read_heap(w: &[u64], i: usize) -> Heap
    requires { account_ok w.now ≡ true }
    ensures { result ≡ heap_at (account_in w.now) i }
{
    if i < HEAPS {
        let at = HEAP_WORDS * i;
        return Heap {
            size: w[at],
            used: w[at + 1],
            allocated: Total {
                hi: w[at + 2],
                lo: w[at + 3],
            },
            deallocated: Total {
                hi: w[at + 4],
                lo: w[at + 5],
            },
        };
    }
    Heap::default()
}

// The order that is open, if one is.
pub fn read_order(w: &[u64]) -> OpenOrder
    requires { account_ok w.now ≡ true }
    ensures { result ≡ order_in w.now }
{
    if words::word(w, OPEN_AT) == 0 {
        return None;
    }
    Some(KeptOrder {
        ask: Ask {
            size: words::word(w, ASK_SIZE_AT),
            mask: words::word(w, ASK_MASK_AT),
        },
        order: Order {
            store: narrow(words::word(w, ORDER_STORE_AT)),
            size: words::word(w, ORDER_SIZE_AT),
            memtype: narrow(words::word(w, ORDER_MEMTYPE_AT)),
            map: words::word(w, ORDER_MAP_AT) == 1,
        },
    })
}

// A store's share of the account that the words are; `table` says whether every heap is in 01's table. That walk over the heaps is
// its caller's, so that this is small enough to be made there and the share is not copied.
#[tactic(auto, using(wire_rules::proofs::Orders::right_yes))]
pub fn read_share(w: &[u64], s: StoreSettings, table: bool) -> Share
    requires { (account_ok w.now ≡ true) × (table ≡ heaps_ok (heaps_in w.now heaps_most)) }
    ensures { result ≡ share_of s (account_in w.now) }
{
    Share {
        bounded: table,
        idle: w[OPEN_AT] == 0,
        heap: read_heap(w, s.heap),
        objects: narrow(w[OBJECTS_AT]),
    }
}

#[tactic(auto, using(wire_rules::proofs::Orders::right_yes))]
fn put_heap(w: &mut [u64], i: usize, h: Heap)
    requires { (i < heaps_most) × (account_ok w.old ≡ true) }
    ensures { w.new ≡ heap_out h i w.old }
{
    let at = HEAP_WORDS * i;
    w[at] = h.size;
    w[at + 1] = h.used;
    w[at + 2] = h.allocated.hi;
    w[at + 3] = h.allocated.lo;
    w[at + 4] = h.deallocated.hi;
    w[at + 5] = h.deallocated.lo;
}

// The store's heap and the objects are written again.
#[tactic(auto, unfolding(wire_rules::specs::Wire::share_out))]
pub fn put_share(w: &mut [u64], s: StoreSettings, share: Share)
    requires { account_ok w.old ≡ true }
    ensures { w.new ≡ share_out s.heap share w.old }
{
    if s.heap < HEAPS {
        put_heap(w, s.heap, share.heap);
    }
    words::put(w, OBJECTS_AT, u64::from(share.objects));
}

// An order is open.
#[tactic(auto, unfolding(wire_rules::specs::Wire::order_out, wire_rules::specs::Wire::order_words_out))]
fn put_kept(w: &mut [u64], k: KeptOrder)
    ensures { w.new ≡ order_out (Some k) w.old }
{
    let o = k.order;
    let a = k.ask;
    words::put(w, OPEN_AT, 1);
    words::put(w, ORDER_STORE_AT, u64::from(o.store));
    words::put(w, ORDER_SIZE_AT, o.size);
    words::put(w, ORDER_MEMTYPE_AT, u64::from(o.memtype));
    words::put(w, ORDER_MAP_AT, u64::from(o.map));
    words::put(w, ASK_SIZE_AT, a.size);
    words::put(w, ASK_MASK_AT, a.mask);
}

#[tactic(auto, unfolding(wire_rules::specs::Wire::order_out))]
pub fn put_order(w: &mut [u64], order: OpenOrder)
    ensures { w.new ≡ order_out order w.old }
{
    match order {
        None => words::put(w, OPEN_AT, 0),
        Some(k) => put_kept(w, k),
    }
}

// What an ask leaves: where it told an order, that is kept with the ask.
pub fn put_asked(w: &mut [u64], size: u64, mask: u64, answer: Result<Granted, Refused>)
    ensures { w.new ≡ asked_out size mask (ask_said answer) w.old }
{
    match answer {
        Ok(Granted::Order(order)) => {
            let ask = Ask { size, mask };
            put_kept(w, KeptOrder { ask, order })
        }
        Ok(Granted::Block(_)) | Err(_) => {}
    }
}
