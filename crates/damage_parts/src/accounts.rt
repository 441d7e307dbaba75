// What a refused delivery leaves of an account.
use counter::{Account, StoreSettings};

// The order closed, and nothing else changed: what 11 leaves where the device allocated nothing.
pub fn closed(s: StoreSettings, a: Account) -> Account {
    a.settled(s.heap, a.heap(s.heap), a.objects, None)
}

// The size of the order that is open.
fn order_size(a: Account) -> u64 {
    a.order.map_or(0, |k| k.order.size)
}

// What 12 leaves where memory was allocated and could not be mapped: charged and counted.
pub fn charged(s: StoreSettings, a: Account) -> Account {
    let h = heap::charge(a.heap(s.heap), order_size(a));
    a.settled(s.heap, h, a.objects.saturating_sub(1), None)
}

// And where the mapping failed for no want of memory: given back.
pub fn given_back(s: StoreSettings, a: Account) -> Account {
    let size = order_size(a);
    let h = heap::charge(a.heap(s.heap), size);
    a.settled(s.heap, heap::release(h, size), a.objects, None)
}
