// The order that an ask opens.
ghost use Rattle.std.specs.Prelude.{◌≡◌};
ghost use Rattle.store_rules.specs.Orders.{order_from, same_order};
ghost use Rattle.store_rules.specs.Tests.{no_order, open_for};

use counter::{HOST_VISIBLE, OpenOrder, Order, StoreSettings};

pub fn no_order(o: OpenOrder) -> bool
    ensures { result ≡ no_order o }
{
    o.is_none()
}

// Whether an order is open for the store with this number.
pub fn is_open_for(number: u32, o: OpenOrder) -> bool
    ensures { result ≡ open_for number o }
{
    match o {
        None => false,
        Some(k) => k.order.store == number,
    }
}

// The order for a chunk of so many bytes.
pub fn order_from(s: StoreSettings, size: u64) -> Order
    ensures { result ≡ order_from s size }
{
    Order {
        store: s.number,
        size: size,
        memtype: s.memtype,
        map: counter::has(s.properties, HOST_VISIBLE),
    }
}

pub fn same_order(o: Order, p: Order) -> bool
    ensures { result ≡ same_order o p }
{
    o == p
}
