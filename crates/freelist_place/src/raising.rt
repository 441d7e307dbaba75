// The chunk size raised by an order.
ghost use Rattle.std.specs.Prelude.{◌≡◌, set};
ghost use Rattle.freelist_rules.specs.Tables.{chunk_size_at};

use freelist_rules::CHUNK_SIZE_AT;

pub fn raise_size(head: &mut [u64], size: u64)
    ensures { head.new ≡ set head.old chunk_size_at size }
{
    words::put(head, CHUNK_SIZE_AT, size);
}
