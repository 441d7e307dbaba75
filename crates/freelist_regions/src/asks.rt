// What an ask looks for.
ghost use Rattle.std.specs.Prelude.{◌≡◌, ◌≤◌};
ghost use Rattle.rounding_rules.specs.Masks.{Ones};
ghost use Rattle.counter.specs.InTable.{FreeListIn};
ghost use Rattle.counter.specs.Limits.{align_bits};
ghost use Rattle.freelist_rules.specs.Place.{size_for, mask_for};

use counter::FreeListSettings;

// The size raised to a multiple of the atom unit: no size up to the final chunk overflows.
pub fn size_for(s: FreeListSettings, size: u64) -> u64
    requires { FreeListIn s × (size ≤ s.last) }
    ensures { result ≡ size_for s size }
{
    let store = s.store;
    rounding::lower_to_unit(size + store.atom, store.atom)
}

// The mask that a place is aligned to.
pub fn mask_for(s: FreeListSettings, mask: u64) -> u64
    requires { FreeListIn s × Ones align_bits mask }
    ensures { result ≡ mask_for s mask }
{
    let store = s.store;
    rounding::join_masks(mask, store.atom)
}
