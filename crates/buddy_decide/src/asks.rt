// What an ask looks for.
ghost use Rattle.std.specs.Prelude.{◌≡◌};
ghost use Rattle.rounding_rules.specs.Masks.{Ones};
ghost use Rattle.rounding_rules.specs.Raising.{raised};
ghost use Rattle.counter.specs.InTable.{BuddyIn};
ghost use Rattle.counter.specs.Limits.{align_bits};
ghost use Rattle.buddy_outcomes.specs.Ask.{mask_for, size_for};

use counter::BuddySettings;

// The mask that a block is aligned to.
fn mask_for(s: BuddySettings, mask: u64) -> u64
    requires { BuddyIn s × Ones align_bits mask }
    ensures { result ≡ mask_for s mask }
{
    let own = s.store;
    let units = rounding::join_masks(own.atom, s.minimal - 1);
    rounding::join_masks(mask, units)
}

// The size raised to a multiple of its unit and to a power of two, where a word holds it.
pub fn size_for(s: BuddySettings, size: u64, mask: u64) -> Option<u64>
    requires { BuddyIn s × Ones align_bits mask }
    ensures { result ≡ raised (size_for s size mask) }
{
    rounding::raise_to_power(rounding::raise_to_unit(size, mask_for(s, mask))?)
}
