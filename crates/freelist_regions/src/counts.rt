// How many free regions a table holds, which its own record says.
ghost use Rattle.std.specs.Prelude.{◌≡◌, slice_index};
ghost use Rattle.freelist_rules.specs.Tables.{region_count_at};

use freelist_rules::REGION_COUNT_AT;

pub fn region_count(regions: &[u64]) -> usize
    ensures { result ≡ slice_index regions.now region_count_at }
{
    words::word(regions, REGION_COUNT_AT) as usize
}
