// What became of an order, read from numbers.
ghost use Rattle.std.specs.Prelude.{◌≡◌};
ghost use Rattle.wire_rules.specs.Wire.{mapping_in, outcome_in, outcome_ok};

use counter::{Mapping, Memory, Outcome};

// Whether the numbers are an outcome's.
#[tactic(auto, unfolding(wire_rules::specs::Wire::outcome_ok))]
pub fn is_outcome(what: u64, mapping: u64) -> bool
    ensures { result ≡ outcome_ok what mapping }
{
    (what <= 2) & (mapping <= 4)
}

fn read_mapping(m: u64) -> Mapping
    ensures { result ≡ mapping_in m }
{
    match m {
        0 => Mapping::Mapped,
        1 => Mapping::NotWanted,
        2 => Mapping::Failed,
        3 => Mapping::OutOfDevice,
        _ => Mapping::OutOfHost,
    }
}

#[tactic(auto, unfolding(wire_rules::specs::Wire::outcome_in))]
pub fn read_outcome(what: u64, memory: u64, mapping: u64) -> Outcome
    ensures { result ≡ outcome_in what memory mapping }
{
    match what {
        0 => Outcome::Made(Memory {
            number: memory,
            mapping: read_mapping(mapping),
        }),
        1 => Outcome::OutOfDevice,
        _ => Outcome::OutOfHost,
    }
}
