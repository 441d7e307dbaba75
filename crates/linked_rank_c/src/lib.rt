// The ranking as an archive for C: each export calls linked_rank's function and says its clauses again.
#![tactic(auto)]

ghost use Rattle.std.specs.Prelude.{◌≡◌};
ghost use Rattle.counter.specs.Limits.{usages};
ghost use Rattle.usage_rules.specs.Ranking.{rank_of};
ghost use Rattle.wire_rules.specs.Wire.{said_out};
ghost use Rattle.linked_rank.specs.Rows.{rows_out};

#[unsafe(no_mangle)]
pub extern "C" fn tibrezkam_rank(types: &[u32], rows: &mut [u64], answer: &mut [u64])
    ensures rows_after { rows.new ≡ rows_out (rank_of types.now).rows usages rows.old }
    ensures answer_after { answer.new ≡ said_out (rank_of types.now).said answer.old }
{
    linked_rank::tibrezkam_rank(types, rows, answer);
}
