// The ranking for programs in other languages: slices of numbers alone. specs/Rows says which word is what.
#![tactic(auto)]

ghost use Rattle.std.specs.Prelude.{◌≡◌, ◌<◌};
ghost use Rattle.counter.specs.Limits.{types_most, usages};
ghost use Rattle.usage_rules.specs.Ranking.{rank_of};
ghost use Rattle.wire_rules.specs.Wire.{said_out};
ghost use Rattle.linked_rank.specs.Rows.{types_out, row_out, rows_out};

use counter::{TYPES_MOST, USAGES};
use usage_rules::Row;

// Where a row's words stand, by the names that specs/Rows gives.
const COUNT_AT: usize = 32;

const MASK_AT: usize = 33;

const ROW_WORDS: usize = 34;

fn put_types(w: &mut [u64], u: usize, types: [u32; TYPES_MOST])
    requires { u < usages }
    ensures { w.new ≡ types_out types u types_most w.old }
{
    let at = ROW_WORDS * u;
    for j in 0..TYPES_MOST {
        words::put(w, at + j, types[j] as u64);
    }
}

fn put_row(w: &mut [u64], u: usize, row: Row)
    requires { u < usages }
    ensures { w.new ≡ row_out row u w.old }
{
    put_types(w, u, row.types);
    let at = ROW_WORDS * u;
    words::put(w, at + COUNT_AT, row.count as u64);
    words::put(w, at + MASK_AT, row.mask as u64);
}

fn put_rows(w: &mut [u64], rows: [Row; USAGES])
    ensures { w.new ≡ rows_out rows usages w.old }
{
    for u in 0..USAGES {
        put_row(w, u, rows[u]);
    }
}

#[unsafe(no_mangle)]
pub extern "C" fn tibrezkam_rank(types: &[u32], rows: &mut [u64], answer: &mut [u64])
    ensures rows_after { rows.new ≡ rows_out (rank_of types.now).rows usages rows.old }
    ensures answer_after { answer.new ≡ said_out (rank_of types.now).said answer.old }
{
    let r = usage::rank(types);
    put_rows(rows, r.rows);
    wire::tell_ranked(answer, r.answer);
}
