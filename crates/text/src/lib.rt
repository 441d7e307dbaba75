// Answers as lines of text: numbers in decimal, with single spaces. A failed write ends a line with an I/O
// error, and no error of another kind comes; what was written before stays.
#![tactic(auto)]

ghost use Rattle.text.specs.Written.{Stays};

mod line;
mod stores;

use counter::Refused;
use line::{line_end, refused_number, spaced};
pub use line::{number, word};
use std::io;
use std::io::Write;
pub use stores::{
    print_asked, print_delivered, print_end, print_released, print_set_up_refused, print_stopped,
    print_totals,
};
use usage_rules::{Ranked, Row};

// `refused N`
pub fn print_refused<W: Write>(out: &mut W, r: Refused) -> io::Result<()>
    ensures kept { Stays (W.contents out.old) (W.contents out.new) }
{
    refused_number(out, r)?;
    line_end(out)
}

// `USAGE COUNT MASK T0 T1 ..`
fn print_row<W: Write>(out: &mut W, usage: u64, row: Row) -> io::Result<()>
    ensures kept { Stays (W.contents out.old) (W.contents out.new) }
{
    number(out, usage)?;
    spaced(out, u64::from(row.count))?;
    spaced(out, u64::from(row.mask))?;
    for t in row.types.iter().take(row.count as usize) {
        spaced(out, u64::from(*t))?;
    }
    line_end(out)
}

// A line for each usage, or the refusal's.
pub fn print_ranking<W: Write>(out: &mut W, r: Ranked) -> io::Result<()>
    ensures kept { Stays (W.contents out.old) (W.contents out.new) }
{
    if let Err(refused) = r.answer {
        return print_refused(out, refused);
    }
    for (u, row) in r.rows.iter().enumerate() {
        print_row(out, u as u64, *row)?;
    }
    Ok(())
}
