// The lines that are printed: the verdict, or the first place where it fails. Stores are numbered as the program's arguments. A failed
// write ends a line with an I/O error, and no error of another kind comes; what was written before stays.
ghost use Rattle.text.specs.Written.{Stays};

use std::io;
use std::io::Write;
use text::{number, word};

fn store_number<W: Write>(out: &mut W, store: u64) -> io::Result<()>
    ensures kept { Stays (W.contents out.old) (W.contents out.new) }
{
    word(out, "store ")?;
    number(out, store)
}

fn print_damage<W: Write>(out: &mut W, table: u64, at: u64, value: u64) -> io::Result<()>
    ensures kept { Stays (W.contents out.old) (W.contents out.new) }
{
    word(out, ", table ")?;
    number(out, table)?;
    word(out, ", word ")?;
    number(out, at)?;
    word(out, ", value ")?;
    number(out, value)
}

// Tables are numbered as image.rt lists them, values and calls as cases.rt does. Any number is printed as it is.
pub fn print_changed<W: Write>(
    out: &mut W,
    store: u64,
    table: u64,
    at: u64,
    value: u64,
    call: u64,
    refusal: u32,
) -> io::Result<()>
    ensures kept { Stays (W.contents out.old) (W.contents out.new) }
{
    store_number(out, store)?;
    print_damage(out, table, at, value)?;
    word(out, ", call ")?;
    number(out, call)?;
    word(out, ": refusal ")?;
    number(out, u64::from(refusal))?;
    word(out, " changed something\n")
}

pub fn print_too_large<W: Write>(out: &mut W, store: u64) -> io::Result<()>
    ensures kept { Stays (W.contents out.old) (W.contents out.new) }
{
    store_number(out, store)?;
    word(out, " has larger tables than are tried here\n")
}

pub fn print_no_set_up<W: Write>(out: &mut W, store: u64) -> io::Result<()>
    ensures kept { Stays (W.contents out.old) (W.contents out.new) }
{
    store_number(out, store)?;
    word(out, " was refused at set-up in damaged tables\n")
}

pub fn print_not_set_up<W: Write>(out: &mut W, store: u64) -> io::Result<()>
    ensures kept { Stays (W.contents out.old) (W.contents out.new) }
{
    store_number(out, store)?;
    word(out, " was refused at set-up\n")
}

pub fn print_not_reached<W: Write>(out: &mut W, store: u64, records: u64) -> io::Result<()>
    ensures kept { Stays (W.contents out.old) (W.contents out.new) }
{
    store_number(out, store)?;
    word(out, " is not reached: after ")?;
    number(out, records)?;
    word(out, " records one is refused or torn\n")
}

pub fn print_unsound<W: Write>(out: &mut W, store: u64) -> io::Result<()>
    ensures kept { Stays (W.contents out.old) (W.contents out.new) }
{
    store_number(out, store)?;
    word(out, " is not sound\n")
}

pub fn print_verdict<W: Write>(out: &mut W, stores: u64, words: u64, calls: u64) -> io::Result<()>
    ensures kept { Stays (W.contents out.old) (W.contents out.new) }
{
    word(out, "sound stores ")?;
    number(out, stores)?;
    word(out, ", words ")?;
    number(out, words)?;
    word(out, ", calls ")?;
    number(out, calls)?;
    word(out, ": every refusal left everything as 01 says\n")
}
