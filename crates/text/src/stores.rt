// What a store answers, a line for each call, and how a replay ends. Each line of a call ends with what is used of the heap
// and how many device objects are still allowed.
ghost use Rattle.text.specs.Written.{Stays};

use crate::line::{line_end, refused_number, spaced, word};
use counter::{Block, Granted, Heap, Lent, Order, Refused};
use std::io;
use std::io::Write;

// ` ; USED OBJECTS`
fn print_counts<W: Write>(out: &mut W, used: u64, objects: u32) -> io::Result<()>
    ensures kept { Stays (W.contents out.old) (W.contents out.new) }
{
    word(out, " ;")?;
    spaced(out, used)?;
    spaced(out, u64::from(objects))?;
    line_end(out)
}

// `block SERIAL CHUNK OFFSET SIZE`
fn print_block<W: Write>(out: &mut W, b: Block) -> io::Result<()>
    ensures kept { Stays (W.contents out.old) (W.contents out.new) }
{
    word(out, "block")?;
    spaced(out, b.serial)?;
    spaced(out, b.chunk)?;
    spaced(out, b.offset)?;
    spaced(out, b.size)
}

// `order SIZE TYPE MAP`
fn print_order<W: Write>(out: &mut W, o: Order) -> io::Result<()>
    ensures kept { Stays (W.contents out.old) (W.contents out.new) }
{
    word(out, "order")?;
    spaced(out, o.size)?;
    spaced(out, u64::from(o.memtype))?;
    spaced(out, u64::from(o.map))
}

// `refused N` or `refused N free MEMORY`
fn print_refusal<W: Write>(out: &mut W, r: Refused) -> io::Result<()>
    ensures kept { Stays (W.contents out.old) (W.contents out.new) }
{
    refused_number(out, r)?;
    if let Some(memory) = r.free {
        word(out, " free")?;
        spaced(out, memory)?;
    }
    Ok(())
}

// `released K M1 .. MK`
fn print_list<W: Write>(out: &mut W, k: u64, list: &[u64]) -> io::Result<()>
    ensures kept { Stays (W.contents out.old) (W.contents out.new) }
{
    word(out, "released")?;
    spaced(out, k)?;
    for memory in list.iter().take(k as usize) {
        spaced(out, *memory)?;
    }
    Ok(())
}

pub fn print_asked<W: Write>(
    out: &mut W,
    answer: Result<Granted, Refused>,
    used: u64,
    objects: u32,
) -> io::Result<()>
    ensures kept { Stays (W.contents out.old) (W.contents out.new) }
{
    match answer {
        Ok(Granted::Block(lent)) => print_block(out, lent.block)?,
        Ok(Granted::Order(order)) => print_order(out, order)?,
        Err(refused) => print_refusal(out, refused)?,
    }
    print_counts(out, used, objects)
}

pub fn print_delivered<W: Write>(
    out: &mut W,
    answer: Result<Lent, Refused>,
    used: u64,
    objects: u32,
) -> io::Result<()>
    ensures kept { Stays (W.contents out.old) (W.contents out.new) }
{
    match answer {
        Ok(lent) => print_block(out, lent.block)?,
        Err(refused) => print_refusal(out, refused)?,
    }
    print_counts(out, used, objects)
}

// Of a return or a clean-up, with the list that it wrote.
pub fn print_released<W: Write>(
    out: &mut W,
    answer: Result<u64, Refused>,
    list: &[u64],
    used: u64,
    objects: u32,
) -> io::Result<()>
    ensures kept { Stays (W.contents out.old) (W.contents out.new) }
{
    match answer {
        Ok(k) => print_list(out, k, list)?,
        Err(refused) => print_refusal(out, refused)?,
    }
    print_counts(out, used, objects)
}

// `totals ALLOC_HI ALLOC_LO DEALLOC_HI DEALLOC_LO`
pub fn print_totals<W: Write>(out: &mut W, h: Heap) -> io::Result<()>
    ensures kept { Stays (W.contents out.old) (W.contents out.new) }
{
    word(out, "totals")?;
    spaced(out, h.allocated.hi)?;
    spaced(out, h.allocated.lo)?;
    spaced(out, h.deallocated.hi)?;
    spaced(out, h.deallocated.lo)?;
    line_end(out)
}

// `end RECORDS`
pub fn print_end<W: Write>(out: &mut W, records: u64) -> io::Result<()>
    ensures kept { Stays (W.contents out.old) (W.contents out.new) }
{
    word(out, "end")?;
    spaced(out, records)?;
    line_end(out)
}

// `stopped POSITION`
pub fn print_stopped<W: Write>(out: &mut W, position: u64) -> io::Result<()>
    ensures kept { Stays (W.contents out.old) (W.contents out.new) }
{
    word(out, "stopped")?;
    spaced(out, position)?;
    line_end(out)
}

pub fn print_set_up_refused<W: Write>(out: &mut W) -> io::Result<()>
    ensures kept { Stays (W.contents out.old) (W.contents out.new) }
{
    word(out, "setup refused 1\n")
}
