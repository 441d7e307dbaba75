// The records of a tape, in turn. A failed write ends them with an I/O error: the records before are done, and
// the one whose line it is. No error of another kind comes, and what was written before stays.
ghost use Rattle.text.specs.Written.{Stays};

use counter::{Account, CHUNKS_MOST};
use reel::{Answer, Buffer, Settings, Taken, Turn};
use std::io;
use std::io::{Read, Write};

// a tape is read through a buffer of so many bytes
const BUFFER_BYTES: usize = 65_536;

fn print_totals<W: Write>(out: &mut W, s: Settings, a: Account) -> io::Result<()>
    ensures kept { Stays (W.contents out.old) (W.contents out.new) }
{
    text::print_totals(out, a.heap(reel::store_of(s).heap))
}

fn print_answer<W: Write>(out: &mut W, s: Settings, taken: Taken, list: &[u64]) -> io::Result<()>
    ensures kept { Stays (W.contents out.old) (W.contents out.new) }
{
    let a = taken.account;
    let used = a.heap(reel::store_of(s).heap).used;
    match taken.answer {
        Some(Answer::Asked(asked)) => text::print_asked(out, asked, used, a.objects),
        Some(Answer::Delivered(lent)) => text::print_delivered(out, lent, used, a.objects),
        Some(Answer::Released(count)) => text::print_released(out, count, list, used, a.objects),
        None => Ok(()),
    }
}

// How the tape ended, after so many whole records: it stopped at a position, or was read to its end.
fn print_last<W: Write>(out: &mut W, torn: bool, position: u64, records: u64) -> io::Result<()>
    ensures kept { Stays (W.contents out.old) (W.contents out.new) }
{
    if torn {
        text::print_stopped(out, position)
    } else {
        text::print_end(out, records)
    }
}

// A loop has to end, and nothing says that a tape does: so records are counted, and no tape has as many as can be counted.
// Nor does a position pass 64 bits.
pub fn run<W: Write>(
    input: &mut impl Read,
    out: &mut W,
    s: Settings,
    fresh: Account,
    head: &mut [u64],
    loans: &mut [u64],
    chunks: &mut [u64],
    index: &mut [u64],
    own: &mut [u64],
) -> io::Result<()>
    ensures kept { Stays (W.contents out.old) (W.contents out.new) }
{
    let buddy = reel::is_buddy(s);
    let mut list = [0u64; CHUNKS_MOST];
    let mut buffer = Buffer::<BUFFER_BYTES>::new();
    let mut a = fresh;
    let mut torn = false;
    let mut position = 0u64;
    let mut records = 0;
    for n in 0..u64::MAX {
        let turn = buffer.next(input, buddy);
        let Turn::Whole(record, length) = turn else {
            torn = matches!(turn, Turn::Torn(_));
            break;
        };
        let taken = reel_calls::take(
            s,
            a,
            Some(record),
            head,
            loans,
            chunks,
            index,
            own,
            &mut list,
        );
        print_answer(out, s, taken, &list)?;
        a = taken.account;
        position = position.wrapping_add(length as u64);
        records = n + 1;
    }
    print_totals(out, s, a)?;
    print_last(out, torn, position, records)
}
