// Replays a tape into a fresh store with a fresh account: a line for each record, then the totals and how the tape ended.
// Without arguments the tape is standard input; else each argument names one, and they are replayed in turn.
#![tactic(auto)]

ghost use Rattle.text.specs.Written.{Stays};

mod run;
mod start;

use std::io::{Read, Write};
use std::rt::Files;
use std::{env, io};

fn replay<W: Write>(input: &mut impl Read, out: &mut W) -> io::Result<()>
    ensures kept { Stays (W.contents out.old) (W.contents out.new) }
{
    match reel::read_header(input) {
        Some(start) => start::begin(input, out, start),
        None => text::print_set_up_refused(out),
    }
}

// The tape that an argument names.
fn replay_named<W: Write>(rt: &(impl Files + Eprint), path: &str, out: &mut W) -> io::Result<()>
    ensures kept { Stays (W.contents out.old) (W.contents out.new) }
{
    match reel::open(rt, path)? {
        None => Ok(()),
        Some(mut tape) => replay(&mut tape, out),
    }
}

fn main(rt: HostRuntime) -> io::Result<()> {
    let mut out = io::writer(&rt);
    let args = env::args(&rt)?;
    if args.len() < 2 {
        replay(&mut rt.reader(), &mut out)?;
    }
    for path in args.skip(1) {
        replay_named(&rt, path.as_str(), &mut out)?;
    }
    Ok(())
}
