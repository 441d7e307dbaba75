// Sound stores, each reached by a tape, each word of whose tables is written over in turn, and every kind of call made on what
// is left: each is answered, and a refusal leaves every word of the tables and of the release list as it was, and the account
// too, but for what 01 lists: 11 and 12 close the order, and 9, 11 and 12 leave a buddy store's levels as the ask raised them.
// Each argument names a tape; without arguments the tape is standard input.
#![tactic(auto)]

mod calls;
mod history;
mod stop;
mod trials;

ghost use Rattle.text.specs.Written.{Stays};

use crate::calls::set_up;
use crate::history::replay;
use crate::stop::Stop;
use crate::trials::{case_of, is_sound, try_tables};
use counter::Account;
use damage_parts::{
    ROW_MOST, Tally, fits, print_not_reached, print_not_set_up, print_too_large, print_unsound,
    print_verdict,
};
use reel::Settings;
use std::io::{Read, Write};
use std::rt::Files;
use std::{env, io};

// what lent tables happen to hold before
const LEFTOVER: u64 = 165;

// The store that a history led to, in the row and the account.
fn try_reached<W: Write>(
    out: &mut W,
    store: u64,
    s: Settings,
    a: Account,
    image: &[u64],
    t: Tally,
) -> Result<Tally, Stop>
    ensures kept { Stays (W.contents out.old) (W.contents out.new) }
{
    let c = case_of(store, s, a, image);
    if is_sound(c, image) {
        return try_tables(out, c, image, t);
    }
    print_unsound(out, store)?;
    Err(Stop::Told)
}

fn try_store<W: Write>(
    input: &mut impl Read,
    out: &mut W,
    store: u64,
    s: Settings,
    fresh: Account,
    t: Tally,
) -> Result<Tally, Stop>
    ensures kept { Stays (W.contents out.old) (W.contents out.new) }
{
    if !fits(s) {
        print_too_large(out, store)?;
        return Err(Stop::Told);
    }
    let mut image = [LEFTOVER; ROW_MOST];
    if !set_up(s, &mut image) {
        print_not_set_up(out, store)?;
        return Err(Stop::Told);
    }
    match replay(input, s, fresh, &mut image) {
        Ok(reached) => try_reached(out, store, s, reached, &image, t),
        Err(records) => {
            print_not_reached(out, store, records)?;
            Err(Stop::Told)
        }
    }
}

fn try_tape<W: Write>(
    input: &mut impl Read,
    out: &mut W,
    store: u64,
    t: Tally,
) -> Result<Tally, Stop>
    ensures kept { Stays (W.contents out.old) (W.contents out.new) }
{
    let Some(start) = reel::read_header(input) else {
        print_not_set_up(out, store)?;
        return Err(Stop::Told);
    };
    let heap = reel::store_of(start.settings).heap;
    let fresh = reel::fresh_account(heap, start.heap_size, start.objects);
    try_store(input, out, store, start.settings, fresh, t)
}

// The tape that an argument names.
fn try_named<W: Write>(
    rt: &(impl Files + Eprint),
    path: &str,
    out: &mut W,
    store: u64,
    t: Tally,
) -> Result<Tally, Stop>
    ensures kept { Stays (W.contents out.old) (W.contents out.new) }
{
    match reel::open(rt, path)? {
        None => Err(Stop::Told),
        Some(mut tape) => try_tape(&mut tape, out, store, t),
    }
}

fn try_all(rt: &HostRuntime) -> Result<(), Stop> {
    let mut out = io::writer(rt);
    let mut t = Tally::default();
    let args = env::args(rt)?;
    if args.len() < 2 {
        t = try_tape(&mut rt.reader(), &mut out, 0, t)?;
    }
    for (i, path) in args.enumerate().skip(1) {
        t = try_named(rt, path.as_str(), &mut out, i as u64, t)?;
    }
    print_verdict(&mut out, t.stores, t.words, t.calls)?;
    Ok(())
}

fn main(rt: HostRuntime) -> io::Result<()> {
    match try_all(&rt) {
        Err(Stop::Write(e)) => Err(e),
        Ok(()) | Err(Stop::Told) => Ok(()),
    }
}
