// Answers, written in six words.
#![tactic(auto, unfolding(wire_rules::specs::Wire::said_out, wire_rules::specs::Wire::answer_out))]

ghost use Rattle.std.specs.Prelude.{◌≡◌, []};
ghost use Rattle.counter.specs.Paper.{refusal, refusal_of, block_of, set_up_said, ask_said, deliver_said, release_said, rank_said};
ghost use Rattle.wire_rules.specs.Wire.{answer_out, said_out};

use counter::{Granted, Lent, Refused};

// What an answer's first word says.
const READY: u64 = 0;

const BLOCK: u64 = 1;

const ORDER: u64 = 2;

const RELEASED: u64 = 3;

const REFUSED: u64 = 4;

const RANKED: u64 = 5;

// Six words, each where there is room for it.
fn tell_by_words(w: &mut [u64], what: u64, a: u64, b: u64, c: u64, d: u64)
    ensures { w.new ≡ answer_out what a b c d w.old }
{
    words::put(w, 0, what);
    words::put(w, 1, a);
    words::put(w, 2, b);
    words::put(w, 3, c);
    words::put(w, 4, d);
    words::put(w, 5, 0);
}

// The same, under one test where there is room for all six.
fn tell(w: &mut [u64], what: u64, a: u64, b: u64, c: u64, d: u64)
    ensures { w.new ≡ answer_out what a b c d w.old }
{
    if 5 < w.len() {
        w[0] = what;
        w[1] = a;
        w[2] = b;
        w[3] = c;
        w[4] = d;
        w[5] = 0;
    } else {
        tell_by_words(w, what, a, b, c, d);
    }
}

fn tell_refused(w: &mut [u64], r: Refused)
    ensures { w.new ≡ said_out (refusal_of r) w.old }
{
    let n = u64::from(r.refusal.number());
    match r.free {
        None => tell(w, REFUSED, n, 0, 0, 0),
        Some(m) => tell(w, REFUSED, n, 1, m, 0),
    }
}

fn tell_block(w: &mut [u64], lent: Lent)
    ensures { w.new ≡ said_out (block_of lent) w.old }
{
    let b = lent.block;
    tell(w, BLOCK, b.serial, b.chunk, b.offset, b.size)
}

// Words that are no settings, account or outcome: 1, and nothing to free.
pub fn tell_bad(w: &mut [u64])
    ensures { w.new ≡ said_out (refusal 1 []) w.old }
{
    tell(w, REFUSED, 1, 0, 0, 0)
}

pub fn tell_set_up(w: &mut [u64], answer: Result<(), Refused>)
    ensures { w.new ≡ said_out (set_up_said answer) w.old }
{
    match answer {
        Ok(()) => tell(w, READY, 0, 0, 0, 0),
        Err(r) => tell_refused(w, r),
    }
}

pub fn tell_asked(w: &mut [u64], answer: Result<Granted, Refused>)
    ensures { w.new ≡ said_out (ask_said answer) w.old }
{
    match answer {
        Ok(Granted::Block(lent)) => tell_block(w, lent),
        Ok(Granted::Order(o)) => tell(
            w,
            ORDER,
            u64::from(o.store),
            o.size,
            u64::from(o.memtype),
            u64::from(o.map),
        ),
        Err(r) => tell_refused(w, r),
    }
}

pub fn tell_delivered(w: &mut [u64], answer: Result<Lent, Refused>)
    ensures { w.new ≡ said_out (deliver_said answer) w.old }
{
    match answer {
        Ok(lent) => tell_block(w, lent),
        Err(r) => tell_refused(w, r),
    }
}

pub fn tell_released(w: &mut [u64], answer: Result<u64, Refused>)
    ensures { w.new ≡ said_out (release_said answer) w.old }
{
    match answer {
        Ok(n) => tell(w, RELEASED, n, 0, 0, 0),
        Err(r) => tell_refused(w, r),
    }
}

pub fn tell_ranked(w: &mut [u64], answer: Result<(), Refused>)
    ensures { w.new ≡ said_out (rank_said answer) w.old }
{
    match answer {
        Ok(()) => tell(w, RANKED, 0, 0, 0, 0),
        Err(r) => tell_refused(w, r),
    }
}
