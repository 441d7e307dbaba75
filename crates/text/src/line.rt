// Parts of a line.
ghost use Rattle.std.specs.Prelude.{ℕ, take, decimal, OnOk};
ghost use Rattle.std.specs.Io.KnownBytes.{Appends};
ghost use Rattle.text.specs.Written.{Stays};

use counter::Refused;
use itoa::Buffer;
use std::io;
use std::io::{ErrorKind, Write};

// These bytes, in as many writes as it takes. One that a signal interrupts is made again; nothing says that those come to an end,
// so tries are counted. Where a write fails, a front part of the bytes stands behind what was written before: std's `write_all` and
// `write!` don't say that.
fn put<W: Write>(out: &mut W, bytes: &[u8]) -> io::Result<()>
    ensures all { OnOk result (Appends (W.contents out.old) (W.contents out.new) bytes.now) }
    ensures front { (n : ℕ) × Appends (W.contents out.old) (W.contents out.new) (take n bytes.now) }
{
    let mut sent = 0;
    'writes: for _ in 0..u64::MAX {
        if sent >= bytes.len() {
            return Ok(());
        }
        match out.write(&bytes[sent..]) {
            Ok(0) => return Err(io::Error::from(ErrorKind::WriteZero)),
            Ok(n) => sent += n,
            Err(e) => {
                if e.kind() != ErrorKind::Interrupted {
                    return Err(e);
                }
            }
        }
    }
    Err(io::Error::from(ErrorKind::TimedOut))
}

#[tactic(auto, using(crate::proofs::Growing::appends_stays))]
pub fn word<W: Write>(out: &mut W, text: &str) -> io::Result<()>
    ensures all { OnOk result (Appends (W.contents out.old) (W.contents out.new) text.now) }
    ensures front { (n : ℕ) × Appends (W.contents out.old) (W.contents out.new) (take n text.now) }
    ensures kept { Stays (W.contents out.old) (W.contents out.new) }
{
    put(out, text.as_bytes())
}

pub fn number<W: Write>(out: &mut W, n: u64) -> io::Result<()>
    ensures all { OnOk result (Appends (W.contents out.old) (W.contents out.new) (decimal n)) }
    ensures front { (k : ℕ) × Appends (W.contents out.old) (W.contents out.new) (take k (decimal n)) }
    ensures kept { Stays (W.contents out.old) (W.contents out.new) }
{
    let mut digits = Buffer::new();
    word(out, digits.format(n))
}

pub fn spaced<W: Write>(out: &mut W, n: u64) -> io::Result<()>
    ensures kept { Stays (W.contents out.old) (W.contents out.new) }
{
    word(out, " ")?;
    number(out, n)
}

pub fn line_end<W: Write>(out: &mut W) -> io::Result<()>
    ensures kept { Stays (W.contents out.old) (W.contents out.new) }
{
    word(out, "\n")
}

// `refused N`
pub fn refused_number<W: Write>(out: &mut W, r: Refused) -> io::Result<()>
    ensures kept { Stays (W.contents out.old) (W.contents out.new) }
{
    word(out, "refused")?;
    spaced(out, u64::from(r.refusal.number()))
}
