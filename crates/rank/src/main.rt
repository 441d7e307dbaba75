// Ranks a stand's memory types: standard input is one byte for each type, its property word; standard output a line for
// each of the 64 usages, `USAGE COUNT MASK T0 T1 ..`, or the one line `refused 1`.
#![tactic(auto)]

ghost use Rattle.std.specs.Prelude.{◌≡◌, ◌≤◌, min, length, take};
ghost use Rattle.std.proofs.Math.Seq.{paste};

use input::read_full;
use std::io;

// one word more than a stand may have, so that one too many is seen
const WORDS_MOST: usize = 33;

// The bytes as words, as many as there is room for, and how many.
fn fill(words: &mut [u32], bytes: &[u8]) -> usize
    ensures in_bounds { result ≤ length words.new }
    ensures prefix_len { result ≡ length (take result words.new) }
    ensures value { result ≡ min (length words.old) (length bytes.now) }
    ensures words_after { words.new ≡ paste words.old 0 bytes.now result }
{
    let n = words.len().min(bytes.len());
    for i in 0..n {
        words[i] = u32::from(bytes[i]);
    }
    n
}

fn main(rt: HostRuntime) -> io::Result<()> {
    let mut words = [0u32; WORDS_MOST];
    let mut bytes = [0u8; WORDS_MOST];
    let n = read_full(&mut rt.reader(), &mut bytes);
    let k = fill(&mut words, &bytes[..n]);
    text::print_ranking(&mut io::writer(&rt), usage::rank(&words[..k]))
}
