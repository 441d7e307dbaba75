// What programs take in, read until a buffer is full.
#![tactic(auto)]

ghost use Rattle.std.specs.Prelude.{◌≤◌, length};

use std::io::Read;

// Reads until the buffer is full, the input ends or a read fails, and says how many bytes that put at the buffer's front.
// Each read takes as many as it gets, so no range counts the turns.
pub fn read_full(input: &mut impl Read, buffer: &mut [u8]) -> usize
    ensures { result ≤ length buffer.old }
{
    let mut done = 0;
    while done < buffer.len() {
        match input.read(&mut buffer[done..]) {
            Ok(0) | Err(_) => break,
            Ok(n) => done += n,
        }
    }
    done
}
