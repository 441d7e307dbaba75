// A tape read through a buffer, record by record.
ghost use Rattle.std.specs.Prelude.{◌≤◌, length};

use input::read_full;
use std::io::Read;
use std::rt::Files;
use std::{fs, io};
use tape::{HEADER_BYTES, RECORD_BYTES_MOST, Record, Start};

// The tape that an argument names, open for reading, or none where it can't be; then that is told.
pub fn open<R: Files + Eprint>(rt: &R, path: &str) -> io::Result<Option<R::File>> {
    match fs::open(rt, path) {
        Ok(file) => Ok(Some(file)),
        Err(e) => {
            eprintln!(rt; "{path}: {e}")?;
            Ok(None)
        }
    }
}

// The header at the front of a tape.
pub fn read_header(input: &mut impl Read) -> Option<Start> {
    let mut bytes = [0u8; HEADER_BYTES];
    let n = read_full(input, &mut bytes);
    tape::read_header(&bytes[..n])
}

// What a turn over a tape comes to: its end, or a record, torn or whole, and how many bytes that has.
#[derive(Clone, Copy)]
pub enum Turn {
    Ended,
    Torn(usize),
    Whole(Record, usize),
}

// The bytes of a buffer that are still to be taken stand from one place to another.
#[derive(Clone, Copy)]
pub struct Window {
    pub from: usize,
    pub to: usize,
}

// A turn, and the window after it.
#[derive(Clone, Copy)]
pub struct Reading {
    pub turn: Turn,
    pub window: Window,
}

// Room for any record is filled again from the input, as far as the input goes.
fn refill(input: &mut impl Read, buffer: &mut [u8], w: Window) -> Window
    requires from_le_to { w.from ≤ w.to }
    requires to_in_bounds { w.to ≤ length buffer.old }
    ensures from_le_to_2 { result.from ≤ result.to }
    ensures to_in_bounds_2 { result.to ≤ length buffer.old }
{
    let left = w.to - w.from;
    if RECORD_BYTES_MOST <= left {
        return w;
    }
    buffer.copy_within(w.from..w.to, 0);
    let more = read_full(input, &mut buffer[left..]);
    Window {
        from: 0,
        to: left + more,
    }
}

// The next record, of a buddy store's tape or a free list's; a torn one is passed by too. The windows lie in the buffer.
pub fn next(input: &mut impl Read, buffer: &mut [u8], before: Window, buddy: bool) -> Reading
    requires from_le_to { before.from ≤ before.to }
    requires to_in_bounds { before.to ≤ length buffer.old }
    ensures from_le_to_2 { result.window.from ≤ result.window.to }
    ensures to_in_bounds_2 { result.window.to ≤ length buffer.old }
{
    let mut window = refill(input, buffer, before);
    let left = &buffer[window.from..window.to];
    let Some(kind) = left.first() else {
        return Reading {
            turn: Turn::Ended,
            window,
        };
    };
    let length = tape::record_length(*kind);
    let turn = match tape::read_record(left, buddy) {
        None => Turn::Torn(length),
        Some(record) => Turn::Whole(record, length),
    };
    window.from += length.min(window.to - window.from);
    Reading { turn, window }
}

// A buffer of its own, and the window in it.
#[derive(Clone, Copy)]
pub struct Buffer<const BYTES: usize> {
    bytes: [u8; BYTES],
    window: Window,
    ghost ordered: { window.from ≤ window.to },
    ghost within: { window.to ≤ BYTES },
}

impl<const BYTES: usize> Buffer<BYTES> {
    pub fn new() -> Self {
        Buffer {
            bytes: [0; BYTES],
            window: Window { from: 0, to: 0 },
        }
    }

    pub fn next(&mut self, input: &mut impl Read, buddy: bool) -> Turn {
        let read = next(input, &mut self.bytes, self.window, buddy);
        self.window = read.window;
        read.turn
    }
}
