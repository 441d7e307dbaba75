// A record of a call: one byte of kind, then a body whose length the kind fixes.
ghost use Rattle.std.specs.Prelude.{◌≡◌};
ghost use Rattle.tape.specs.Record.{length_of, mapping_of, delivery_in, block_in, record_of};

use crate::numbers::{WORD_BYTES, byte, word_at};
use counter::{Ask, Block, Mapping, Memory, Outcome};

// kinds, and how many bytes the record of each has, the kind's own among them; specs/Record has the same names
const ASK: u8 = 1;

const DELIVER: u8 = 2;

const RETURN: u8 = 3;

const CLEAN_UP: u8 = 4;

const ASK_BYTES: usize = 17;

const DELIVER_BYTES: usize = 10;

const RETURN_BYTES: usize = 33;

const CLEAN_UP_BYTES: usize = 1;

pub const RECORD_BYTES_MOST: usize = RETURN_BYTES;
// where a body's words begin, and a delivery's two parts
const FIRST_AT: usize = 1;

const SECOND_AT: usize = FIRST_AT + WORD_BYTES;

const THIRD_AT: usize = SECOND_AT + WORD_BYTES;

const FOURTH_AT: usize = THIRD_AT + WORD_BYTES;

const OUTCOME_AT: usize = 1;

const MEMORY_AT: usize = 2;
// outcome bytes
const MAPPED: u8 = 0;

const NOT_WANTED: u8 = 1;

const FAILED: u8 = 2;

const OUT_OF_DEVICE: u8 = 3;

const OUT_OF_HOST: u8 = 4;

const DEVICE_REFUSAL: u8 = 5;

const HOST_REFUSAL: u8 = 6;

#[derive(Clone, Copy)]
pub enum Record {
    Ask(Ask),
    Deliver(Outcome),
    Return(Block),
    CleanUp,
}

// The bytes of a record of this kind; of an unknown kind, the kind's own.
#[tactic(auto, unfolding(crate::specs::Record::length_of))]
pub fn record_length(kind: u8) -> usize
    ensures { result ≡ length_of kind }
{
    match kind {
        ASK => ASK_BYTES,
        DELIVER => DELIVER_BYTES,
        RETURN => RETURN_BYTES,
        _ => CLEAN_UP_BYTES,
    }
}

// Of an outcome with memory.
#[tactic(auto, unfolding(crate::specs::Record::mapping_of))]
fn mapping(code: u8) -> Mapping
    ensures { result ≡ mapping_of code }
{
    match code {
        MAPPED => Mapping::Mapped,
        NOT_WANTED => Mapping::NotWanted,
        FAILED => Mapping::Failed,
        OUT_OF_DEVICE => Mapping::OutOfDevice,
        _ => Mapping::OutOfHost,
    }
}

#[tactic(auto, unfolding(crate::specs::Record::delivery_in))]
fn delivery(code: u8, memory: u64) -> Option<Outcome>
    ensures { result ≡ delivery_in code memory }
{
    match (code, memory) {
        (MAPPED..=OUT_OF_HOST, _) => Some(Outcome::Made(Memory {
            number: memory,
            mapping: mapping(code),
        })),
        (DEVICE_REFUSAL, 0) => Some(Outcome::OutOfDevice),
        (HOST_REFUSAL, 0) => Some(Outcome::OutOfHost),
        _ => None,
    }
}

fn block(bytes: &[u8]) -> Block
    ensures { result ≡ block_in bytes.now }
{
    Block {
        serial: word_at(bytes, FIRST_AT),
        chunk: word_at(bytes, SECOND_AT),
        offset: word_at(bytes, THIRD_AT),
        size: word_at(bytes, FOURTH_AT),
    }
}

// The record at the front of these bytes, of a buddy store's tape or a free list's; none where it is torn, and the replay stops there.
#[tactic(auto, unfolding(crate::specs::Record::record_of, crate::specs::Record::body_of))]
pub fn read_record(bytes: &[u8], buddy: bool) -> Option<Record>
    ensures { result ≡ record_of bytes.now buddy }
{
    let kind = byte(bytes, 0, 0);
    if bytes.len() < record_length(kind) {
        return None;
    }
    match kind {
        ASK => Some(Record::Ask(Ask {
            size: word_at(bytes, FIRST_AT),
            mask: word_at(bytes, SECOND_AT),
        })),
        DELIVER => {
            delivery(byte(bytes, 0, OUTCOME_AT), word_at(bytes, MEMORY_AT)).map(Record::Deliver)
        }
        RETURN => Some(Record::Return(block(bytes))),
        CLEAN_UP if !buddy => Some(Record::CleanUp),
        _ => None,
    }
}
