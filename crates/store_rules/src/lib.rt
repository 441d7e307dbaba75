// What the stores of both engines share. specs/ says it; no code but conversions.
#![tactic(auto)]

ghost use Rattle.std.specs.Prelude.{◌≡◌};

use counter::{Block, Heap, Lent, OpenOrder, Refused};

// Of the loans' own record, behind its mark: serials given, and loan places ever used; specs/Loans has the same names.
pub const GIVEN_AT: usize = 1;

pub const PLACES_AT: usize = 2;

// How many words a loan takes in a table, and where those of the one at place 0 stand; specs/Loans has the same names.
pub const LOAN_WORDS: usize = 4;

pub const SERIAL_AT: usize = 4;

pub const CHUNK_AT: usize = 5;

pub const OFFSET_AT: usize = 6;

pub const SIZE_AT: usize = 7;

// A block on loan. 01: "A block carries serial, chunk, offset, size."
#[derive(Clone, Copy, PartialEq, Eq)]
pub struct Loan {
    pub serial: u64,
    pub chunk: u64,
    pub offset: u64,
    pub size: u64,
}

// The loan that a block is of, where it is on loan.
impl From<Block> for Loan {
    ghost from_gives = { λ b l. l ≡ record { serial = b.serial; chunk = b.chunk; offset = b.offset; size = b.size } };

    fn from(b: Block) -> Loan {
        Loan {
            serial: b.serial,
            chunk: b.chunk,
            offset: b.offset,
            size: b.size,
        }
    }
}

// The block that is told when a loan is entered.
impl From<Loan> for Lent {
    ghost from_gives = { λ l x. x ≡ record { block = record { serial = l.serial; chunk = l.chunk; offset = l.offset; size = l.size } } };

    fn from(l: Loan) -> Lent {
        Lent {
            block: Block {
                serial: l.serial,
                chunk: l.chunk,
                offset: l.offset,
                size: l.size,
            },
        }
    }
}

// A chunk that a store holds: its number, the memory number that it has, its size.
#[derive(Clone, Copy)]
pub struct Chunk {
    pub number: u64,
    pub memory: u64,
    pub size: u64,
}

// A free region: bytes `start` to `end` of a chunk.
#[derive(Clone, Copy)]
pub struct Region {
    pub chunk: u64,
    pub start: u64,
    pub end: u64,
}

// A store's share of the account, all that a call reads of it short of an order's text: whether every heap is in 01's table, whether
// no order is open, the store's own heap, the device objects still allowed.
#[derive(Clone, Copy)]
pub struct Share {
    pub bounded: bool,
    pub idle: bool,
    pub heap: Heap,
    pub objects: u32,
}

// What a delivery answers, with the share and the order that it leaves.
#[derive(Clone, Copy)]
pub struct DeliveredShare {
    pub share: Share,
    pub order: OpenOrder,
    pub answer: Result<Lent, Refused>,
}

// What a return or a clean-up answers, with the share that it leaves.
#[derive(Clone, Copy)]
pub struct ReleasedShare {
    pub share: Share,
    pub answer: Result<u64, Refused>,
}
