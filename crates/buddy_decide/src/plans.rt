// What an ask comes to, with the numbers that its tests worked out: what carries it out works none of them out again.
use slabs::Taken;

// A block of this size and level, from the head pair of the level `from`; its loan takes this place of the book.
#[derive(Clone, Copy)]
pub struct Taking {
    pub size: u64,
    pub level: u64,
    pub from: u64,
    pub pair: u64,
    pub loan: Taken,
}

// A chunk of `order` bytes for a block of this size and level: the levels grown to, and the places that loan and chunk take.
#[derive(Clone, Copy)]
pub struct Buying {
    pub order: u64,
    pub size: u64,
    pub level: u64,
    pub levels: u64,
    pub loan: Taken,
    pub chunk: Taken,
}

// Of an ask that is not refused by its tests 5 to 10, but for that of its objects.
#[derive(Clone, Copy)]
pub enum Plan {
    // no object remains: the levels grow to so many
    Lack(u64),
    Take(Taking),
    Buy(Buying),
}

// A chunk of `order` bytes is needed, for an ask of this size and level, and so many levels.
#[derive(Clone, Copy)]
pub struct Needing {
    pub order: u64,
    pub size: u64,
    pub level: u64,
    pub levels: u64,
}

// The same short of what a new chunk asks of heap and objects.
#[derive(Clone, Copy)]
pub enum Tried {
    Take(Taking),
    Need(Needing),
}
