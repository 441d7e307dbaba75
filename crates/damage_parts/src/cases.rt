// What a trial is made of: a case, the calls that are made on its damaged tables, what damage does to a word, and what a refusal
// leaves of the account.
ghost use Rattle.std.specs.Prelude.{◌≡◌, Some, length, slice_get};
ghost use Rattle.damage_parts.specs.Numbers.{calls, damages, numbered_call, numbered_damage};

use crate::accounts::{charged, closed, given_back};
use crate::image::{ROW_MOST, copy_of, table_at};
use counter::{Account, Ask, Block, HOST_VISIBLE, Mapping, Memory, Outcome, Refusal};
use reel::Settings;
use tape::Record;

// The calls that are made on damaged tables, in the order of the numbers that are printed. The last four are deliveries to an open
// order.
#[derive(Clone, Copy, PartialEq, Eq, PartialOrd, Ord)]
pub enum Call {
    Ask,
    AskLarge,
    Return,
    ReturnStray,
    CleanUp,
    DeliverUnordered,
    Deliver,
    DeviceRefuses,
    MapOutOfHost,
    MapFails,
}

pub const CALLS: [Call; 10] = [
    Call::Ask,
    Call::AskLarge,
    Call::Return,
    Call::ReturnStray,
    Call::CleanUp,
    Call::DeliverUnordered,
    Call::Deliver,
    Call::DeviceRefuses,
    Call::MapOutOfHost,
    Call::MapFails,
];

// Functions are handed calls, tables and values by their numbers: they answer any number, and may not answer fewer. Past the last, a
// number is taken for the last.
impl From<u64> for Call {
    ghost from_gives = { λ n c. c ≡ numbered_call n };

    #[tactic(auto, unfolding(crate::specs::Numbers::numbered_call))]
    fn from(n: u64) -> Call {
        CALLS.get(n as usize).copied().unwrap_or(Call::MapFails)
    }
}

impl From<Call> for u64 {
    ghost from_gives = { λ c n. slice_get calls n ≡ Some c };

    fn from(call: Call) -> u64 {
        call as u64
    }
}

// What damage puts in place of a word, in the order of the numbers that are printed.
#[derive(Clone, Copy)]
pub enum Damage {
    Zero,
    One,
    Above,
    Below,
    Highest,
}

pub const DAMAGES: [Damage; 5] = [
    Damage::Zero,
    Damage::One,
    Damage::Above,
    Damage::Below,
    Damage::Highest,
];

// Likewise.
impl From<u64> for Damage {
    ghost from_gives = { λ n d. d ≡ numbered_damage n };

    #[tactic(auto, unfolding(crate::specs::Numbers::numbered_damage))]
    fn from(n: u64) -> Damage {
        DAMAGES.get(n as usize).copied().unwrap_or(Damage::Highest)
    }
}

impl From<Damage> for u64 {
    ghost from_gives = { λ d n. slice_get damages n ≡ Some d };

    fn from(damage: Damage) -> u64 {
        damage as u64
    }
}

// A store's number, its settings, its account without an order and with one, a block that it lent, and a size to ask for that
// no free place has.
#[derive(Clone, Copy)]
pub struct Case {
    pub store: u64,
    pub settings: Settings,
    pub free: Account,
    pub open: Account,
    pub held: Block,
    pub large: u64,
}

// Which word is damaged, and how: the table and the value by their numbers.
#[derive(Clone, Copy)]
pub struct Place {
    pub table: u64,
    pub word: usize,
    pub value: u64,
}

// So many stores, words and calls, of which each refusal left everything as it was.
#[derive(Clone, Copy, Default)]
pub struct Tally {
    pub stores: u64,
    pub words: u64,
    pub calls: u64,
}

impl Tally {
    pub fn one_store(self) -> Tally {
        Tally {
            stores: self.stores.wrapping_add(1),
            ..self
        }
    }

    pub fn one_word(self) -> Tally {
        Tally {
            words: self.words.wrapping_add(1),
            ..self
        }
    }

    pub fn one_call(self) -> Tally {
        Tally {
            calls: self.calls.wrapping_add(1),
            ..self
        }
    }
}

pub fn ask(size: u64, mask: u64) -> Record {
    Record::Ask(Ask { size, mask })
}

fn delivered(mapping: Mapping) -> Record {
    Record::Deliver(Outcome::Made(Memory {
        number: 333,
        mapping,
    }))
}

// Memory such as the store's orders ask for.
fn memory(settings: Settings) -> Record {
    if counter::has(reel::store_of(settings).properties, HOST_VISIBLE) {
        delivered(Mapping::Mapped)
    } else {
        delivered(Mapping::NotWanted)
    }
}

// A block as large as a chunk fits no region of the free lists of data/, and no node of a buddy store is longer than half of
// its longest chunk; so an ask for it leads to an order where it is not refused.
pub fn large(settings: Settings, image: &[u64]) -> u64 {
    match settings {
        Settings::FreeList(_) => words::word(image, freelist_rules::CHUNK_SIZE_AT),
        Settings::Buddy(s) => {
            let levels = words::word(image, buddy_rules::LEVELS_AT);
            if levels < 64 { s.minimal << levels } else { 0 }
        }
    }
}

pub fn stray() -> Record {
    Record::Return(Block {
        serial: 77,
        chunk: 1,
        offset: 0,
        size: 8,
    })
}

pub fn call_of(c: Case, call: u64) -> Record {
    match Call::from(call) {
        Call::Ask => ask(8, 0),
        Call::AskLarge => ask(c.large, 0),
        Call::Return => Record::Return(c.held),
        Call::ReturnStray => stray(),
        Call::CleanUp => Record::CleanUp,
        Call::DeliverUnordered | Call::Deliver => memory(c.settings),
        Call::DeviceRefuses => Record::Deliver(Outcome::OutOfDevice),
        Call::MapOutOfHost => delivered(Mapping::OutOfHost),
        Call::MapFails => delivered(Mapping::Failed),
    }
}

impl Call {
    // Whether an order is open when it is made.
    pub fn has_order(self) -> bool {
        Call::Deliver <= self
    }

    // A buddy store has no clean-up.
    pub fn is_of(self, s: Settings) -> bool {
        (self != Call::CleanUp) | !reel::is_buddy(s)
    }
}

// The call's ask: its own, or the one that led to the open order.
pub fn ask_of(c: Case, call: u64) -> Record {
    if Call::from(call).has_order() {
        ask(c.large, 0)
    } else {
        call_of(c, call)
    }
}

fn is_one_of(refusal: u32, refusals: &[Refusal]) -> bool {
    refusals.iter().any(|r| r.number() == refusal)
}

// What a refusal, by its number, leaves of the account: 11 and 12 close the order, the others change nothing; nor does a call that
// there is not.
pub fn left_of(settings: Settings, a: Account, call: u64, refusal: u32) -> Account {
    if !is_one_of(refusal, &[Refusal::Device, Refusal::Host]) {
        return a;
    }
    let s = reel::store_of(settings);
    match CALLS.get(call as usize) {
        Some(Call::DeviceRefuses) => closed(s, a),
        Some(Call::MapOutOfHost) => charged(s, a),
        Some(Call::MapFails) if reel::is_buddy(settings) => charged(s, a),
        Some(Call::MapFails) => given_back(s, a),
        _ => a,
    }
}

// Whether a refusal, by its number, leaves the levels as the ask raises them: in a buddy store 9, 11 and 12 do. A free list's chunk
// size, which 11 and 12 leave as raised, is as large as the ask already.
pub fn is_raised(s: Settings, refusal: u32) -> bool {
    reel::is_buddy(s) & is_one_of(refusal, &[Refusal::Objects, Refusal::Device, Refusal::Host])
}

fn damaged(old: u64, damage: Damage) -> u64 {
    match damage {
        Damage::Zero => 0,
        Damage::One => 1,
        Damage::Above => old.wrapping_add(1),
        Damage::Below => old.wrapping_sub(1),
        Damage::Highest => u64::MAX,
    }
}

// A copy of the row with that word damaged.
pub fn spoilt_row(s: Settings, image: &[u64], p: Place) -> [u64; ROW_MOST]
    ensures { length result ≡ 1585 }
{
    let mut row = copy_of(s, image);
    let at = table_at(p.table);
    let old = words::cell(image, at, 1, p.word);
    words::put_cell(&mut row, at, 1, p.word, damaged(old, Damage::from(p.value)));
    row
}
