// A tape's header: 13 words that name a store's settings and the account it begins with.
ghost use Rattle.std.specs.Prelude.{◌≡◌, true, ◌<◌, ◌≤◌};
ghost use Rattle.tape.specs.Header.{header_words, narrow_most, field, fits_ok, store_in, start_in, free_list_in, buddy_in, header_of};

use crate::numbers::{WORD_BYTES, word_at};
use counter::{BuddySettings, FreeListSettings, HEAP_BYTES_MOST, OBJECTS_MOST, StoreSettings};

pub const HEADER_WORDS: usize = 13;

pub const HEADER_BYTES: usize = WORD_BYTES * HEADER_WORDS;
// the greatest number of a field of 32 bits
const NARROW_MOST: u64 = 4_294_967_295;
// engines
const BUDDY: u64 = 1;

const FREE_LIST: u64 = 2;
// what each word holds; specs/Header has the same names
const ENGINE: usize = 0;

const NUMBER: usize = 1;

const MEMTYPE: usize = 2;

const PROPERTIES: usize = 3;

const HEAP: usize = 4;

const ATOM: usize = 5;

const LEAST: usize = 6;

const GREATEST: usize = 7;

const LOANS: usize = 8;

const CHUNKS: usize = 9;

const PAIRS: usize = 10;

const HEAP_SIZE: usize = 11;

const OBJECTS: usize = 12;

// A store's settings, of either engine.
#[derive(Clone, Copy)]
pub enum Settings {
    FreeList(FreeListSettings),
    Buddy(BuddySettings),
}

// Settings, and the size of the store's heap and the device objects allowed when it begins.
#[derive(Clone, Copy)]
pub struct Start {
    pub settings: Settings,
    pub heap_size: u64,
    pub objects: u32,
}

fn word(bytes: &[u8], i: usize) -> u64
    requires { i < header_words }
    ensures { result ≡ field i bytes.now }
{
    word_at(bytes, WORD_BYTES * i)
}

// Whether the header is whole, and each word fits its field.
#[tactic(auto, unfolding(crate::specs::Header::fits_ok))]
fn fits(bytes: &[u8]) -> bool
    ensures { result ≡ fits_ok bytes.now }
{
    (HEADER_BYTES <= bytes.len())
        & (word(bytes, NUMBER) <= NARROW_MOST)
        & (word(bytes, MEMTYPE) <= NARROW_MOST)
        & (word(bytes, PROPERTIES) <= NARROW_MOST)
        & (word(bytes, HEAP_SIZE) <= HEAP_BYTES_MOST)
        & (word(bytes, OBJECTS) <= u64::from(OBJECTS_MOST))
}

// A number of at most 32 bits.
fn narrow(n: u64) -> u32
    requires { n ≤ narrow_most }
    ensures { result ≡ n }
{
    n as u32
}

#[tactic(auto, using(crate::proofs::Headers::fits_yes))]
fn store(bytes: &[u8]) -> StoreSettings
    requires { fits_ok bytes.now ≡ true }
    ensures { result ≡ store_in bytes.now }
{
    StoreSettings {
        number: narrow(word(bytes, NUMBER)),
        memtype: narrow(word(bytes, MEMTYPE)),
        properties: narrow(word(bytes, PROPERTIES)),
        heap: word(bytes, HEAP) as usize,
        atom: word(bytes, ATOM),
        loans: word(bytes, LOANS) as usize,
        chunks: word(bytes, CHUNKS) as usize,
    }
}

#[tactic(auto, using(crate::proofs::Headers::fits_yes))]
fn begin(bytes: &[u8], settings: Settings) -> Start
    requires { fits_ok bytes.now ≡ true }
    ensures { result ≡ start_in bytes.now settings }
{
    Start {
        settings,
        heap_size: word(bytes, HEAP_SIZE),
        objects: narrow(word(bytes, OBJECTS)),
    }
}

fn free_list(bytes: &[u8]) -> FreeListSettings
    requires { fits_ok bytes.now ≡ true }
    ensures { result ≡ free_list_in bytes.now }
{
    FreeListSettings {
        store: store(bytes),
        start: word(bytes, LEAST),
        last: word(bytes, GREATEST),
    }
}

fn buddy(bytes: &[u8]) -> BuddySettings
    requires { fits_ok bytes.now ≡ true }
    ensures { result ≡ buddy_in bytes.now }
{
    BuddySettings {
        store: store(bytes),
        minimal: word(bytes, LEAST),
        initial: word(bytes, GREATEST),
        pairs: word(bytes, PAIRS) as usize,
    }
}

// What the header at the front of these bytes says; none where it is short, or has a word that no settings or account can have. Whether
// 01's table allows the settings is left to set-up.
#[tactic(auto, unfolding(crate::specs::Header::header_of))]
pub fn read_header(bytes: &[u8]) -> Option<Start>
    ensures { result ≡ header_of bytes.now }
{
    if !fits(bytes) {
        return None;
    }
    match word(bytes, ENGINE) {
        FREE_LIST if word(bytes, PAIRS) == 0 => {
            Some(begin(bytes, Settings::FreeList(free_list(bytes))))
        }
        BUDDY => Some(begin(bytes, Settings::Buddy(buddy(bytes)))),
        _ => None,
    }
}
