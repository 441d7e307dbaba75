// A store's settings, read from words.
ghost use Rattle.std.specs.Prelude.{◌≡◌, true, ◌≤◌};
ghost use Rattle.wire_rules.specs.Wire.{narrow_most, narrow_ok, list_words, buddy_words, store_in, list_in, buddy_in, settings_ok};

use counter::{BuddySettings, FreeListSettings, StoreSettings};

// How many words the settings of a free list are, and those of a buddy.
pub const LIST_WORDS: usize = 9;

pub const BUDDY_WORDS: usize = 10;

// The greatest number of a field of 32 bits.
const NARROW_MOST: u64 = 4_294_967_295;

// Whether word i is a number of 32 bits.
pub fn is_narrow(w: &[u64], i: usize) -> bool
    ensures { result ≡ narrow_ok w.now i }
{
    words::word(w, i) <= NARROW_MOST
}

pub fn narrow(n: u64) -> u32
    requires { n ≤ narrow_most }
    ensures { result ≡ n }
{
    n as u32
}

// Whether there are n words, and number, memory type and properties are of 32 bits.
pub fn is_settings(w: &[u64], n: usize) -> bool
    ensures { result ≡ settings_ok n w.now }
{
    if w.len() != n {
        return false;
    }
    is_narrow(w, 0) & (is_narrow(w, 1) & is_narrow(w, 2))
}

// The seven words that every store's settings begin with. That there are so many is known, so no word needs a test of its own.
fn read_store(w: &[u64], n: usize) -> StoreSettings
    requires { (settings_ok n w.now ≡ true) × (7 ≤ n) }
    ensures { result ≡ store_in w.now }
{
    StoreSettings {
        number: narrow(w[0]),
        memtype: narrow(w[1]),
        properties: narrow(w[2]),
        heap: w[3] as usize,
        atom: w[4],
        loans: w[5] as usize,
        chunks: w[6] as usize,
    }
}

pub fn read_free_list(w: &[u64]) -> FreeListSettings
    requires { settings_ok list_words w.now ≡ true }
    ensures { result ≡ list_in w.now }
{
    FreeListSettings {
        store: read_store(w, LIST_WORDS),
        start: w[7],
        last: w[8],
    }
}

pub fn read_buddy(w: &[u64]) -> BuddySettings
    requires { settings_ok buddy_words w.now ≡ true }
    ensures { result ≡ buddy_in w.now }
{
    BuddySettings {
        store: read_store(w, BUDDY_WORDS),
        minimal: w[7],
        initial: w[8],
        pairs: w[9] as usize,
    }
}
