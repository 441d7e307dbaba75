// Numbers in bytes, the least byte first.
ghost use Rattle.std.specs.Prelude.{◌≡◌, ◌+◌, ◌<◌, get_or};
ghost use Rattle.tape.specs.Numbers.{little, four, word_at};

pub const WORD_BYTES: usize = 8;

// The byte k after a place, 0 past the end.
pub fn byte(bytes: &[u8], at: usize, k: usize) -> u8
    ensures { result ≡ get_or bytes.now (at + k) 0 }
{
    match at.checked_add(k) {
        Some(i) if i < bytes.len() => bytes[i],
        _ => 0,
    }
}

// The word at a place; each byte past the end counts as 0.
#[tactic(auto, unfolding(crate::specs::Numbers::word_at))]
pub fn word_at(bytes: &[u8], at: usize) -> u64
    ensures { result ≡ word_at bytes.now at }
{
    u64::from_le_bytes([
        byte(bytes, at, 0),
        byte(bytes, at, 1),
        byte(bytes, at, 2),
        byte(bytes, at, 3),
        byte(bytes, at, 4),
        byte(bytes, at, 5),
        byte(bytes, at, 6),
        byte(bytes, at, 7),
    ])
}
