// The ranking's edge cases: no types, as many as there may be, one more, and a property word past the last.
#![tactic(auto)]

use std::io;

fn main(rt: HostRuntime) -> io::Result<()> {
    let mut words = [
        3u32, 14u32, 25u32, 36u32, 47u32, 58u32, 5u32, 16u32, 27u32, 38u32, 49u32, 60u32, 7u32,
        18u32, 29u32, 40u32, 51u32, 62u32, 9u32, 20u32, 31u32, 42u32, 53u32, 0u32, 11u32, 22u32,
        33u32, 44u32, 55u32, 2u32, 13u32, 24u32, 35u32,
    ];
    let mut out = io::writer(&rt);
    text::print_ranking(&mut out, usage::rank(&words[..0]))?;
    text::print_ranking(&mut out, usage::rank(&words[..32]))?;
    text::print_ranking(&mut out, usage::rank(&words))?;
    words[31] = 64;
    text::print_ranking(&mut out, usage::rank(&words[..32]))
}
