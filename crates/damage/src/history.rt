// A store that is set up brought further by a tape's calls in turn, of which none may be refused.
use crate::calls::run;
use counter::Account;
use reel::{Buffer, Settings, Turn};
use std::io::Read;

// a tape is read through a buffer of so many bytes
const BUFFER_BYTES: usize = 4096;

// The account that a tape's records lead to; where one is refused or torn, how many stand before it.
// A loop has to end, and nothing says that a tape does: so records are counted, and no tape has as many as can be counted.
pub fn replay(
    input: &mut impl Read,
    s: Settings,
    fresh: Account,
    image: &mut [u64],
) -> Result<Account, u64> {
    let buddy = reel::is_buddy(s);
    let mut buffer = Buffer::<BUFFER_BYTES>::new();
    let mut a = fresh;
    for records in 0..u64::MAX {
        match buffer.next(input, buddy) {
            Turn::Ended => break,
            Turn::Torn(_) => return Err(records),
            Turn::Whole(record, _) => {
                let done = run(s, a, record, image);
                if done.refusal.is_some() {
                    return Err(records);
                }
                a = done.account;
            }
        }
    }
    Ok(a)
}
