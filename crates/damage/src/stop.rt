// Why trials end before their end: a failed write, or something that was told in a line.
use std::io;

#[derive(Debug, Drop)]
pub enum Stop {
    Write(io::Error),
    Told,
}

impl From<io::Error> for Stop {
    fn from(e: io::Error) -> Stop {
        Stop::Write(e)
    }
}
