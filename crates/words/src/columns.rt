// One word of each record of a lent table.
ghost use Rattle.std.specs.Prelude.{◌≡◌, ◌≤◌, ◌<◌, get_or, set};
ghost use Rattle.words.specs.Words.{widest, at_most, cell_of};

// The words that stand `at` words into the records, of `width` words each.
#[derive(Clone, Copy)]
pub struct Column {
    pub at: usize,
    pub width: usize,
    pub ghost stands: { (0 < width) × (width ≤ widest) × (at ≤ at_most) },
}

impl Column {
    // The word of the record at i, 0 past the end.
    pub fn word(self, t: &[u64], i: usize) -> u64
        ensures { result ≡ get_or t.now (cell_of self.at self.width i) 0 }
    {
        if i < t.len() {
            crate::word(t, self.at + self.width * i)
        } else {
            0
        }
    }

    // The same place written, nowhere past the end.
    pub fn put(self, t: &mut [u64], i: usize, v: u64)
        ensures { t.new ≡ set t.old (cell_of self.at self.width i) v }
    {
        if i < t.len() {
            crate::put(t, self.at + self.width * i, v);
        }
    }
}
