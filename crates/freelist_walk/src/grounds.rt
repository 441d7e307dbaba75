// What the walk goes over.
ghost use Rattle.std.specs.Prelude.{◌≡◌, true, ◌≤◌};
ghost use Rattle.counter.specs.Limits.{chunk_size_most};
ghost use Rattle.words.specs.Rows.{rows};
ghost use Rattle.freelist_rules.specs.Records.{chunk_row};
ghost use Rattle.freelist_rules.specs.Pieces.{All};
ghost use Rattle.freelist_rules.specs.Walk.{numbers_rise};
ghost use Rattle.freelist_walk.specs.Turn.{Laid};

// The first `held` chunks, whose numbers rise; the loans at the first `places` places, an index of `most` loans, and the first
// `count` regions.
#[derive(Drop)]
pub struct Ground<'a> {
    pub chunks: &'a [u64],
    pub held: usize,
    pub loans: &'a [u64],
    pub places: usize,
    pub index: &'a [u64],
    pub most: usize,
    pub regions: &'a [u64],
    pub count: usize,
    pub ghost laid: { Laid most held count places chunks.now loans.now index.now regions.now },
    pub ghost rise: { numbers_rise 1 (rows chunk_row held chunks.now) ≡ true },
    pub ghost small: { All (λ c. c.size ≤ chunk_size_most) (rows chunk_row held chunks.now) },
}
