// One call, made on the tables that a row of words holds.
use counter::Account;
use damage_parts::{
    CHUNKS_AT, Done, HEAD_AT, INDEX_AT, LIST_AT, LOANS_AT, keep_all, lent_words, own_from,
    table_from,
};
use reel::Settings;
use tape::Record;

// A record's call. The tables are taken out of the row, lent at their own lengths, and put back after it.
pub fn run(s: Settings, a: Account, call: Record, image: &mut [u64]) -> Done {
    let lengths = lent_words(s);
    let mut head = table_from(image, HEAD_AT);
    let mut loans = table_from(image, LOANS_AT);
    let mut chunks = table_from(image, CHUNKS_AT);
    let mut index = table_from(image, INDEX_AT);
    let mut list = table_from(image, LIST_AT);
    let mut own = own_from(image, lengths.own);
    let taken = reel_calls::take(
        s,
        a,
        Some(call),
        &mut head[..lengths.head],
        &mut loans[..lengths.loans],
        &mut chunks[..lengths.chunks],
        &mut index[..lengths.index],
        &mut own[..lengths.own],
        &mut list,
    );
    keep_all(
        image,
        &head,
        &loans,
        &chunks,
        &index,
        &list,
        &own,
        lengths.own,
    );
    Done::from(taken)
}

// The store set up in the row, whatever it holds; or else refused.
pub fn set_up(s: Settings, image: &mut [u64]) -> bool {
    let lengths = lent_words(s);
    let mut head = table_from(image, HEAD_AT);
    let mut loans = table_from(image, LOANS_AT);
    let mut chunks = table_from(image, CHUNKS_AT);
    let mut index = table_from(image, INDEX_AT);
    let list = table_from(image, LIST_AT);
    let mut own = own_from(image, lengths.own);
    let answer = reel_calls::set_up(
        s,
        &mut head[..lengths.head],
        &mut loans[..lengths.loans],
        &mut chunks[..lengths.chunks],
        &mut index[..lengths.index],
        &mut own[..lengths.own],
    );
    keep_all(
        image,
        &head,
        &loans,
        &chunks,
        &index,
        &list,
        &own,
        lengths.own,
    );
    answer.is_ok()
}
