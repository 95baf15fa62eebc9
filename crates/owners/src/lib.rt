// The owner table: bytes, four for each page: its owner, 0 for a free page, then its place in the owner's chain, each low byte first. Every access to the table stands here.
#![tactic(auto)]

ghost use Rattle.std.specs.Prelude.{◌≡◌, ◌+◌, ◌*◌, ◌/◌, ◌≤◌, ◌<◌, length, set, replicate};
ghost use Rattle.rules.specs.Owners.{held};
ghost use Rattle.owners.specs.Records.{records_of};
ghost use Rattle.owners.specs.Owned.{owner_at, is_owned, page_bit, ClaimsBelow, released};
ghost use Rattle.owners.specs.Free.{NextFree, Rooms};

use geometry::{RECORD_BYTES, ROOT_OWNER};

// Makes every page free.
pub fn clear(table: &mut [u8])
    ensures { table.new ≡ replicate (length table.old) 0 }
{
    // `for`, not `fill`: the edit `high_bytes_left_from_before` changes which byte is cleared
    for at in 0..table.len() {
        table[at] = 0;
    }
}

// The pages that a table has records of.
pub fn pages_of(table: &[u8]) -> usize
    ensures { result ≡ length (records_of table.now) }
{
    table.len() / RECORD_BYTES
}

// The owner of a page, 0 for a free one.
fn owner_of(table: &[u8], page: usize) -> usize
    requires { 4 * page + 3 < length table.now }
    ensures { result ≡ owner_at (records_of table.now) page }
{
    let at = RECORD_BYTES * page;
    usize::from(u16::from_le_bytes([table[at], table[at + 1]]))
}

// Whether a page has an owner; a page past the table has none.
pub fn is_owned(table: &[u8], page: usize) -> bool
    ensures { result ≡ is_owned (records_of table.now) page }
{
    if page < pages_of(table) {
        return owner_of(table, page) != 0;
    }
    false
}

// A page's bit in the bitmap: 1 for every page below a bound, and for each that has an owner.
pub fn bit(table: &[u8], page: usize, below: usize) -> usize
    ensures { (result ≡ page_bit (records_of table.now) below page) × (result ≤ 1) }
{
    usize::from(page < below || is_owned(table, page))
}

// Gives a page an owner and its place in the owner's chain.
pub fn claim(table: &mut [u8], page: usize, owner: usize, place: usize)
    requires { (4 * page + 3 < length table.old) × (owner < 65536) × (place < 65536) }
    ensures { records_of table.new ≡ set (records_of table.old) page (held owner place) }
{
    let at = RECORD_BYTES * page;
    table[at..at + 2].copy_from_slice(&(owner as u16).to_le_bytes());
    table[at + 2..at + 4].copy_from_slice(&(place as u16).to_le_bytes());
}

// Gives every page below a bound an owner.
pub fn claim_below(table: &mut [u8], below: usize)
    requires { 4 * below ≤ length table.old }
    ensures { ClaimsBelow (records_of table.old) below (records_of table.new) }
{
    for page in 0..below {
        claim(table, page, ROOT_OWNER, 0);
    }
}

// Makes a page free again.
pub fn release(table: &mut [u8], page: usize)
    requires { 4 * page + 3 < length table.old }
    ensures { records_of table.new ≡ released (records_of table.old) page }
{
    claim(table, page, 0, 0);
}

// The lowest free page from a page on, or the number of pages if there is none.
pub fn next_free(table: &[u8], from: usize) -> usize
    ensures { NextFree (records_of table.now) from result }
{
    let pages = pages_of(table);
    (from..pages)
        .find(|page| !is_owned(table, *page))
        .unwrap_or(pages)
}

// Room for so many new pages: a bound below which just so many pages are free, as low as it can be; none where too few are free.
pub fn find_room(table: &[u8], need: usize) -> Option<usize>
    ensures { Rooms (records_of table.now) need result }
{
    if need == 0 {
        return Some(0);
    }
    let mut left = need;
    for page in 0..pages_of(table) {
        if !is_owned(table, page) {
            left -= 1;
            if left == 0 {
                return Some(page + 1);
            }
        }
    }
    None
}
