// The entries of a directory: the step to the next of them, and to the next page; their number, and the search for a second entry of one name.
#![tactic(auto)]

ghost use Rattle.std.specs.Prelude.{◌≡◌, ◌+◌, ◌*◌, ◌≤◌, ◌<◌, min, eqb, length, drop};
ghost use Rattle.geometry.specs.Geometry.{entry_size, Fit, Valid};
ghost use Rattle.packet.specs.Packet.{view_of};
ghost use Rattle.rules.specs.PageSets.{mem};
ghost use Rattle.rules.specs.Names.{key};
ghost use Rattle.directory.specs.EntryPlaces.{HasEntry};
ghost use Rattle.chain.specs.Claims.{Counted, IsGood};
ghost use Rattle.chain.specs.KnownChain.{KnownChain};
ghost use Rattle.entries.specs.EntrySlots.{PlainKey, entry_key, keys_from, open_of, advanced, HasEntries, CountsEntries, Repeats};
ghost use Rattle.entries.specs.TokensAt.{InDirectory, Begins, IsItemAt, IsNextPage, IsNextEntry};

use chain::Cursor;
use directory::entries::{Item, after_entry, read_slot};
use directory::extensions::extension_of;
use geometry::{ATTRIBUTE, Geometry, LENGTH_BYTES};

// A place in a directory: a page, the bytes before its entries, how many it has and the next of them; the position of the page after it.
#[derive(Clone, Copy)]
pub struct Slot {
    pub page: usize,
    pub skip: usize,
    pub count: usize,
    pub at: usize,
    pub next: Cursor,
}

// Name and extension number as one number.
pub fn key_of(name: u32, extension: u8) -> u64
    ensures { result ≡ key name extension }
{
    u64::from(name) * u64::from(ATTRIBUTE) + u64::from(extension_of(extension).number)
}

impl Slot {
    // At the first entry of a page that is known to hold a right packet.
    fn begin(c: Cursor, skip: usize, image: &[u8], g: Geometry) -> Slot
        requires fit { Fit g image.now }
        requires counted { Counted c × (c.page < g.pages) × IsGood (view_of g image.now c.page) × (skip ≤ 31) }
        ensures { result ≡ open_of g (view_of g image.now) skip c }
    {
        let (size, next) = c.follow(image, g);
        Slot {
            page: c.page,
            skip,
            // a page of a chain that was judged holds the bytes before its entries whole
            count: g.entries_in(size.saturating_sub(skip)),
            at: 0,
            next,
        }
    }

    // At the first entry of a directory whose chain is known to stand.
    pub fn first(image: &[u8], g: Geometry, start: usize) -> Slot
        requires fit { Fit g image.now }
        requires known_chain { KnownChain g (view_of g image.now) start }
        ensures { Begins g (view_of g image.now) start result }
    {
        Slot::begin(Cursor::new(start, start), g.control_size(), image, g)
    }

    // Past one entry.
    pub fn past(self) -> Slot
        requires { self.at < self.count }
        ensures { result ≡ advanced self }
    {
        Slot {
            at: self.at + 1,
            ..self
        }
    }

    // What stands at a place: a plain entry, or an extended one.
    pub fn item(self, image: &[u8], g: Geometry) -> Item
        requires fit { Fit g image.now }
        requires in_directory { InDirectory g (view_of g image.now) self × (self.at < self.count) }
        ensures { IsItemAt g (view_of g image.now) self result }
    {
        let at = LENGTH_BYTES + self.skip + g.entry_size() * self.at;
        read_slot(geometry::page_of(image, g, self.page), at, g.width)
    }

    // The first entry of the next page, past the entries that are left on this one.
    pub fn next_page(self, image: &[u8], g: Geometry) -> Option<Slot>
        requires fit { Fit g image.now }
        requires in_directory { InDirectory g (view_of g image.now) self }
        ensures { IsNextPage g (view_of g image.now) self result }
    {
        let next = self.next;
        if next.page == 0 {
            return None;
        }
        Some(Slot::begin(next, 0, image, g))
    }

    // The next entry: the one at this place, or the first on a later page.
    pub fn next_entry(self, image: &[u8], g: Geometry) -> Option<Slot>
        requires fit { Fit g image.now }
        requires in_directory { InDirectory g (view_of g image.now) self }
        ensures { IsNextEntry g (view_of g image.now) self result }
    {
        let mut slot = self;
        loop {
            if slot.at < slot.count {
                return Some(slot);
            }
            slot = slot.next_page(image, g)?;
        }
    }
}

// Whether the entry at a place of a page has this key, that of a plain entry; an extended one has none.
fn has_key(page: &[u8], at: usize, n: usize, wanted: u64) -> bool
    requires { HasEntry n page.now at × PlainKey wanted }
    ensures { result ≡ eqb (entry_key (drop at page.now)) wanted }
{
    match read_slot(page, at, n) {
        Item::Extended => false,
        Item::Plain(e) => key_of(e.name, e.extension) == wanted,
    }
}

// Whether one of the first m entries, of both kinds, that stand from a place of a page on has this key.
fn page_has(page: &[u8], from: usize, m: usize, key: u64, g: Geometry) -> bool
    requires valid { Valid g }
    requires m_in_bounds { (from + entry_size g * m ≤ length page.now) × (length page.now ≤ 256) × PlainKey key }
    ensures { result ≡ mem key (keys_from g m (drop from page.now)) }
{
    let mut at = from;
    for _ in 0..m {
        if has_key(page, at, g.width, key) {
            return true;
        }
        at = after_entry(page, at, g.width);
    }
    false
}

// How many entries of both kinds a directory has.
pub fn count_of(image: &[u8], g: Geometry, start: usize) -> usize
    requires fit { Fit g image.now }
    requires known_chain { KnownChain g (view_of g image.now) start }
    ensures { CountsEntries g (view_of g image.now) start result × (result < 16777216) }
{
    let mut slot = Slot::first(image, g, start);
    let mut n = 0;
    loop {
        n += slot.count;
        let Some(later) = slot.next_page(image, g) else {
            return n;
        };
        slot = later;
    }
}

// Whether one of the first m entries of a directory, of both kinds, has this key, that of a plain entry.
pub fn is_repeated(image: &[u8], g: Geometry, start: usize, m: usize, key: u64) -> bool
    requires fit { Fit g image.now }
    requires has_entries { HasEntries g (view_of g image.now) start m × PlainKey key }
    ensures { Repeats g (view_of g image.now) start m key result }
{
    let mut slot = Slot::first(image, g, start);
    let mut left = m;
    loop {
        let count = slot.count;
        let page = geometry::page_of(image, g, slot.page);
        if page_has(page, LENGTH_BYTES + slot.skip, left.min(count), key, g) {
            return true;
        }
        if left <= count {
            return false;
        }
        left -= count;
        let Some(later) = slot.next_page(image, g) else {
            // the directory has more than the entries passed
            return false;
        };
        slot = later;
    }
}
