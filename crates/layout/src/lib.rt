// A directory and all below it laid into consecutive pages of another image: its entries are counted, for its further pages, then laid one after the other.
#![tactic(auto)]

ghost use Rattle.std.specs.Prelude.{◌≡◌, ◌+◌, ◌*◌, ◌≤◌, ◌<◌, length};
ghost use Rattle.geometry.specs.Geometry.{Fit, entry_size};
ghost use Rattle.geometry.specs.Page.{overwritten};
ghost use Rattle.geometry.specs.Number.{Bytes};
ghost use Rattle.rules.specs.Chain.{views_of};
ghost use Rattle.entries.specs.EntrySlots.{Fits};
ghost use Rattle.layout.specs.Layout.{parent_of, TakesSlots, KnownEntries, CountsFurther, pages_in, bytes_behind, Holding, Turned, Added, KnownPart, LaysPart, KnownDirectory, LaysDirectory};

use directory::entries::Item;
use directory::extensions::is_directory;
use entries::Slot;
use geometry::{Geometry, LENGTH_BYTES, MOST_CONTROL_BYTES, MOST_PAGE_BYTES};
use rules::Entry;

// The slots that are left on a directory's page, and the pages that its entries have opened.
#[derive(Clone, Copy)]
pub struct Room {
    pub left: usize,
    pub opened: usize,
}

// A directory being laid: the page at hand, the bytes and the slots left of it, the next further page, the next page of a chain below.
#[derive(Clone, Copy)]
pub struct Laid {
    pub page: usize,
    pub held: usize,
    pub left: usize,
    pub further: usize,
    pub chain: usize,
}

// Takes the slots of an entry with its stamps: on the page at hand if they fit there, else on one that is opened.
fn take_slots(later: usize, r: Room, slots: usize) -> Room
    requires { (slots ≤ later) × (r.opened < 65536) }
    ensures { TakesSlots later r slots result }
{
    let left = r.left;
    let opened = r.opened;
    if slots <= left {
        return Room {
            left: left - slots,
            opened,
        };
    }
    Room {
        left: later - slots,
        opened: opened + 1,
    }
}

// How many pages a directory's entries open after its first.
pub fn further_pages(image: &[u8], g: Geometry, levels: usize, start: usize) -> usize
    requires fit { Fit g image.now × Bytes image.now }
    requires known_entries { KnownEntries g (views_of g image.now) levels start }
    ensures { CountsFurther g (views_of g image.now) levels start result }
{
    let later = g.later_entries();
    let mut room = Room {
        left: g.first_entries(),
        opened: 0,
    };
    let mut slot = Slot::first(image, g, start);
    let mut stamps = 0;
    while let Some(here) = slot.next_entry(image, g) {
        slot = here.past();
        let Item::Plain(_) = here.item(image, g) else {
            stamps += 1;
            continue;
        };
        room = take_slots(later, room, stamps + 1);
        stamps = 0;
    }
    room.opened
}

// Closes the page at hand if so many slots are not left in it.
fn turn(second: &mut [u8], g: Geometry, buffer: &[u8], w: Laid, slots: usize) -> Laid
    requires fit { Fit g second.old }
    requires holding { Holding g buffer.now w × (w.further < 65536) }
    ensures { Turned g buffer.now w slots second.old result second.new }
{
    if slots <= w.left {
        return w;
    }
    let page = w.page;
    let held = w.held;
    let next = w.further;
    packet::write_page(second, g, page, &buffer[..held], next);
    Laid {
        page: next,
        held: 0,
        left: g.later_entries(),
        further: next + 1,
        chain: w.chain,
    }
}

// The number of pages in the entry of what was laid: 0 for a subdirectory.
fn pages_of(e: Entry, from: usize, next: usize) -> usize
    requires { from ≤ next }
    ensures { result ≡ pages_in e from next }
{
    if is_directory(e.extension) {
        return 0;
    }
    next - from
}

// Copies the stamps before an entry, as they stand in the source's page, into the buffer from `held` on.
fn put_stamps(image: &[u8], g: Geometry, buffer: &mut [u8], held: usize, here: Slot, stamps: usize)
    requires fit { Fit g image.now }
    requires buffer_len { (length buffer.old ≡ 256) × (held + entry_size g * stamps ≤ 252) × Fits g here × (stamps ≤ here.at) × (here.at < here.count) }
    ensures { buffer.new ≡ overwritten held (bytes_behind g image.now here stamps) buffer.old }
{
    let size = g.entry_size();
    let from = LENGTH_BYTES + here.skip + size * (here.at - stamps);
    let to = from + size * stamps;
    let page = geometry::page_of(image, g, here.page);
    geometry::put_bytes(buffer, held, &page[from..to]);
}

// Adds an entry to the page at hand, its stamps before it. What it names was laid up to `next`.
fn add(
    image: &[u8],
    g: Geometry,
    buffer: &mut [u8],
    w: Laid,
    here: Slot,
    stamps: usize,
    e: Entry,
    next: usize,
) -> Laid
    requires fit { Fit g image.now }
    requires holding { Holding g buffer.old w × (stamps < w.left) × (w.chain ≤ next) × Fits g here × (stamps ≤ here.at) × (here.at < here.count) }
    ensures { Added g image.now buffer.old w here stamps e next buffer.new result }
{
    let size = g.entry_size();
    let held = w.held;
    put_stamps(image, g, buffer, held, here, stamps);
    let start = w.chain;
    let new = Entry {
        name: e.name,
        extension: e.extension,
        start,
        pages: pages_of(e, start, next),
    };
    let at = held + size * stamps;
    let end = at + size;
    directory::entries::put_entry(&mut buffer[at..end], new, g.width);
    Laid {
        page: w.page,
        held: end,
        left: w.left - (stamps + 1),
        further: w.further,
        chain: next,
    }
}

// What an entry names: a file's chain, or a subdirectory with all below it. `name` and `at` are those of the directory above.
#[cycle(lay_directory_lay_entry)]
fn lay_entry(
    image: &[u8],
    g: Geometry,
    levels: usize,
    name: u32,
    at: usize,
    e: Entry,
    chain: usize,
    second: &mut [u8],
) -> usize
    requires fit { Fit g image.now × Bytes image.now }
    requires fit_2 { Fit g second.old }
    requires levels_bound { (levels ≤ 8) × KnownPart g (views_of g image.now) levels e chain }
    ensures { LaysPart g (views_of g image.now) levels (parent_of name at) e chain second.old second.new result }
{
    if is_directory(e.extension) {
        let below = levels - 1;
        let further = further_pages(image, g, below, e.start);
        let size = g.control_size();
        let mut head = [0u8; MOST_CONTROL_BYTES];
        directory::control::put_control(&mut head[..size], g.width, name, at);
        return lay_directory(
            image,
            g,
            below,
            e.name,
            e.start,
            &head[..size],
            chain,
            chain + 1,
            chain + 1 + further,
            second,
        );
    }
    runs::copy_run(image, g, e.start, second, chain)
}

// A directory with all below it: its first page, which begins with the bytes `head`, is `at`, its further pages come from `further` on and the chains below it
// from `chain` on. The page after the last.
#[cycle(lay_directory_lay_entry)]
pub fn lay_directory(
    image: &[u8],
    g: Geometry,
    levels: usize,
    name: u32,
    start: usize,
    head: &[u8],
    at: usize,
    further: usize,
    chain: usize,
    second: &mut [u8],
) -> usize
    requires fit { Fit g image.now × Bytes image.now }
    requires fit_2 { Fit g second.old }
    requires levels_bound { (levels ≤ 8) × KnownDirectory g (views_of g image.now) levels start head.now at further chain }
    ensures { LaysDirectory g (views_of g image.now) levels (parent_of name at) start head.now at further chain second.old second.new result }
{
    let mut buffer = [0u8; MOST_PAGE_BYTES];
    geometry::put_bytes(&mut buffer, 0, head);
    let mut w = Laid {
        page: at,
        held: head.len(),
        left: g.first_entries(),
        further,
        chain,
    };
    let mut slot = Slot::first(image, g, start);
    let mut stamps = 0;
    while let Some(here) = slot.next_entry(image, g) {
        slot = here.past();
        let Item::Plain(e) = here.item(image, g) else {
            stamps += 1;
            continue;
        };
        w = turn(second, g, &buffer, w, stamps + 1);
        let from = w.chain;
        let next = lay_entry(image, g, levels, name, at, e, from, second);
        w = add(image, g, &mut buffer, w, here, stamps, e, next);
        stamps = 0;
    }
    let page = w.page;
    let held = w.held;
    packet::write_page(second, g, page, &buffer[..held], 0);
    w.chain
}
