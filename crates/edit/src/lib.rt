// The steps of an edit of one directory: free pages found; then, within a budget of page writes, a new chain's pages, the directory's pages and the bitmap's pages.
#![tactic(auto)]

ghost use Rattle.std.specs.Prelude.{◌≡◌, ◌+◌, ◌≤◌, ◌<◌, ◌*◌, length};
ghost use Rattle.owners.specs.Records.{records_of};
ghost use Rattle.geometry.specs.Geometry.{Fit};
ghost use Rattle.packet.specs.Packet.{view_of};
ghost use Rattle.packet.specs.Budgets.{Open};
ghost use Rattle.edit.specs.Pages.{Takes};
ghost use Rattle.edit.specs.OldChains.{HasOld, FreesOld};
ghost use Rattle.edit.specs.Plans.{change_of, count_told, entry_of, Plan, Carries, Removal, RemovesEntry, PlainPutting, PutsFile};

use directory::extensions::is_directory;
use entries::Slot;
use geometry::{Geometry, WIDE_ENTRY_BYTES};
use packet::Budget;
use refusals::{Fault, Refusal};
use rules::Entry;
use writes::Change;

// The pages that an edit takes, all of them free: one that joins the directory, 0 if none does; the start page of a new chain; and a bound below which they lie.
#[derive(Clone, Copy)]
pub struct Pages {
    pub joins: usize,
    pub start: usize,
    pub below: usize,
}

// A file to be put, or a directory to be made: name and extension, the chain that it replaces, and where its entry goes. On the page of `slot` it replaces the entries `first` to `last`, `last` not among them;
// or, if `extra` is 1, a page joins the directory after that page with the entry.
#[derive(Clone, Copy)]
pub struct NewFile {
    pub name: u32,
    pub extension: u8,
    // the start page of the chain that it replaces; the number of pages if it replaces none
    pub replaces: usize,
    pub slot: Slot,
    pub first: usize,
    pub last: usize,
    pub extra: usize,
}

// Makes the pages of a chain free again; none if its start page is past the image.
pub fn release_old(image: &[u8], g: Geometry, start: usize, table: &mut [u8])
    requires fit { Fit g image.now }
    requires has_old { HasOld g (view_of g image.now) start × (length table.old ≡ 4 * g.pages) }
    ensures { FreesOld g (view_of g image.now) start (records_of table.old) (records_of table.new) }
{
    if start < g.pages {
        chain::release_chain(image, g, start, table);
    }
}

// Finds the lowest free pages for a page that joins, if `extra` is 1, and then for a chain of so many pages; none if too few are free.
pub fn find_pages(table: &[u8], extra: usize, pages: usize) -> Option<Pages>
    requires { (extra ≤ 1) × (1 ≤ pages) × (extra + pages ≤ 18446744073709551615) }
    ensures { Takes (records_of table.now) extra pages result }
{
    let below = owners::find_room(table, extra + pages)?;
    let first = owners::next_free(table, 0);
    if extra == 0 {
        return Some(Pages {
            joins: 0,
            start: first,
            below,
        });
    }
    Some(Pages {
        joins: first,
        start: owners::next_free(table, first + 1),
        below,
    })
}

// Stores bytes in free pages from the entry's start page on, then writes the entry in its directory's pages.
pub fn put_chain(
    image: &mut [u8],
    g: Geometry,
    change: Change,
    e: Entry,
    bytes: &[u8],
    table: &[u8],
    budget: Budget,
) -> Budget
    requires fit { Fit g image.old }
    requires table_len { (length table.now ≡ 4 * g.pages) × Plan g image.old (records_of table.now) bytes.now change e × Open budget }
    ensures { Carries g image.old (records_of table.now) bytes.now change e budget image.new result }
{
    let stored = writes::store_chain(image, g, table, e.start, bytes, budget);
    if stored.stopped {
        return stored;
    }
    let width = g.entry_size();
    let mut entry = [0u8; WIDE_ENTRY_BYTES];
    directory::entries::put_entry(&mut entry[..width], e, g.width);
    writes::change_pages(image, g, change, &entry[..width], stored)
}

// The page count that an entry tells: 0 for a directory.
fn count_told(extension: u8, pages: usize) -> usize
    ensures { result ≡ count_told extension pages }
{
    let directory = is_directory(extension);
    if directory {
        return 0;
    }
    pages
}

// Stores the bytes of a file, or of a directory's page, in the pages found, then writes its entry.
pub fn put_entry(
    image: &mut [u8],
    g: Geometry,
    file: NewFile,
    taken: Pages,
    pages: usize,
    bytes: &[u8],
    table: &[u8],
    budget: Budget,
) -> Budget
    requires fit { Fit g image.old }
    requires table_len { (length table.now ≡ 4 * g.pages) × Plan g image.old (records_of table.now) bytes.now (change_of file taken) (entry_of file taken pages) × Open budget }
    ensures { Carries g image.old (records_of table.now) bytes.now (change_of file taken) (entry_of file taken pages) budget image.new result }
{
    let slot = file.slot;
    let change = Change {
        slot,
        first: file.first,
        last: file.last,
        joins: taken.joins,
    };
    let e = Entry {
        name: file.name,
        extension: file.extension,
        start: taken.start,
        pages: count_told(file.extension, pages),
    };
    put_chain(image, g, change, e, bytes, table, budget)
}

// Puts a file, or makes a directory: its chain in the lowest free pages, its entry, the bitmap. The table has the pages that must not be taken. 17.
pub fn put_file(
    image: &mut [u8],
    g: Geometry,
    file: NewFile,
    bytes: &[u8],
    table: &[u8],
    budget: Budget,
) -> Result<Budget, Refusal>
    requires fit { Fit g image.old }
    requires table_len { (length table.now ≡ 4 * g.pages) × PlainPutting g image.old (records_of table.now) bytes.now file × Open budget }
    ensures { PutsFile g image.old (records_of table.now) bytes.now file budget image.new result }
{
    let pages = writes::pages_for(bytes.len(), g.data_capacity());
    let Some(taken) = find_pages(table, file.extra, pages) else {
        return Err(Refusal(Fault::NoRoom, 0));
    };
    let changed = put_entry(image, g, file, taken, pages, bytes, table, budget);
    if changed.stopped {
        return Ok(changed);
    }
    Ok(marks::write_map(image, g, table, taken.below, changed))
}

// Takes an entry with the stamps before it out of its directory: its page is written without them, then the bitmap. The table has the pages that stay in use.
pub fn remove_entry(
    image: &mut [u8],
    g: Geometry,
    slot: Slot,
    stamps: usize,
    table: &[u8],
    budget: Budget,
) -> Budget
    requires fit { Fit g image.old }
    requires removal { Removal g image.old (records_of table.now) slot stamps × (slot.at < slot.count) × (stamps ≤ slot.at) × Open budget }
    ensures { RemovesEntry g image.old (records_of table.now) slot stamps budget image.new result }
{
    let change = Change {
        slot,
        first: slot.at - stamps,
        last: slot.at + 1,
        joins: 0,
    };
    let changed = writes::change_pages(image, g, change, b"", budget);
    if changed.stopped {
        return changed;
    }
    marks::write_map(image, g, table, 0, changed)
}
