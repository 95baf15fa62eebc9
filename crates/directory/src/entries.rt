// Directory entries.
ghost use Rattle.std.specs.Prelude.{◌≡◌, ◌+◌, ◌*◌, ◌≤◌, length};
ghost use Rattle.geometry.specs.Geometry.{Valid};
ghost use Rattle.rules.specs.Names.{entry_bytes};
ghost use Rattle.directory.specs.EntryPlaces.{HasEntry, IsEntry, IsItem};
ghost use Rattle.rules.specs.Answers.{answer_of};
ghost use Rattle.rules.specs.Check.{judge_label};
ghost use Rattle.directory.specs.Faults.{AreWhole};

use crate::extensions::EntryKind;
use crate::{extensions, names};
use geometry::{EXTENSION_AT, EXTENSION_BYTES, Geometry, NAME_BYTES, START_AT};
use refusals::{Fault, Refusal};
use rules::Entry;

// The greatest first byte of a plain entry; an extended entry has a greater one.
const MOST_FIRST_BYTE: u32 = 127;

// What stands in a slot of a directory's page: a plain entry, or an extended one, a stamp of the plain entry after it.
#[derive(Clone, Copy)]
pub enum Item {
    Plain(Entry),
    // no Option: a stamp stands here, and not nothing
    Extended,
}

// A place in a directory's page.
#[derive(Clone, Copy)]
pub struct EntryReader<'a> {
    pub page: &'a [u8],
    pub at: usize,
}

// A reader of a page's entries at a place.
pub fn reader_at<'a>(page: &'a [u8], at: usize) -> EntryReader<'a>
    ensures { (result.page ≡ page.entry) × (result.at ≡ at) }
{
    EntryReader { page, at }
}

// What stands at the reader's place.
pub fn read<'a>(r: EntryReader<'a>, n: usize) -> Item
    requires { HasEntry n r.page.now r.at }
    ensures { IsItem n r.entry.page.now r.entry.at result }
{
    item_at(r.page, r.at, n)
}

// The reader past the entry at its place.
pub fn past<'a>(r: EntryReader<'a>, n: usize) -> EntryReader<'a>
    requires { (n ≤ 2) × (r.at ≤ 256) }
    ensures { (result.page ≡ r.entry.page) × (result.at ≡ r.entry.at + (5 + 2 * n)) }
{
    EntryReader {
        page: r.page,
        at: entry_end(r.at, n),
    }
}

// What stands in the slot at a place of a directory's page.
pub fn read_slot(page: &[u8], at: usize, n: usize) -> Item
    requires { HasEntry n page.now at }
    ensures { IsItem n page.now at result }
{
    read(reader_at(page, at), n)
}

// The place after the entry at a place of a directory's page.
pub fn after_entry(page: &[u8], at: usize, n: usize) -> usize
    requires { (n ≤ 2) × (at ≤ 256) }
    ensures { result ≡ at + (5 + 2 * n) }
{
    past(reader_at(page, at), n).at
}

// What stands in the slot at a place of bytes: its first byte tells the kind.
fn item_at(bytes: &[u8], at: usize, n: usize) -> Item
    requires { HasEntry n bytes.now at }
    ensures { IsItem n bytes.now at result }
{
    let e = entry_at(bytes, at, n);
    if MOST_FIRST_BYTE < e.name % 256 {
        return Item::Extended;
    }
    Item::Plain(e)
}

// The entry that stands at a place of bytes, of either kind.
fn entry_at(bytes: &[u8], at: usize, n: usize) -> Entry
    requires { HasEntry n bytes.now at }
    ensures { IsEntry n bytes.now at result }
{
    let extension = at + EXTENSION_AT;
    let start = at + START_AT;
    let pages = start + n;
    Entry {
        name: geometry::number_at(bytes, at, NAME_BYTES) as u32,
        extension: bytes[extension],
        start: geometry::number_at(bytes, start, n),
        pages: geometry::number_at(bytes, pages, n),
    }
}

// The place after an entry that stands at a place.
fn entry_end(at: usize, n: usize) -> usize
    requires { (n ≤ 2) × (at ≤ 256) }
    ensures { result ≡ at + (5 + 2 * n) }
{
    at + START_AT + 2 * n
}

// Fills a slice with an entry's bytes: name, extension, start page, number of pages.
pub fn put_entry(bytes: &mut [u8], e: Entry, n: usize)
    requires { (length bytes.old ≡ 5 + 2 * n) × (n ≤ 2) }
    ensures { bytes.new ≡ entry_bytes n e }
{
    geometry::put_number(bytes, 0, NAME_BYTES, e.name as usize);
    geometry::put_number(
        bytes,
        EXTENSION_AT,
        EXTENSION_BYTES,
        usize::from(e.extension),
    );
    geometry::put_number(bytes, START_AT, n, e.start);
    geometry::put_number(bytes, START_AT + n, n, e.pages);
}

// Judges a plain entry's name, then its extension number; a refusal tells its page.
pub fn judge_label(e: Entry, page: usize) -> Result<(), Refusal>
    ensures { answer_of result ≡ judge_label page e }
{
    let named = names::valid_name(e.name);
    if !named {
        return Err(Refusal(Fault::Name, page));
    }
    let kind = extensions::extension_of(e.extension).kind;
    match kind {
        EntryKind::File => Ok(()),
        EntryKind::Directory => Ok(()),
        EntryKind::Unknown => Err(Refusal(Fault::Extension, page)),
    }
}

// Judges the entries of a directory's page, which have so many bytes: they must be whole.
pub fn judge_whole(size: usize, page: usize, g: Geometry) -> Result<(), Refusal>
    requires { Valid g }
    ensures { AreWhole g page size result }
{
    if size % g.entry_size() != 0 {
        return Err(Refusal(Fault::Count, page));
    }
    Ok(())
}
