// The walk over a directory and all below it: every chain is claimed in the owner table, every entry judged, in the order of the check.
#![tactic(auto)]

ghost use Rattle.std.specs.Prelude.{◌≡◌, false, ◌+◌, ◌-◌, ◌*◌, ◌<◌, length};
ghost use Rattle.owners.specs.Records.{records_of};
ghost use Rattle.geometry.specs.Geometry.{Fit};
ghost use Rattle.packet.specs.Packet.{view_of};
ghost use Rattle.rules.specs.Chain.{views_of};
ghost use Rattle.rules.specs.Names.{extended};
ghost use Rattle.rules.specs.Answers.{answer_of};
ghost use Rattle.directory.specs.Faults.{test_of};
ghost use Rattle.entries.specs.EntrySlots.{HasEntries};
ghost use Rattle.walk.specs.Walks.{Good, Ready, Remaining, judge_below, EntryJudged, FileWalked, EntryWalked, DirectoryWalked};

use directory::control::Kind;
use directory::entries::{Item, judge_label};
use directory::extensions::is_directory;
use entries::Slot;
use geometry::{FIRST_OWNER, Geometry};
use refusals::{Fault, Refusal};
use rules::{Entry, Totals};

// The directory that an entry stands in: its name, its start page and how many entries of both kinds it has.
#[derive(Clone, Copy)]
pub struct Directory {
    pub name: u32,
    pub start: usize,
    pub count: usize,
}

// Judges a plain entry's name and extension (9, 10); then none of the m entries before it may have them (11).
fn judge_entry(
    image: &[u8],
    g: Geometry,
    start: usize,
    m: usize,
    page: usize,
    e: Entry,
) -> Result<(), Refusal>
    requires fit { Fit g image.now }
    requires has_entries { HasEntries g (view_of g image.now) start m × (extended e ≡ false) }
    ensures { EntryJudged g (view_of g image.now) start m page e result }
{
    judge_label(e, page)?;
    if entries::is_repeated(image, g, start, m, entries::key_of(e.name, e.extension)) {
        return Err(Refusal(Fault::Twice, page));
    }
    Ok(())
}

// Judges a subdirectory's entry: too deep (12), its count (8), its start page (6).
fn judge_below(levels: usize, page: usize, e: Entry) -> Result<(), Refusal>
    ensures { answer_of result ≡ judge_below levels page e }
{
    if levels == 0 {
        return Err(Refusal(Fault::Depth, page));
    }
    if e.pages != 0 {
        return Err(Refusal(Fault::Count, page));
    }
    if e.start == 0 {
        return Err(Refusal(Fault::PageNumber, page));
    }
    Ok(())
}

// A file: its start page (6), its chain, its count (8).
fn walk_file(
    image: &[u8],
    g: Geometry,
    page: usize,
    e: Entry,
    totals: Totals,
    table: &mut [u8],
) -> Result<Totals, Refusal>
    requires fit { Fit g image.now }
    requires table_len { (length table.old ≡ 4 * g.pages) × Good g totals (records_of table.old) }
    ensures { FileWalked g (views_of g image.now) page e totals (records_of table.old) result (records_of table.new) }
{
    if e.start == 0 {
        return Err(Refusal(Fault::PageNumber, page));
    }
    let owner = FIRST_OWNER + (totals.files + totals.directories);
    let chain = chain::claim_chain(image, g, Kind::File, owner, page, e.start, table)?;
    if e.pages != chain.pages {
        return Err(Refusal(Fault::Count, page));
    }
    Ok(Totals {
        used: totals.used + chain.pages,
        files: totals.files + 1,
        ..totals
    })
}

// One plain entry, with `left` entries to go in its directory, itself among them: a file, or a subdirectory with all below it.
#[cycle(walk_directory_walk_entry)]
fn walk_entry(
    image: &[u8],
    g: Geometry,
    levels: usize,
    parent: Directory,
    page: usize,
    left: usize,
    e: Entry,
    totals: Totals,
    table: &mut [u8],
) -> Result<Totals, Refusal>
    requires fit { Fit g image.now }
    requires table_len { (length table.old ≡ 4 * g.pages) × HasEntries g (view_of g image.now) parent.start (parent.count - left) × Good g totals (records_of table.old) × Remaining parent left × (extended e ≡ false) }
    ensures { EntryWalked g (views_of g image.now) levels parent.name parent.start page (parent.count - left) e totals (records_of table.old) result (records_of table.new) }
{
    judge_entry(image, g, parent.start, parent.count - left, page, e)?;
    if !is_directory(e.extension) {
        return walk_file(image, g, page, e, totals, table);
    }
    judge_below(levels, page, e)?;
    let owner = FIRST_OWNER + (totals.files + totals.directories);
    let inside = Totals {
        directories: totals.directories + 1,
        ..totals
    };
    walk_directory(
        image,
        g,
        levels - 1,
        Kind::Sub(parent.name, parent.start),
        e.name,
        page,
        e.start,
        owner,
        inside,
        table,
    )
}

// A directory: its whole chain, then its entries in chain order.
#[cycle(walk_directory_walk_entry)]
pub fn walk_directory(
    image: &[u8],
    g: Geometry,
    levels: usize,
    kind: Kind,
    name: u32,
    from: usize,
    start: usize,
    owner: usize,
    totals: Totals,
    table: &mut [u8],
) -> Result<Totals, Refusal>
    requires fit { Fit g image.now }
    requires table_len { (length table.old ≡ 4 * g.pages) × Ready g totals owner (records_of table.old) }
    ensures { DirectoryWalked g (views_of g image.now) levels (test_of g kind) name start from owner totals (records_of table.old) result (records_of table.new) }
{
    let chain = chain::claim_chain(image, g, kind, owner, from, start, table)?;
    let mut so_far = Totals {
        used: totals.used + chain.pages,
        ..totals
    };
    let count = entries::count_of(image, g, start);
    let parent = Directory { name, start, count };
    let mut slot = Slot::first(image, g, start);
    let mut left = count;
    while let Some(at) = slot.next_entry(image, g) {
        let page = at.page;
        let to_go = left;
        slot = at.past();
        left -= 1;
        let Item::Plain(e) = at.item(image, g) else {
            // a stamp belongs to an entry after it in its page
            if slot.at == slot.count {
                return Err(Refusal(Fault::Extension, page));
            }
            continue;
        };
        so_far = walk_entry(image, g, levels, parent, page, to_go, e, so_far, table)?;
    }
    Ok(so_far)
}
