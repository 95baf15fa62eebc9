// The whole image: the check in two halves, over the owner table.
#![tactic(auto)]

ghost use Rattle.std.specs.Prelude.{◌≡◌, ◌+◌, ◌*◌, ◌≤◌, ◌<◌, length};
ghost use Rattle.geometry.specs.Geometry.{Fit};
ghost use Rattle.packet.specs.Packet.{view_of};
ghost use Rattle.owners.specs.Records.{records_of, Empty};
ghost use Rattle.owners.specs.OwnerLaws.{in_use};
ghost use Rattle.rules.specs.Result.{IsOk, ok};
ghost use Rattle.rules.specs.Chain.{views_of};
ghost use Rattle.rules.specs.Promises.{Accepts};
ghost use Rattle.rules.specs.Answers.{answer_of};
ghost use Rattle.volume.specs.Scans.{root_of, MapClaimed, RootWalked, Scanned, IsScanned, BitsCompared, ImageJudged, TableChecked};
ghost use Rattle.volume.specs.Surveyed.{BitsSurveyed, TableSurveyed};
ghost use Rattle.rules.specs.Calls.{check_call};

use directory::control::{Kind, Root, root_control};
use geometry::{
    BITMAP_FIELD_BYTES, BITMAP_FIELD_PAST, Geometry, LENGTH_BYTES, MAP_OWNER, MOST_LEVELS,
    RECORD_BYTES, ROOT, ROOT_OWNER,
};
use refusals::{Fault, Refusal};
use rules::Totals;

// Where the four bitmap bytes stand in page 0, past the map address.
const FIELD_AT: usize = LENGTH_BYTES + BITMAP_FIELD_PAST;

// Reads the root's control field from page 0: its packet (2), then the field.
fn root_of(image: &[u8], g: Geometry) -> Result<Root, Refusal>
    requires { Fit g image.now }
    ensures { answer_of result ≡ root_of g (view_of g image.now 0) }
{
    let page = geometry::page_of(image, g, 0);
    let Some(packet) = packet::judge(page, 0, g.width) else {
        return Err(Refusal(Fault::Packet, 0));
    };
    root_control(packet::data_of(page, packet.length), g)
}

// Claims the bitmap file: its start page (6), its chain, its page count (8), its bytes (8).
fn claim_map(
    image: &[u8],
    g: Geometry,
    start: usize,
    count: usize,
    table: &mut [u8],
) -> Result<Totals, Refusal>
    requires fit { Fit g image.now }
    requires empty { Empty g.pages table.old }
    ensures { MapClaimed g (views_of g image.now) start count result (records_of table.new) }
{
    if start == 0 {
        return Err(Refusal(Fault::PageNumber, 0));
    }
    let chain = chain::claim_chain(image, g, Kind::File, MAP_OWNER, 0, start, table)?;
    if count != chain.pages {
        return Err(Refusal(Fault::Count, 0));
    }
    if chain.bytes != g.bitmap_size() {
        return Err(Refusal(Fault::Count, 0));
    }
    Ok(Totals {
        used: chain.pages,
        files: 0,
        directories: 0,
    })
}

// Walks the root and all below it; the bitmap file has so many pages.
fn walk_root(image: &[u8], g: Geometry, used: usize, table: &mut [u8]) -> Result<Totals, Refusal>
    requires fit { Fit g image.now }
    requires table_len { (length table.old ≡ 4 * g.pages) × (used ≡ in_use (records_of table.old)) × (65532 < g.pages → 1 ≤ used) }
    ensures { RootWalked g (views_of g image.now) used (records_of table.old) result (records_of table.new) }
{
    let totals = Totals {
        used,
        files: 0,
        directories: 0,
    };
    walk::walk_directory(
        image,
        g,
        MOST_LEVELS,
        Kind::Root,
        ROOT,
        0,
        0,
        ROOT_OWNER,
        totals,
        table,
    )
}

// The first half of the check, over an empty table: all but the bits of the bitmap.
fn scan(image: &[u8], g: Geometry, root: Root, table: &mut [u8]) -> Result<Totals, Refusal>
    requires fit { Fit g image.now }
    requires empty { Empty g.pages table.old × (ok root ≡ root_of g (view_of g image.now 0)) }
    ensures { Scanned g (views_of g image.now) result (records_of table.new) }
{
    match root {
        Root::Local => walk_root(image, g, 0, table),
        Root::Remote(start, count) => {
            let map = claim_map(image, g, start, count, table)?;
            walk_root(image, g, map.used, table)
        }
    }
}

// The second half: the lowest wrong bit of the bitmap, if any, where the root's control field places it.
fn compare(image: &[u8], g: Geometry, root: Root, table: &[u8]) -> Option<usize>
    requires fit { Fit g image.now }
    requires root_value { (ok root ≡ root_of g (view_of g image.now 0)) × IsScanned g (views_of g image.now) }
    ensures { BitsCompared g (views_of g image.now) (records_of table.now) result }
{
    match root {
        Root::Local => {
            let at = FIELD_AT + g.width;
            let end = at + BITMAP_FIELD_BYTES;
            let page = geometry::page_of(image, g, 0);
            bitmap::compare_local(&page[at..end], table)
        }
        Root::Remote(start, _) => bitmap::compare_chain(image, g, start, table),
    }
}

// How many marks without an owner the bitmap has where the root's control field places it, or `None` if a mend must refuse one of its bits.
fn survey(image: &[u8], g: Geometry, root: Root, table: &[u8]) -> Option<usize>
    requires fit { Fit g image.now }
    requires root_value { (ok root ≡ root_of g (view_of g image.now 0)) × IsScanned g (views_of g image.now) }
    ensures { BitsSurveyed g (views_of g image.now) (records_of table.now) result }
{
    match root {
        Root::Local => {
            let at = FIELD_AT + g.width;
            let end = at + BITMAP_FIELD_BYTES;
            let page = geometry::page_of(image, g, 0);
            bitmap::survey_local(&page[at..end], table)
        }
        Root::Remote(start, _) => bitmap::survey_chain(image, g, start, table),
    }
}

// Scans an image whose geometry is known, and surveys its marks for a mend: how many have no owner, and the table has the owners of its pages; or `None` if a mend must refuse the image.
pub fn survey_table(image: &[u8], g: Geometry, table: &mut [u8]) -> Option<usize>
    requires fit { Fit g image.now }
    requires table_len { length table.old ≡ 4 * g.pages }
    ensures { TableSurveyed g (views_of g image.now) result (records_of table.new) }
{
    owners::clear(table);
    let Ok(root) = root_of(image, g) else {
        return None;
    };
    let Ok(_) = scan(image, g, root, table) else {
        return None;
    };
    survey(image, g, root, table)
}

// Both halves of the check, over an empty table; a refusal leaves what was claimed.
fn judge(image: &[u8], g: Geometry, table: &mut [u8]) -> Result<Totals, Refusal>
    requires fit { Fit g image.now }
    requires empty { Empty g.pages table.old }
    ensures { ImageJudged g (views_of g image.now) result (records_of table.new) }
{
    let root = root_of(image, g)?;
    let totals = scan(image, g, root, table)?;
    if let Some(bit) = compare(image, g, root, table) {
        return Err(Refusal(Fault::Bitmap, bit));
    }
    Ok(totals)
}

// Checks an image whose geometry is known and fills the table, or leaves it empty.
pub fn check_table(image: &[u8], g: Geometry, table: &mut [u8]) -> Result<Totals, Refusal>
    requires fit { Fit g image.now }
    requires table_len { length table.old ≡ 4 * g.pages }
    ensures { TableChecked g (views_of g image.now) result (records_of table.new) }
{
    owners::clear(table);
    let checked = judge(image, g, table);
    // the refusal in a branch of its own: the edit `every_refusal_told_as_0` turns its answer
    if let Err(refusal) = checked {
        owners::clear(table);
        return Err(refusal);
    }
    checked
}

// Checks an image in its geometry: pages in use, files and directories, or the first fault. Fills the owner table.
pub fn check(image: &[u8], size: u32, pages: u32, table: &mut [u8]) -> Result<Totals, Refusal>
    ensures table_after { (answer_of result, table.new) ≡ check_call size pages image.now table.old }
    ensures accepts { Accepts size pages image.now table.old (IsOk (answer_of result)) }
{
    // the refusal in an arm of its own: the edit `every_refusal_told_as_0` turns this answer too
    match Geometry::new(size, pages, image.len(), table.len()) {
        Err(refusal) => Err(refusal),
        Ok(g) => {
            let end = RECORD_BYTES * g.pages;
            check_table(image, g, &mut table[..end])
        }
    }
}
