// Gather: a copy of an image in a second one, with full packets, filled directory pages and consecutive chains.
#![tactic(auto)]

ghost use Rattle.std.specs.Prelude.{◌≡◌, true, false, ◌+◌, ◌*◌, ◌<◌, length, replicate};
ghost use Rattle.owners.specs.Records.{records_of};
ghost use Rattle.geometry.specs.Geometry.{Fit};
ghost use Rattle.geometry.specs.Number.{Bytes};
ghost use Rattle.rules.specs.Chain.{views_of};
ghost use Rattle.rules.specs.Result.{ok};
ghost use Rattle.listing.specs.KnownTree.{HasImage};
ghost use Rattle.rules.specs.Answers.{answer_of};
ghost use Rattle.gathering.specs.Gather.{gather_call};
ghost use Rattle.gathering.specs.GatherPromises.{Gathers};
ghost use Rattle.gather.specs.Copies.{HasRoom, LaysRoot, HasKind, CopiesAll, GatherLeaves};

use geometry::{
    BITMAP_FIELD_BYTES, Geometry, LOCAL_BITMAP, MOST_CONTROL_BYTES, MOST_LEVELS, RECORD_BYTES, ROOT,
};
use refusals::{Fault, Refusal};

// What stands in a byte that no packet uses.
const UNUSED: u8 = 0xFF;

// Bitmap control: the four bytes are the bitmap; they place a bitmap file.
const LOCAL: usize = LOCAL_BITMAP as usize;

const FILE: usize = 0;

// Fills an image with unused bytes.
fn blank(second: &mut [u8])
    ensures { second.new ≡ replicate (length second.old) 255 }
{
    second.fill(UNUSED);
}

// Lays the root with all below it into a blank image: its control field has these bytes, its further pages come from `from` on. The page after the last.
fn lay_root(
    image: &[u8],
    g: Geometry,
    control: usize,
    four: &[u8],
    from: usize,
    second: &mut [u8],
) -> usize
    requires fit { Fit g image.now × Bytes image.now }
    requires fit_2 { Fit g second.old }
    requires control_bound { (control < 256) × (length four.now ≡ 4) × HasRoom g image.now from }
    ensures { LaysRoot g image.now control four.now from second.new result }
{
    blank(second);
    let size = g.control_size();
    let mut head = [0u8; MOST_CONTROL_BYTES];
    format::fill_control(&mut head[..size], g.width, control, four);
    let further = layout::further_pages(image, g, MOST_LEVELS, 0);
    layout::lay_directory(
        image,
        g,
        MOST_LEVELS,
        ROOT,
        0,
        &head[..size],
        0,
        from,
        from + further,
        second,
    )
}

// Lays the copy of an image whose bitmap is in the root: once for the number of pages, then with the bitmap of that many.
fn copy_local(image: &[u8], g: Geometry, second: &mut [u8], table: &mut [u8])
    requires fit { Fit g image.now × Bytes image.now }
    requires fit_2 { Fit g second.old }
    requires table_len { (length table.old ≡ 4 * g.pages) × HasKind g image.now true }
    ensures { CopiesAll g image.now second.new }
{
    let mut four = [0u8; BITMAP_FIELD_BYTES];
    let size = lay_root(image, g, LOCAL, &four, 1, second);
    owners::clear(table);
    marks::fill(&mut four, 0, table, size);
    lay_root(image, g, LOCAL, &four, 1, second);
}

// Lays the copy of an image with a bitmap file: the file's pages come first, and are written when the number of pages is known.
fn copy_with_file(image: &[u8], g: Geometry, second: &mut [u8], table: &mut [u8])
    requires fit { Fit g image.now × Bytes image.now }
    requires fit_2 { Fit g second.old }
    requires table_len { (length table.old ≡ 4 * g.pages) × HasKind g image.now false }
    ensures { CopiesAll g image.now second.new }
{
    let count = writes::pages_for(g.bitmap_size(), g.data_capacity());
    let mut four = [0u8; BITMAP_FIELD_BYTES];
    format::fill_place(&mut four, g.width, count);
    let size = lay_root(image, g, FILE, &four, count + 1, second);
    owners::clear(table);
    format::write_bits(second, g, table, size);
}

// Gathers an accepted image into the second one.
fn copy(image: &[u8], g: Geometry, second: &mut [u8], table: &mut [u8])
    requires fit { Fit g image.now × Bytes image.now }
    requires fit_2 { Fit g second.old }
    requires table_len { (length table.old ≡ 4 * g.pages) × HasImage g (views_of g image.now) }
    ensures { CopiesAll g image.now second.new }
{
    if marks::is_local(image, g) {
        copy_local(image, g, second, table);
    } else {
        copy_with_file(image, g, second, table);
    }
}

// Gathers an image whose geometry is known: the check, the copy, then the table of the copy.
fn gather_in(image: &[u8], g: Geometry, second: &mut [u8], table: &mut [u8]) -> Result<(), Refusal>
    requires fit { Fit g image.now }
    requires fit_2 { Fit g second.old }
    requires table_len { length table.old ≡ 4 * g.pages }
    ensures { GatherLeaves g image.now second.old result second.new (records_of table.new) }
{
    volume::check_table(image, g, table)?;
    copy(image, g, second, table);
    let _ = volume::check_table(second, g, table);
    Ok(())
}

// Gathers an image into a second one of the same length. Fills the owner table as a check of the copy; of the image if the check refuses that.
pub fn gather(
    image: &[u8],
    size: u32,
    pages: u32,
    second: &mut [u8],
    table: &mut [u8],
) -> Result<(), Refusal>
    ensures table_after { (answer_of result, second.new, table.new) ≡ gather_call size pages image.now second.old table.old }
    ensures gathers { Gathers size pages image.now second.old table.old (answer_of result ≡ ok tt) second.new }
{
    if second.len() != image.len() {
        return Err(Refusal(Fault::Sizes, 0));
    }
    let g = Geometry::new(size, pages, image.len(), table.len())?;
    let end = RECORD_BYTES * g.pages;
    gather_in(image, g, second, &mut table[..end])
}
