// Format: an image without entries.
#![tactic(auto)]

ghost use Rattle.std.specs.Prelude.{◌≡◌, true, false, not, ◌||◌, ◌+◌, ◌*◌, ◌≤◌, ◌<◌, length};
ghost use Rattle.owners.specs.Records.{records_of};
ghost use Rattle.geometry.specs.Geometry.{Fit, data_capacity};
ghost use Rattle.packet.specs.Packet.{write_page, write, after_writes};
ghost use Rattle.rules.specs.Control.{place_bytes, local_allowed};
ghost use Rattle.rules.specs.Format.{format as formatted};
ghost use Rattle.rules.specs.Result.{ok};
ghost use Rattle.rules.specs.Calls.{format_call};
ghost use Rattle.rules.specs.Promises.{Formats};
ghost use Rattle.marks.specs.Marks.{marks_from};
ghost use Rattle.rules.specs.Answers.{answer_of};
ghost use Rattle.volume.specs.Edits.{EditLeaves};
ghost use Rattle.format.specs.Formats.{control_field, bits_writes, emptied};

use geometry::{
    BITMAP_CONTROL_BYTES, BITMAP_CONTROL_PAST, BITMAP_FIELD_BYTES, BITMAP_FIELD_END,
    BITMAP_FIELD_PAST, Geometry, LOCAL_BITMAP, MAP_ADDRESS_AT, MARKER, MARKER_BYTES,
    MOST_CONTROL_BYTES, MOST_DATA_BYTES, MOST_LOCAL_PAGES, RECORD_BYTES,
};
use refusals::{Fault, Refusal};

// Bitmap control: the four bytes are the bitmap; they place a bitmap file.
const LOCAL: usize = LOCAL_BITMAP as usize;

const FILE: usize = 0;

// Fills a slice with the root's control field: marker, map address 0, bitmap control, four bytes.
pub fn fill_control(field: &mut [u8], n: usize, control: usize, four: &[u8])
    requires { (length field.old ≡ 6 + n) × (n ≤ 2) × (control < 256) × (length four.now ≡ 4) }
    ensures { field.new ≡ control_field n control four.now }
{
    geometry::put_number(field, 0, MARKER_BYTES, MARKER + n);
    geometry::put_number(field, MAP_ADDRESS_AT, n, 0);
    geometry::put_number(
        field,
        BITMAP_CONTROL_PAST + n,
        BITMAP_CONTROL_BYTES,
        control,
    );
    geometry::put_bytes(field, BITMAP_FIELD_PAST + n, four);
}

// Fills four bytes with the place of a bitmap file from page 1 on.
pub fn fill_place(four: &mut [u8], n: usize, count: usize)
    requires { (length four.old ≡ 4) × (1 ≤ n) × (n ≤ 2) }
    ensures { four.new ≡ place_bytes n 1 count }
{
    geometry::put_number(four, 0, BITMAP_FIELD_BYTES - 2 * n, 0);
    geometry::put_number(four, BITMAP_FIELD_BYTES - 2 * n, n, 1);
    geometry::put_number(four, BITMAP_FIELD_BYTES - n, n, count);
}

// Writes the root's page without entries.
fn write_root(image: &mut [u8], g: Geometry, control: usize, four: &[u8])
    requires fit { Fit g image.old }
    requires control_bound { (control < 256) × (length four.now ≡ 4) }
    ensures { image.new ≡ write_page g (write 0 (control_field g.width control four.now) 0) image.old }
{
    let mut field = [0u8; MOST_CONTROL_BYTES];
    let end = BITMAP_FIELD_END + g.width;
    fill_control(&mut field[..end], g.width, control, four);
    packet::write_page(image, g, 0, &field[..end], 0);
}

// Writes an image without entries whose bitmap is in the root: page 0 alone is in use.
fn write_local(image: &mut [u8], g: Geometry)
    requires { Fit g image.old }
    ensures { image.new ≡ emptied g true image.old }
{
    write_root(image, g, LOCAL, b"\x01\0\0\0");
}

// Writes a page of the bitmap file: so many bytes of the bitmap from byte `done` on. All pages below a bound are in use.
fn write_bytes(
    image: &mut [u8],
    g: Geometry,
    page: usize,
    next: usize,
    done: usize,
    size: usize,
    table: &[u8],
    below: usize,
)
    requires fit { Fit g image.old }
    requires page_lt_pages { (page < g.pages) × (size ≤ data_capacity g) × (done + size ≤ 65536) }
    ensures { image.new ≡ write_page g (write page (marks_from (records_of table.now) below (8 * done) size) next) image.old }
{
    let mut bytes = [0u8; MOST_DATA_BYTES];
    marks::fill(&mut bytes[..size], 8 * done, table, below);
    packet::write_page(image, g, page, &bytes[..size], next);
}

// Writes the bitmap file from page 1 upward: full packets, then the last.
pub fn write_bits(image: &mut [u8], g: Geometry, table: &[u8], below: usize)
    requires { Fit g image.old }
    ensures { image.new ≡ after_writes g (bits_writes g (records_of table.now) below) image.old }
{
    let capacity = g.data_capacity();
    let size = g.bitmap_size();
    let last = writes::pages_for(size, capacity);
    let mut done = 0;
    for page in 1..last {
        write_bytes(image, g, page, page + 1, done, capacity, table, below);
        done += capacity;
    }
    write_bytes(image, g, last, 0, done, size - done, table, below);
}

// Writes an image without entries with a bitmap file: the pages up to its last are in use, no others.
fn write_file(image: &mut [u8], g: Geometry, table: &mut [u8])
    requires fit { Fit g image.old }
    requires table_len { length table.old ≡ 4 * g.pages }
    ensures { image.new ≡ emptied g false image.old }
{
    let count = writes::pages_for(g.bitmap_size(), g.data_capacity());
    let mut four = [0u8; BITMAP_FIELD_BYTES];
    fill_place(&mut four, g.width, count);
    write_root(image, g, FILE, &four);
    owners::clear(table);
    write_bits(image, g, table, count + 1);
}

// Writes an image without entries.
fn write_empty(image: &mut [u8], g: Geometry, table: &mut [u8], local: bool)
    requires fit { Fit g image.old }
    requires table_len { length table.old ≡ 4 * g.pages }
    ensures { image.new ≡ emptied g local image.old }
{
    if local {
        write_local(image, g);
    } else {
        write_file(image, g, table);
    }
}

// Whether the bitmap may stand where it is asked for.
fn is_allowed(g: Geometry, local: bool) -> bool
    ensures { result ≡ (not local || local_allowed g) }
{
    if local {
        return g.pages <= MOST_LOCAL_PAGES;
    }
    true
}

// Formats an image whose geometry is known: 4 for a local bitmap with N above 32.
fn format_in(image: &mut [u8], g: Geometry, table: &mut [u8], local: bool) -> Result<(), Refusal>
    requires fit { Fit g image.old }
    requires table_len { length table.old ≡ 4 * g.pages }
    ensures { EditLeaves g image.old (formatted g local image.old) result image.new (records_of table.new) }
{
    if is_allowed(g, local) {
        write_empty(image, g, table, local);
        let _ = volume::check_table(image, g, table);
        return Ok(());
    }
    let _ = volume::check_table(image, g, table);
    Err(Refusal(Fault::Control, 0))
}

// Formats an image: page 0 and, unless the bitmap is to be local, the bitmap file from page 1 upward.
// Fills the owner table as a check of the image as it then stands.
pub fn format(
    image: &mut [u8],
    size: u32,
    pages: u32,
    table: &mut [u8],
    local: bool,
) -> Result<(), Refusal>
    ensures table_after { (answer_of result, image.new, table.new) ≡ format_call size pages image.old table.old local }
    ensures formats { Formats size pages image.old table.old local (answer_of result ≡ ok tt) (λ x. answer_of result ≡ x) image.new }
{
    let g = Geometry::new(size, pages, image.len(), table.len())?;
    let end = RECORD_BYTES * g.pages;
    format_in(image, g, &mut table[..end], local)
}
