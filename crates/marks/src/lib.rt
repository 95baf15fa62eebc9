// The bitmap written from the owner table: bit k is 1 for every page k below a bound, and for each that has an owner.
#![tactic(auto)]

ghost use Rattle.std.specs.Prelude.{◌≡◌, ◌+◌, ◌*◌, ◌≤◌, ◌<◌, length};
ghost use Rattle.owners.specs.Records.{records_of};
ghost use Rattle.geometry.specs.Geometry.{Fit};
ghost use Rattle.packet.specs.Packet.{view_of};
ghost use Rattle.packet.specs.Budgets.{Open};
ghost use Rattle.marks.specs.Marks.{byte_marks, marks_from};
ghost use Rattle.marks.specs.MapPages.{HasLocal, CopiesRoot, WritesLocal, HasMapFile, WritesFile, HasRoot, WritesMap, TellsLocal, TellsStart};

use chain::Cursor;
use geometry::{
    BITMAP_CONTROL_PAST, BITMAP_FIELD_BYTES, BITMAP_FIELD_END, BITMAP_FIELD_PAST, Geometry,
    LENGTH_BYTES, LOCAL_BITMAP, MOST_PAGE_BYTES,
};
use packet::{Budget, Whole};

// Where bitmap control stands in page 0, past the map address, and where the four bitmap bytes end.
const CONTROL_AT: usize = LENGTH_BYTES + BITMAP_CONTROL_PAST;

const PLACE_END: usize = LENGTH_BYTES + BITMAP_FIELD_END;

// The bits of the four pages from k on.
fn four_bits(table: &[u8], below: usize, k: usize) -> usize
    requires { k ≤ 1073741824 }
    ensures { (result ≡ byte_marks (records_of table.now) below k 4) × (result < 16) }
{
    let first = owners::bit(table, k, below);
    let second = owners::bit(table, k + 1, below);
    let third = owners::bit(table, k + 2, below);
    let fourth = owners::bit(table, k + 3, below);
    first + 2 * second + 4 * third + 8 * fourth
}

// The byte of the bitmap for the eight pages from k on.
fn byte_of(table: &[u8], below: usize, k: usize) -> u8
    requires { k + 4 ≤ 1073741824 }
    ensures { result ≡ byte_marks (records_of table.now) below k 8 }
{
    (four_bits(table, below, k) + 16 * four_bits(table, below, k + 4)) as u8
}

// Fills a slice with the bytes of the bitmap from page k on.
pub fn fill(bytes: &mut [u8], k: usize, table: &[u8], below: usize)
    requires { k + 8 * length bytes.old ≤ 1073741824 }
    ensures { bytes.new ≡ marks_from (records_of table.now) below k (length bytes.old) }
{
    for (i, byte) in bytes.iter_mut().enumerate() {
        *byte = byte_of(table, below, k + 8 * i);
    }
}

// Copies the data bytes of page 0's packet, which is known to be right, to the front of a buffer.
fn copy_root(image: &[u8], g: Geometry, buffer: &mut [u8]) -> Whole
    requires fit { Fit g image.now }
    requires buffer_len { (length buffer.old ≡ 256) × HasLocal g (view_of g image.now) }
    ensures { CopiesRoot g (view_of g image.now) result buffer.old buffer.new }
{
    let page = geometry::page_of(image, g, 0);
    let packet = packet::frame(page, g.width).unwrap();
    geometry::put_bytes(buffer, 0, packet::data_of(page, packet.length));
    packet
}

// Writes page 0 with the bitmap's four bytes from the table, in a buffer.
fn write_root(
    image: &mut [u8],
    g: Geometry,
    table: &[u8],
    below: usize,
    buffer: &mut [u8],
    budget: Budget,
) -> Budget
    requires fit { Fit g image.old }
    requires buffer_len { (length buffer.old ≡ 256) × HasLocal g (view_of g image.old) }
    ensures { WritesLocal g (records_of table.now) below image.old budget image.new result }
{
    let at = g.width + BITMAP_FIELD_PAST;
    let end = at + BITMAP_FIELD_BYTES;
    let packet = copy_root(image, g, buffer);
    fill(&mut buffer[at..end], 0, table, below);
    budget.write(image, g, 0, &buffer[..packet.length], packet.next)
}

// Writes the bitmap in the root's control field from the table; all else of page 0's packet stays.
fn write_local(image: &mut [u8], g: Geometry, table: &[u8], below: usize, budget: Budget) -> Budget
    requires fit { Fit g image.old }
    requires has_local { HasLocal g (view_of g image.old) }
    ensures { WritesLocal g (records_of table.now) below image.old budget image.new result }
{
    let mut buffer = [0u8; MOST_PAGE_BYTES];
    write_root(image, g, table, below, &mut buffer, budget)
}

// Writes the pages of the bitmap file in chain order, in a buffer.
fn write_pages(
    image: &mut [u8],
    g: Geometry,
    start: usize,
    table: &[u8],
    below: usize,
    buffer: &mut [u8],
    budget: Budget,
) -> Budget
    requires fit { Fit g image.old }
    requires buffer_len { (length buffer.old ≡ 256) × HasMapFile g (view_of g image.old) start × Open budget }
    ensures { WritesFile g (records_of table.now) below start image.old budget image.new result }
{
    let mut left = budget;
    let mut c = Cursor::new(start, start);
    loop {
        let page = c.page;
        let (size, next) = c.follow(image, g);
        fill(&mut buffer[..size], 8 * c.bytes, table, below);
        left = left.write(image, g, page, &buffer[..size], next.page);
        if left.stopped {
            return left;
        }
        if next.page == 0 {
            return left;
        }
        c = next;
    }
}

// Writes the bitmap file from the table: each page keeps its packet's length and its pointer.
fn write_file(
    image: &mut [u8],
    g: Geometry,
    start: usize,
    table: &[u8],
    below: usize,
    budget: Budget,
) -> Budget
    requires fit { Fit g image.old }
    requires has_map_file { HasMapFile g (view_of g image.old) start × Open budget }
    ensures { WritesFile g (records_of table.now) below start image.old budget image.new result }
{
    let mut buffer = [0u8; MOST_PAGE_BYTES];
    write_pages(image, g, start, table, below, &mut buffer, budget)
}

// Whether the bitmap is in the root's control field: bit 7 of its control byte.
pub fn is_local(image: &[u8], g: Geometry) -> bool
    requires { Fit g image.now }
    ensures { TellsLocal g (view_of g image.now) result }
{
    let at = g.width + CONTROL_AT;
    let page = geometry::page_of(image, g, 0);
    LOCAL_BITMAP <= page[at]
}

// The start page of the bitmap file that the root's control field places.
fn map_start(image: &[u8], g: Geometry) -> usize
    requires { Fit g image.now }
    ensures { TellsStart g (view_of g image.now) result }
{
    geometry::number_at(geometry::page_of(image, g, 0), PLACE_END - g.width, g.width)
}

// Writes the bitmap where the root places it.
pub fn write_map(
    image: &mut [u8],
    g: Geometry,
    table: &[u8],
    below: usize,
    budget: Budget,
) -> Budget
    requires fit { Fit g image.old }
    requires has_root { HasRoot g (view_of g image.old) × Open budget }
    ensures { WritesMap g (records_of table.now) below image.old budget image.new result }
{
    if is_local(image, g) {
        return write_local(image, g, table, below, budget);
    }
    let start = map_start(image, g);
    write_file(image, g, start, table, below, budget)
}
