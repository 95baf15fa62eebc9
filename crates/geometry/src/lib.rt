// The sizes of an image, numbers of n bytes, and an image's pages.
#![tactic(auto)]

ghost use Rattle.std.specs.Prelude.{◌≡◌, ◌+◌, ◌*◌, ◌/◌, ◌^◌, ◌≤◌, ◌<◌, length, take, drop};
ghost use Rattle.geometry.specs.Geometry.{geometry_of, fitting, data_capacity, entry_size, control_size, first_entries, later_entries, bitmap_size, Valid, Fit};
ghost use Rattle.geometry.specs.Number.{number, number_bytes};
ghost use Rattle.geometry.specs.Page.{overwritten, page_of};

use refusals::{Fault, Refusal};

// Page length P, page count N, bytes of a page number n.
#[derive(Clone, Copy)]
pub struct Geometry {
    pub size: usize,
    pub pages: usize,
    pub width: usize,
}

// The least and greatest page length and page count.
pub const LEAST_SIZE: u32 = 32;

pub const MOST_SIZE: u32 = 256;

pub const LEAST_PAGES: u32 = 2;

pub const MOST_PAGES: u32 = 65535;

// The same as lengths in memory: a buffer for any page, an owner table for any image.
pub const MOST_PAGE_BYTES: usize = MOST_SIZE as usize;

pub const MOST_TABLE_BYTES: usize = RECORD_BYTES * MOST_PAGES as usize;

// The greatest page count whose page numbers take one byte.
pub const MOST_NARROW: usize = 256;

// Bytes of the fields of a packet: length byte and check; with both, what a packet has besides its data and its pointer.
pub const LENGTH_BYTES: usize = 1;

pub const CHECK_BYTES: usize = 2;

pub const FRAME_BYTES: usize = LENGTH_BYTES + CHECK_BYTES;

// Bytes of the fields of a directory entry but its page numbers, and where those after the name stand.
pub const NAME_BYTES: usize = 4;

pub const EXTENSION_BYTES: usize = 1;

pub const EXTENSION_AT: usize = NAME_BYTES;

pub const START_AT: usize = EXTENSION_AT + EXTENSION_BYTES;

// Bytes of an entry whose page numbers take one byte, and two.
pub const NARROW_ENTRY_BYTES: usize = START_AT + 2;

pub const WIDE_ENTRY_BYTES: usize = START_AT + 4;

// Bytes of the fields of a control field but its page numbers.
pub const MARKER_BYTES: usize = 1;

pub const BITMAP_CONTROL_BYTES: usize = 1;

pub const BITMAP_FIELD_BYTES: usize = 4;

// Where the root's map address stands; and, past its n bytes, bitmap control, the four bitmap bytes and their end.
pub const MAP_ADDRESS_AT: usize = MARKER_BYTES;

pub const BITMAP_CONTROL_PAST: usize = MAP_ADDRESS_AT;

pub const BITMAP_FIELD_PAST: usize = BITMAP_CONTROL_PAST + BITMAP_CONTROL_BYTES;

pub const BITMAP_FIELD_END: usize = BITMAP_FIELD_PAST + BITMAP_FIELD_BYTES;

// Bytes of a control field whose page numbers take two bytes, and of the data of the longest packet.
pub const MOST_CONTROL_BYTES: usize = BITMAP_FIELD_END + 2;

pub const MOST_DATA_BYTES: usize = MOST_PAGE_BYTES - FRAME_BYTES - 1;

// Where a subdirectory's control field has the name of the directory above, the zero byte and that directory's start page.
pub const ABOVE_NAME_AT: usize = MARKER_BYTES;

pub const ABOVE_ZERO_AT: usize = ABOVE_NAME_AT + NAME_BYTES;

pub const ABOVE_ZERO_BYTES: usize = 1;

pub const ABOVE_START_AT: usize = ABOVE_ZERO_AT + ABOVE_ZERO_BYTES;

// The marker for page numbers of one byte is one more than this, for two bytes two more.
pub const MARKER: usize = 0xA9;

// Bitmap control: bit 7 says that the four bytes are the bitmap; clear, they place a bitmap file. Bit 0 is work in progress.
pub const LOCAL_BITMAP: u8 = 128;

// The most pages whose bitmap may stand in the root's control field; more need a bitmap file.
pub const MOST_LOCAL_PAGES: usize = 32;

// Levels of subdirectories below the root.
pub const MOST_LEVELS: usize = 8;

// An extension byte: the top bit is the attribute, and the numbers stand below it; the greatest number of a file, and the number of a subdirectory.
pub const ATTRIBUTE: u8 = 128;

pub const MOST_FILE: u8 = 99;

pub const DIRECTORY: u8 = 127;

// The name by which the root is known to those below it: `ROOT`, the first byte lowest.
pub const ROOT: u32 = 0x544F4F52;

// The bytes of a page's record in the owner table.
pub const RECORD_BYTES: usize = 4;

// The owner's numbers in the owner table: of the root, of the bitmap file, and of the entry at walk position 0; a free page has 0.
pub const ROOT_OWNER: usize = 1;

pub const MAP_OWNER: usize = 2;

pub const FIRST_OWNER: usize = 3;

impl Geometry {
    // The geometry of an image and its owner table; 1 if page length, page count or one of the two lengths is wrong.
    pub fn new(size: u32, pages: u32, image: usize, owners: usize) -> Result<Geometry, Refusal>
        ensures { result ≡ fitting (geometry_of size pages image owners) }
    {
        Geometry::judged(size, pages, image, owners).ok_or(Refusal(Fault::Sizes, 0))
    }

    // Judges page length and page count, then the two lengths.
    fn judged(size: u32, pages: u32, image: usize, owners: usize) -> Option<Geometry>
        ensures { result ≡ geometry_of size pages image owners }
    {
        if size < LEAST_SIZE {
            return None;
        }
        if MOST_SIZE < size {
            return None;
        }
        if pages < LEAST_PAGES {
            return None;
        }
        if MOST_PAGES < pages {
            return None;
        }
        Geometry::sized(size as usize, pages as usize, image, owners)
    }

    // Judges the two lengths for a page length and a page count within their bounds.
    fn sized(size: usize, pages: usize, image: usize, owners: usize) -> Option<Geometry>
        requires { (32 ≤ size) × (size ≤ 256) × (2 ≤ pages) × (pages ≤ 65535) }
        ensures { result ≡ geometry_of size pages image owners }
    {
        if image != size * pages {
            return None;
        }
        if owners < RECORD_BYTES * pages {
            return None;
        }
        let width = if pages <= MOST_NARROW { 1 } else { 2 };
        Some(Geometry { size, pages, width })
    }

    // The greatest number of data bytes in a packet.
    pub fn data_capacity(self) -> usize
        requires { Valid self }
        ensures { result ≡ data_capacity self }
    {
        self.size - FRAME_BYTES - self.width
    }

    // Bytes of a directory entry: name, extension, start page, number of pages.
    pub fn entry_size(self) -> usize
        requires { Valid self }
        ensures { (result ≡ entry_size self) × (7 ≤ result) × (result ≤ 9) }
    {
        START_AT + 2 * self.width
    }

    // Bytes of the control field of a directory's first page.
    pub fn control_size(self) -> usize
        requires { Valid self }
        ensures { (result ≡ control_size self) × (7 ≤ result) × (result ≤ 8) }
    {
        BITMAP_FIELD_END + self.width
    }

    // Entries that so many bytes hold; the divisor is a constant either way.
    pub fn entries_in(self, bytes: usize) -> usize
        requires { Valid self }
        ensures { result ≡ bytes / entry_size self }
    {
        if self.width == 1 {
            return bytes / NARROW_ENTRY_BYTES;
        }
        bytes / WIDE_ENTRY_BYTES
    }

    // Entries that fit in a directory's first page.
    pub fn first_entries(self) -> usize
        requires { Valid self }
        ensures { result ≡ first_entries self }
    {
        (self.data_capacity() - self.control_size()) / self.entry_size()
    }

    // Entries that fit in a directory's continuation page.
    pub fn later_entries(self) -> usize
        requires { Valid self }
        ensures { result ≡ later_entries self }
    {
        self.data_capacity() / self.entry_size()
    }

    // Bytes of a bitmap file: eight pages in each.
    pub fn bitmap_size(self) -> usize
        requires { Valid self }
        ensures { result ≡ bitmap_size self }
    {
        (self.pages + 7) / 8
    }
}

// The number in a slice of at most four bytes, low byte first.
fn read_number(bytes: &[u8]) -> usize
    requires { length bytes.now ≤ 4 }
    ensures { (result ≡ number bytes.now) × (result < 256 ^ length bytes.now) }
{
    let mut value: usize = 0;
    for byte in bytes.iter().rev() {
        value = usize::from(*byte) + 256 * value;
    }
    value
}

// The number of two bytes from a place of a slice on.
fn pair_at(bytes: &[u8], at: usize) -> usize
    requires { at + 2 ≤ length bytes.now }
    ensures { (result ≡ number (take 2 (drop at bytes.now))) × (result < 65536) }
{
    usize::from(bytes[at]) + 256 * usize::from(bytes[at + 1])
}

// The number of n bytes from a place of a slice on; one, two and four bytes, as page numbers and names have, without a loop.
pub fn number_at(bytes: &[u8], at: usize, n: usize) -> usize
    requires { (n ≤ 4) × (at + n ≤ length bytes.now) }
    ensures { (result ≡ number (take n (drop at bytes.now))) × (result < 256 ^ n) }
{
    if n == 1 {
        return usize::from(bytes[at]);
    }
    if n == 2 {
        return pair_at(bytes, at);
    }
    if n == 4 {
        return pair_at(bytes, at) + 65536 * pair_at(bytes, at + 2);
    }
    let end = at + n;
    read_number(&bytes[at..end])
}

// Fills a slice with a number, low byte first.
fn write_number(bytes: &mut [u8], x: usize)
    ensures { bytes.new ≡ number_bytes (length bytes.old) x }
{
    let mut rest = x;
    for byte in bytes.iter_mut() {
        *byte = (rest % 256) as u8;
        rest = rest / 256;
    }
}

// Copies bytes into a slice from a place on.
pub fn put_bytes(target: &mut [u8], at: usize, bytes: &[u8])
    requires { at + length bytes.now ≤ length target.old }
    ensures { target.new ≡ overwritten at bytes.now target.old }
{
    let end = at + bytes.len();
    target[at..end].copy_from_slice(bytes);
}

// Writes a number of n bytes into a slice from a place on.
pub fn put_number(target: &mut [u8], at: usize, n: usize, x: usize)
    requires { at + n ≤ length target.old }
    ensures { target.new ≡ overwritten at (number_bytes n x) target.old }
{
    let end = at + n;
    write_number(&mut target[at..end], x);
}

// A page of an image.
pub fn page_of<'a>(image: &'a [u8], g: Geometry, page: usize) -> &'a [u8]
    requires fit { Fit g image.now }
    requires page_lt_pages { page < g.pages }
    ensures { result.now ≡ page_of g page image.now }
{
    let at = page * g.size;
    let end = at + g.size;
    &image[at..end]
}
