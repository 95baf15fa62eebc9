// Control fields of the root and of a subdirectory.
ghost use Rattle.std.specs.Prelude.{◌≡◌, ◌+◌, ◌≤◌, length};
ghost use Rattle.geometry.specs.Geometry.{Valid};
ghost use Rattle.rules.specs.Answers.{answer_of};
ghost use Rattle.rules.specs.Control.{field_at, head_of, sub_control, sub_page};
ghost use Rattle.directory.specs.Faults.{control, place, test_of};

use crate::entries;
use geometry::{
    ABOVE_NAME_AT, ABOVE_START_AT, ABOVE_ZERO_AT, ABOVE_ZERO_BYTES, BITMAP_CONTROL_PAST,
    BITMAP_FIELD_BYTES, BITMAP_FIELD_END, BITMAP_FIELD_PAST, Geometry, LOCAL_BITMAP,
    MAP_ADDRESS_AT, MARKER, MARKER_BYTES, MOST_LOCAL_PAGES, NAME_BYTES,
};
use refusals::{Fault, Refusal};

// Where the root's control field says that the bitmap is.
#[derive(Clone, Copy)]
pub enum Root {
    // the four bytes are the bitmap
    Local,
    // start page and page count of the bitmap file
    Remote(usize, usize),
}

// What kind of chain a page belongs to.
#[derive(Clone, Copy)]
pub enum Kind {
    // a file or the bitmap file
    File,
    Root,
    // a subdirectory: name and start page of the directory above
    Sub(u32, usize),
}

// Reads the root's control field from the data bytes of page 0.
pub fn root_control(bytes: &[u8], g: Geometry) -> Result<Root, Refusal>
    requires { Valid g }
    ensures { answer_of result ≡ control g.width (head_of g bytes.now) }
{
    if bytes.len() < g.control_size() {
        return Err(Refusal(Fault::Control, 0));
    }
    let n = g.width;
    if usize::from(bytes[0]) != MARKER + n {
        return Err(Refusal(Fault::Marker, 0));
    }
    let at = n + BITMAP_CONTROL_PAST;
    let flags = bytes[at];
    // bit 0: work in progress
    if flags % 2 != 0 {
        return Err(Refusal(Fault::InProgress, 0));
    }
    if geometry::number_at(bytes, MAP_ADDRESS_AT, n) != 0 {
        return Err(Refusal(Fault::Control, 0));
    }
    if flags % LOCAL_BITMAP != 0 {
        return Err(Refusal(Fault::Control, 0));
    }
    if flags < LOCAL_BITMAP {
        return remote_map(bytes, n);
    }
    if g.pages <= MOST_LOCAL_PAGES {
        Ok(Root::Local)
    } else {
        Err(Refusal(Fault::Control, 0))
    }
}

// Reads the place of the bitmap file.
fn remote_map(bytes: &[u8], n: usize) -> Result<Root, Refusal>
    requires { (1 ≤ n) × (n ≤ 2) × (n + 6 ≤ length bytes.now) }
    ensures { result ≡ place n (field_at n bytes.now) }
{
    if geometry::number_at(bytes, n + BITMAP_FIELD_PAST, BITMAP_FIELD_BYTES - 2 * n) != 0 {
        return Err(Refusal(Fault::Control, 0));
    }
    Ok(Root::Remote(
        geometry::number_at(bytes, BITMAP_FIELD_END - n, n),
        geometry::number_at(bytes, BITMAP_FIELD_END, n),
    ))
}

// Judges a page of a chain, the i-th of it, whose data bytes these are.
pub fn judge_page(
    kind: Kind,
    i: usize,
    page: usize,
    bytes: &[u8],
    g: Geometry,
) -> Result<(), Refusal>
    requires { Valid g }
    ensures { answer_of result ≡ test_of g kind i page bytes.now }
{
    match kind {
        Kind::File => Ok(()),
        Kind::Root => {
            if i == 0 {
                let skip = g.control_size();
                if bytes.len() < skip {
                    // a root without a whole control field was refused with 4 before its chain is walked
                    return entries::judge_whole(0, page, g);
                }
                return entries::judge_whole(bytes.len() - skip, page, g);
            }
            entries::judge_whole(bytes.len(), page, g)
        }
        Kind::Sub(name, start) => {
            if i == 0 {
                return judge_sub(bytes, page, g, name, start);
            }
            entries::judge_whole(bytes.len(), page, g)
        }
    }
}

// Judges a subdirectory's first page.
fn judge_sub(bytes: &[u8], page: usize, g: Geometry, name: u32, start: usize) -> Result<(), Refusal>
    requires { Valid g }
    ensures { answer_of result ≡ sub_page g (record { name = name; start = start }) 0 page bytes.now }
{
    let n = g.width;
    let skip = g.control_size();
    if bytes.len() < skip {
        return Err(Refusal(Fault::Control, page));
    }
    if usize::from(bytes[0]) != MARKER + n {
        return Err(Refusal(Fault::Marker, page));
    }
    if geometry::number_at(bytes, ABOVE_NAME_AT, NAME_BYTES) != (name as usize) {
        return Err(Refusal(Fault::Control, page));
    }
    if bytes[ABOVE_ZERO_AT] != 0 {
        return Err(Refusal(Fault::Control, page));
    }
    if geometry::number_at(bytes, ABOVE_START_AT, n) != start {
        return Err(Refusal(Fault::Control, page));
    }
    entries::judge_whole(bytes.len() - skip, page, g)
}

// Fills a slice with a subdirectory's control field: marker, name of the directory above it, a zero byte, that directory's start page.
pub fn put_control(bytes: &mut [u8], n: usize, name: u32, start: usize)
    requires { (length bytes.old ≡ 6 + n) × (n ≤ 2) }
    ensures { bytes.new ≡ sub_control n (record { name = name; start = start }) }
{
    geometry::put_number(bytes, 0, MARKER_BYTES, MARKER + n);
    geometry::put_number(bytes, ABOVE_NAME_AT, NAME_BYTES, name as usize);
    geometry::put_number(bytes, ABOVE_ZERO_AT, ABOVE_ZERO_BYTES, 0);
    geometry::put_number(bytes, ABOVE_START_AT, n, start);
}
