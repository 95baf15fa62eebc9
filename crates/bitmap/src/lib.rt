// The bitmap compared with the owner table, in the root or in a file of its own.
#![tactic(auto)]

ghost use Rattle.std.specs.Prelude.{◌≡◌, ◌+◌, ◌*◌, ◌/◌, ◌%◌, ◌^◌, ◌≤◌, ◌<◌, not, ltb, leb, eqb, length};
ghost use Rattle.geometry.specs.Choose.{choose};
ghost use Rattle.geometry.specs.Geometry.{Fit};
ghost use Rattle.packet.specs.Packet.{view_of};
ghost use Rattle.owners.specs.Records.{records_of};
ghost use Rattle.bitmap.specs.Bits.{ComparesPart, ComparesAll, ComparesChain};
ghost use Rattle.bitmap.specs.Surveys.{SurveysPart, SurveysAll, SurveysChain};
ghost use Rattle.chain.specs.KnownChain.{KnownChain};

use chain::Cursor;
use geometry::Geometry;

// Bit k of a byte, low bit first.
fn bit_of(b: u8, k: usize) -> usize
    requires { k < 8 }
    ensures { result ≡ b / 2 ^ k % 2 }
{
    usize::from((b >> k) & 1)
}

// Compares some bytes of a bitmap with the table, and finds the lowest bit that is wrong; `at` bytes of the bitmap stand before them.
fn compare_bytes(bytes: &[u8], at: usize, table: &[u8]) -> Option<usize>
    requires { (at ≤ 16777216) × (length bytes.now ≤ 256) }
    ensures { ComparesPart bytes.now at (records_of table.now) result }
{
    for k in 0..8 * bytes.len() {
        let page = 8 * at + k;
        if bit_of(bytes[k / 8], k % 8) != owners::bit(table, page, 0) {
            return Some(page);
        }
    }
    None
}

// Compares a bitmap that stands in the root's control field.
pub fn compare_local(bytes: &[u8], table: &[u8]) -> Option<usize>
    requires { length bytes.now ≤ 256 }
    ensures { ComparesAll bytes.now (records_of table.now) result }
{
    compare_bytes(bytes, 0, table)
}

// Compares a bitmap that stands in a chain which is known to stand, page by page.
pub fn compare_chain(image: &[u8], g: Geometry, start: usize, table: &[u8]) -> Option<usize>
    requires fit { Fit g image.now }
    requires known_chain { KnownChain g (view_of g image.now) start }
    ensures { ComparesChain g (view_of g image.now) start (records_of table.now) result }
{
    let mut c = Cursor::new(start, start);
    loop {
        let page = c.page;
        let (size, next) = c.follow(image, g);
        let bytes = packet::data_of(geometry::page_of(image, g, page), size);
        if let Some(bit) = compare_bytes(bytes, c.bytes, table) {
            return Some(bit);
        }
        if next.page == 0 {
            return None;
        }
        c = next;
    }
}

// Whether a mend must refuse a bit: the page has an owner and is unmarked, or it is past the last page and marked.
fn is_uncovered(pages: usize, page: usize, marked: usize, owned: usize) -> bool
    ensures { result ≡ not (choose (ltb page pages) (leb owned marked) (eqb marked 0)) }
{
    if page < pages {
        return marked < owned;
    }
    marked != 0
}

// Surveys some bytes of a bitmap, after `at` others in which `passed` marks have no owner: how many have none with these; `None` if a page with an owner is unmarked, or a bit past the last page is set.
fn survey_bytes(bytes: &[u8], at: usize, table: &[u8], passed: usize) -> Option<usize>
    requires { (at ≤ 16777216) × (length bytes.now ≤ 256) × (passed ≤ 8 * at) }
    ensures { SurveysPart bytes.now at (records_of table.now) passed result }
{
    let pages = owners::pages_of(table);
    let mut unowned = passed;
    for k in 0..8 * bytes.len() {
        let page = 8 * at + k;
        let marked = bit_of(bytes[k / 8], k % 8);
        let owned = owners::bit(table, page, 0);
        if is_uncovered(pages, page, marked, owned) {
            return None;
        }
        unowned += marked - owned;
    }
    Some(unowned)
}

// Surveys a bitmap that stands in the root's control field.
pub fn survey_local(bytes: &[u8], table: &[u8]) -> Option<usize>
    requires { length bytes.now ≤ 256 }
    ensures { SurveysAll bytes.now (records_of table.now) result }
{
    survey_bytes(bytes, 0, table, 0)
}

// Surveys a bitmap that stands in a chain which is known to stand, page by page.
pub fn survey_chain(image: &[u8], g: Geometry, start: usize, table: &[u8]) -> Option<usize>
    requires fit { Fit g image.now }
    requires known_chain { KnownChain g (view_of g image.now) start }
    ensures { SurveysChain g (view_of g image.now) start (records_of table.now) result }
{
    let mut c = Cursor::new(start, start);
    let mut unowned = 0;
    loop {
        let page = c.page;
        let (size, next) = c.follow(image, g);
        let bytes = packet::data_of(geometry::page_of(image, g, page), size);
        unowned = survey_bytes(bytes, c.bytes, table, unowned)?;
        if next.page == 0 {
            return Some(unowned);
        }
        c = next;
    }
}
