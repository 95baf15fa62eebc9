// The text of `list` for a dump: P (2 bytes), N (2), offset of page 0 (4), low byte first; the image stands at that offset and ends the dump.
#![tactic(auto)]

ghost use Rattle.std.specs.Prelude.{◌≡◌, ◌≤◌};
ghost use Rattle.geometry.specs.Geometry.{Fit};
ghost use Rattle.rules.specs.Chain.{views_of};
ghost use Rattle.rules.specs.ListText.{lines_text, text_call};
ghost use Rattle.listing.specs.KnownTree.{HasImage};
ghost use Rattle.text.specs.Placed.{Written};
ghost use Rattle.dump.specs.PrintResult.{print_result};
ghost use Rattle.dump.specs.Prints.{place_of, lines_in, IsChecked, Checks, answer_text, Prints};

use geometry::{Geometry, MOST_TABLE_BYTES, RECORD_BYTES};
use refusals::{Fault, Refusal};
use rules::Totals;

// The header: page length and page count of two bytes each, then the offset of page 0 of four.
const SIZE_BYTES: usize = 2;

const PAGES_AT: usize = SIZE_BYTES;

const PAGES_BYTES: usize = 2;

const OFFSET_AT: usize = PAGES_AT + PAGES_BYTES;

const OFFSET_BYTES: usize = 4;

const HEADER_BYTES: usize = OFFSET_AT + OFFSET_BYTES;

// The greatest offset and the greatest length of an image.
const MOST_OFFSET: usize = 32768;

const MOST_IMAGE: usize = 32768;

// Where the image stands in a dump; none if the dump's header or its length is malformed.
fn place_of(dump: &[u8]) -> Option<usize>
    ensures { result ≡ place_of dump.now }
{
    if dump.len() < HEADER_BYTES {
        return None;
    }
    let offset = geometry::number_at(dump, OFFSET_AT, OFFSET_BYTES);
    if !(HEADER_BYTES..=MOST_OFFSET).contains(&offset) {
        return None;
    }
    let length = dump.len().checked_sub(offset)?;
    (length <= MOST_IMAGE).then_some(offset)
}

// Checks an image over an owner table of its own; its geometry and totals.
fn check_image(image: &[u8], size: u32, pages: u32) -> Result<(Geometry, Totals), Refusal>
    ensures { Checks size pages image.now result }
{
    let g = Geometry::new(size, pages, image.len(), MOST_TABLE_BYTES)?;
    let end = RECORD_BYTES * g.pages;
    let mut table = [0u8; MOST_TABLE_BYTES];
    let totals = volume::check_table(image, g, &mut table[..end])?;
    Ok((g, totals))
}

// Writes the lines of all entries of an accepted image, in walk order.
fn put_lines(image: &[u8], g: Geometry, out: &mut [u8], at: usize) -> usize
    requires fit { Fit g image.now }
    requires has_image { HasImage g (views_of g image.now) × (at ≤ 200) }
    ensures { Written at (lines_text (lines_in g image.now)) out.old result out.new }
{
    let mut next = at;
    let mut k = 0;
    // no `for k in 0..`: of a range without an end it cannot be proved that the loop ends
    while let Some(line) = listing::line_at(image, g, k) {
        next = text::put_line(out, next, line);
        k += 1;
    }
    next
}

// Writes the whole text.
fn put_text(image: &[u8], answer: Result<(Geometry, Totals), Refusal>, out: &mut [u8]) -> usize
    requires { IsChecked image.now answer }
    ensures { Written 0 (answer_text image.now answer) out.old result out.new }
{
    match answer {
        Err(refusal) => text::put_refusal(out, 0, refusal),
        Ok((g, totals)) => {
            let lines = text::put_totals(out, 0, g, totals);
            put_lines(image, g, out, lines)
        }
    }
}

// Counts the text's bytes in no output, and writes it if it fits; its length, or none if the output is too short.
fn print(image: &[u8], answer: Result<(Geometry, Totals), Refusal>, out: &mut [u8]) -> Option<usize>
    requires { IsChecked image.now answer }
    ensures { Prints (answer_text image.now answer) out.old result out.new }
{
    let length = put_text(image, answer, &mut out[..0]);
    if out.len() < length {
        return None;
    }
    put_text(image, answer, out);
    Some(length)
}

// Prints the text of a dump into an output; its length, or none if the output is too short. The image is checked once.
pub fn list_text(dump: &[u8], out: &mut [u8]) -> Option<usize>
    ensures { (print_result result, out.new) ≡ text_call dump.now out.old }
{
    match place_of(dump) {
        None => print(dump, Err(Refusal(Fault::Dump, 0)), out),
        Some(offset) => {
            let size = geometry::number_at(dump, 0, SIZE_BYTES) as u32;
            let pages = geometry::number_at(dump, PAGES_AT, PAGES_BYTES) as u32;
            let image = &dump[offset..];
            print(image, check_image(image, size, pages), out)
        }
    }
}
