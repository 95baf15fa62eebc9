// Questions about an image: the entry at a walk position, and the bytes of a file.
#![tactic(auto)]

ghost use Rattle.std.specs.Prelude.{◌≡◌};
ghost use Rattle.geometry.specs.Geometry.{Fit};
ghost use Rattle.packet.specs.Packet.{view_of};
ghost use Rattle.chain.specs.KnownChain.{KnownChain};
ghost use Rattle.listing.specs.KnownTree.{HasImage};
ghost use Rattle.rules.specs.Result.{IsOk};
ghost use Rattle.rules.specs.Chain.{views_of};
ghost use Rattle.rules.specs.Listing.{line_at, lines_of};
ghost use Rattle.rules.specs.Calls.{read_bytes, length_of, filled, list_call, read_call};
ghost use Rattle.rules.specs.Promises.{TellsTree};
ghost use Rattle.rules.specs.Answers.{answer_of};
ghost use Rattle.query.specs.Questions.{LineOf, ChainRead, PathRead};

use geometry::{Geometry, RECORD_BYTES};
use lookup::PathLookup;
use refusals::{Fault, Refusal};
use rules::Line;

// The entry at a walk position of an accepted image, or 15.
fn entry_of(image: &[u8], g: Geometry, position: usize) -> Result<Line, Refusal>
    requires fit { Fit g image.now }
    requires has_image { HasImage g (views_of g image.now) }
    ensures { LineOf g (views_of g image.now) position result }
{
    listing::line_at(image, g, position).ok_or(Refusal(Fault::Absent, 0))
}

// Lists the entry at a walk position from 0: 15 at or past the end. Fills the owner table as a check does.
pub fn list(
    image: &[u8],
    size: u32,
    pages: u32,
    table: &mut [u8],
    position: usize,
) -> Result<Line, Refusal>
    ensures table_after { (answer_of result, table.new) ≡ list_call size pages image.now table.old position }
    ensures tells_tree { TellsTree size pages image.now table.old (λ i. line_at position (lines_of 0 i.tree)) (λ x. answer_of result ≡ x) (IsOk (answer_of result)) }
{
    let g = Geometry::new(size, pages, image.len(), table.len())?;
    let end = RECORD_BYTES * g.pages;
    volume::check_table(image, g, &mut table[..end])?;
    entry_of(image, g, position)
}

// Reads a chain that is known to be right to the front of the output: 18 if it is too short.
fn read_chain(image: &[u8], g: Geometry, start: usize, out: &mut [u8]) -> Result<usize, Refusal>
    requires fit { Fit g image.now }
    requires known_chain { KnownChain g (view_of g image.now) start }
    ensures { ChainRead g (view_of g image.now) start out.old result out.new }
{
    let length = chain::chain_bytes(image, g, start);
    if out.len() < length {
        return Err(Refusal(Fault::ShortOutput, 0));
    }
    chain::copy_chain(image, g, start, out);
    Ok(length)
}

// Reads the file at a path of an accepted image: 14, 15, 18.
fn read_path(image: &[u8], g: Geometry, path: &[u8], out: &mut [u8]) -> Result<usize, Refusal>
    requires fit { Fit g image.now }
    requires has_image { HasImage g (views_of g image.now) }
    ensures { PathRead g (views_of g image.now) path.now out.old result out.new }
{
    let PathLookup::At(_, spot) = lookup::find_file(image, g, path)? else {
        return Err(Refusal(Fault::Absent, 0));
    };
    read_chain(image, g, spot.entry.start, out)
}

// Reads the file at a path to the front of the output; the rest of it stays. Fills the owner table as a check does.
pub fn read(
    image: &[u8],
    size: u32,
    pages: u32,
    path: &[u8],
    out: &mut [u8],
    table: &mut [u8],
) -> Result<usize, Refusal>
    ensures table_after { (answer_of result, out.new, table.new) ≡ read_call size pages image.now table.old path.now out.old }
    ensures tells_tree { TellsTree size pages image.now table.old (read_bytes path.now out.old)
        (λ x. (answer_of result ≡ length_of x) × (out.new ≡ filled out.old x)) (IsOk (answer_of result)) }
{
    let g = Geometry::new(size, pages, image.len(), table.len())?;
    let end = RECORD_BYTES * g.pages;
    volume::check_table(image, g, &mut table[..end])?;
    read_path(image, g, path, out)
}
