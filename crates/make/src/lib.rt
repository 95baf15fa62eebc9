// Makes a directory: one page with its control field, and its entry in the directory above it.
#![tactic(auto)]

ghost use Rattle.std.specs.Prelude.{◌*◌, ◌≡◌, length};
ghost use Rattle.owners.specs.Records.{records_of};
ghost use Rattle.geometry.specs.Geometry.{Fit};
ghost use Rattle.packet.specs.Budgets.{Open};
ghost use Rattle.rules.specs.Directories.{make_directory, make_call};
ghost use Rattle.rules.specs.Result.{ok};
ghost use Rattle.rules.specs.Chain.{views_of};
ghost use Rattle.rules.specs.Promises.{Makes};
ghost use Rattle.listing.specs.KnownTree.{HasImage};
ghost use Rattle.rules.specs.Answers.{answer_of};
ghost use Rattle.volume.specs.Edits.{TableOf, EditLeaves};
ghost use Rattle.make.specs.Vacancies.{Vacant, PathMade};

use edit::NewFile;
use geometry::{Geometry, MOST_CONTROL_BYTES, RECORD_BYTES};
use lookup::{PathLookup, Reached};
use packet::Budget;
use refusals::{Fault, Refusal};

// Finds where the directory of a path goes: the directory above it, and its entry's place. The image is accepted. 14, 15, 22, 21.
fn place_directory(image: &[u8], g: Geometry, path: &[u8]) -> Result<(Reached, NewFile), Refusal>
    requires fit { Fit g image.now }
    requires has_image { HasImage g (views_of g image.now) }
    ensures { Vacant g image.now path.now result }
{
    match lookup::find_directory(image, g, path)? {
        PathLookup::Absent(above, name, extension) => {
            if above.hidden {
                return Err(Refusal(Fault::Hidden, 0));
            }
            let entry = put::new_entry(image, g, above.start, name, extension);
            Ok((above, entry))
        }
        PathLookup::At(holder, _) => {
            if holder.hidden {
                return Err(Refusal(Fault::Hidden, 0));
            }
            Err(Refusal(Fault::Exists, 0))
        }
    }
}

// Makes the directory at a path within a budget. The table has the owners of the image's pages. 14, 15, 22, 21, 17.
fn make_path(
    image: &mut [u8],
    g: Geometry,
    path: &[u8],
    table: &mut [u8],
    budget: Budget,
) -> Result<Budget, Refusal>
    requires fit { Fit g image.old }
    requires table_len { (length table.old ≡ 4 * g.pages) × TableOf g image.old (records_of table.old) × Open budget }
    ensures { PathMade g image.old path.now budget image.new result }
{
    let (above, entry) = place_directory(image, g, path)?;
    let size = g.control_size();
    let mut control = [0u8; MOST_CONTROL_BYTES];
    directory::control::put_control(&mut control[..size], g.width, above.name, above.start);
    edit::put_file(image, g, entry, &control[..size], table, budget)
}

// Makes a directory in an image whose geometry is known: the check, the making, then the table of the image as it then stands.
fn make_in(image: &mut [u8], g: Geometry, path: &[u8], table: &mut [u8]) -> Result<(), Refusal>
    requires fit { Fit g image.old }
    requires table_len { length table.old ≡ 4 * g.pages }
    ensures { EditLeaves g image.old (make_directory g path.now image.old) result image.new (records_of table.new) }
{
    volume::check_table(image, g, table)?;
    let outcome = make_path(image, g, path, table, Budget::unlimited());
    let _ = volume::check_table(image, g, table);
    outcome?;
    Ok(())
}

// Makes the directory at a path, without entries and not hidden. Fills the owner table as a check of the image as it then stands.
pub fn make(
    image: &mut [u8],
    size: u32,
    pages: u32,
    path: &[u8],
    table: &mut [u8],
) -> Result<(), Refusal>
    ensures table_after { (answer_of result, image.new, table.new) ≡ make_call size pages image.old table.old path.now }
    ensures makes { Makes size pages image.old table.old path.now (answer_of result ≡ ok tt) (λ x. answer_of result ≡ x) image.new }
{
    let g = Geometry::new(size, pages, image.len(), table.len())?;
    let end = RECORD_BYTES * g.pages;
    make_in(image, g, path, &mut table[..end])
}
