// Removes a directory without entries: its entry goes from the directory above it, and its pages are free.
#![tactic(auto)]

ghost use Rattle.std.specs.Prelude.{◌*◌, ◌≡◌, length};
ghost use Rattle.owners.specs.Records.{records_of};
ghost use Rattle.geometry.specs.Geometry.{Fit};
ghost use Rattle.rules.specs.Directories.{removal_target, remove_directory, remove_call};
ghost use Rattle.rules.specs.Result.{ok};
ghost use Rattle.rules.specs.Promises.{Removes as Stated};
ghost use Rattle.rules.specs.Answers.{answer_of};
ghost use Rattle.volume.specs.Edits.{TableOf, EditLeaves};
ghost use Rattle.packet.specs.Budgets.{Open};
ghost use Rattle.delete.specs.Deletes.{Removes};

use directory::extensions::extension_of;
use geometry::{Geometry, RECORD_BYTES};
use lookup::PathLookup;
use packet::Budget;
use refusals::{Fault, Refusal};

// Removes the directory at a path within a budget. The table has the owners of the image's pages. 14, 15, 22, 20.
fn remove_path(
    image: &mut [u8],
    g: Geometry,
    path: &[u8],
    table: &mut [u8],
    budget: Budget,
) -> Result<Budget, Refusal>
    requires fit { Fit g image.old }
    requires table_len { (length table.old ≡ 4 * g.pages) × TableOf g image.old (records_of table.old) × Open budget }
    ensures { Removes g image.old (removal_target path.now) budget image.new result }
{
    let PathLookup::At(holder, spot) = lookup::find_directory(image, g, path)? else {
        return Err(Refusal(Fault::Absent, 0));
    };
    if holder.hidden {
        return Err(Refusal(Fault::Hidden, 0));
    }
    if extension_of(spot.entry.extension).attribute == 1 {
        return Err(Refusal(Fault::Hidden, 0));
    }
    if entries::count_of(image, g, spot.entry.start) != 0 {
        return Err(Refusal(Fault::NotEmpty, 0));
    }
    Ok(delete::unlink(image, g, spot, table, budget))
}

// Removes a directory in an image whose geometry is known: the check, the removal, then the table of the image as it then stands.
fn remove_in(image: &mut [u8], g: Geometry, path: &[u8], table: &mut [u8]) -> Result<(), Refusal>
    requires fit { Fit g image.old }
    requires table_len { length table.old ≡ 4 * g.pages }
    ensures { EditLeaves g image.old (remove_directory g path.now image.old) result image.new (records_of table.new) }
{
    volume::check_table(image, g, table)?;
    let outcome = remove_path(image, g, path, table, Budget::unlimited());
    let _ = volume::check_table(image, g, table);
    outcome?;
    Ok(())
}

// Removes the directory at a path, if it has no entries. Fills the owner table as a check of the image as it then stands.
pub fn remove(
    image: &mut [u8],
    size: u32,
    pages: u32,
    path: &[u8],
    table: &mut [u8],
) -> Result<(), Refusal>
    ensures table_after { (answer_of result, image.new, table.new) ≡ remove_call size pages image.old table.old path.now }
    ensures stated { Stated size pages image.old table.old path.now (answer_of result ≡ ok tt) image.new }
{
    let g = Geometry::new(size, pages, image.len(), table.len())?;
    let end = RECORD_BYTES * g.pages;
    remove_in(image, g, path, &mut table[..end])
}
