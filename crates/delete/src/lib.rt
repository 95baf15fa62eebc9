// Delete: a file's entry goes from its directory, and its pages are free.
#![tactic(auto)]

ghost use Rattle.std.specs.Prelude.{◌*◌, ◌≡◌, length};
ghost use Rattle.owners.specs.Records.{records_of};
ghost use Rattle.geometry.specs.Geometry.{Fit};
ghost use Rattle.rules.specs.Delete.{delete as deleted};
ghost use Rattle.rules.specs.Result.{ok};
ghost use Rattle.rules.specs.Calls.{delete_call};
ghost use Rattle.rules.specs.Promises.{Deletes};
ghost use Rattle.rules.specs.Answers.{answer_of};
ghost use Rattle.volume.specs.Edits.{TableOf, EditLeaves};
ghost use Rattle.packet.specs.Budgets.{Open};
ghost use Rattle.delete.specs.Deletes.{CanDelete, Unlinks, PathDeleted};

use directory::extensions::extension_of;
use geometry::{Geometry, RECORD_BYTES};
use lookup::{PathLookup, Spot};
use packet::Budget;
use refusals::{Fault, Refusal};

// Deletes the file, or the empty directory, of an entry within a budget: its pages are free again in the table, its directory's page is written without it, then the bitmap.
pub fn unlink(image: &mut [u8], g: Geometry, spot: Spot, table: &mut [u8], budget: Budget) -> Budget
    requires fit { Fit g image.old }
    requires table_len { (length table.old ≡ 4 * g.pages) × CanDelete g image.old (records_of table.old) spot.slot spot.stamps spot.entry × Open budget }
    ensures { Unlinks g image.old (records_of table.old) spot.slot spot.stamps spot.entry budget image.new result }
{
    chain::release_chain(image, g, spot.entry.start, table);
    edit::remove_entry(image, g, spot.slot, spot.stamps, table, budget)
}

// Deletes the file at a path within a budget. The table has the owners of the image's pages. 14, 15, 22, 16.
pub fn delete_path(
    image: &mut [u8],
    g: Geometry,
    path: &[u8],
    table: &mut [u8],
    budget: Budget,
) -> Result<Budget, Refusal>
    requires fit { Fit g image.old }
    requires table_len { (length table.old ≡ 4 * g.pages) × TableOf g image.old (records_of table.old) × Open budget }
    ensures { PathDeleted g image.old path.now budget image.new result }
{
    let PathLookup::At(directory, spot) = lookup::find_file(image, g, path)? else {
        return Err(Refusal(Fault::Absent, 0));
    };
    if directory.hidden {
        return Err(Refusal(Fault::Hidden, 0));
    }
    if extension_of(spot.entry.extension).attribute != 0 {
        return Err(Refusal(Fault::ReadOnly, 0));
    }
    Ok(unlink(image, g, spot, table, budget))
}

// Deletes in an image whose geometry is known: the check, the delete, then the table of the image as it then stands.
fn delete_in(image: &mut [u8], g: Geometry, path: &[u8], table: &mut [u8]) -> Result<(), Refusal>
    requires fit { Fit g image.old }
    requires table_len { length table.old ≡ 4 * g.pages }
    ensures { EditLeaves g image.old (deleted g path.now image.old) result image.new (records_of table.new) }
{
    volume::check_table(image, g, table)?;
    let outcome = delete_path(image, g, path, table, Budget::unlimited());
    let _ = volume::check_table(image, g, table);
    outcome?;
    Ok(())
}

// Deletes the file at a path. Fills the owner table as a check of the image as it then stands.
pub fn delete(
    image: &mut [u8],
    size: u32,
    pages: u32,
    path: &[u8],
    table: &mut [u8],
) -> Result<(), Refusal>
    ensures table_after { (answer_of result, image.new, table.new) ≡ delete_call size pages image.old table.old path.now }
    ensures deletes { Deletes size pages image.old table.old path.now (answer_of result ≡ ok tt) image.new }
{
    let g = Geometry::new(size, pages, image.len(), table.len())?;
    let end = RECORD_BYTES * g.pages;
    delete_in(image, g, path, &mut table[..end])
}
