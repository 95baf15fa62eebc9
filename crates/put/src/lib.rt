// Put: a file made or replaced, in the lowest free pages.
#![tactic(auto)]

ghost use Rattle.std.specs.Prelude.{◌*◌, ◌≡◌, length};
ghost use Rattle.owners.specs.Records.{records_of};
ghost use Rattle.geometry.specs.Geometry.{Fit};
ghost use Rattle.packet.specs.Budgets.{Open};
ghost use Rattle.rules.specs.Put.{put as putRule};
ghost use Rattle.rules.specs.Result.{ok};
ghost use Rattle.rules.specs.Chain.{views_of};
ghost use Rattle.rules.specs.Calls.{put_call};
ghost use Rattle.rules.specs.Promises.{Puts};
ghost use Rattle.listing.specs.KnownTree.{HasImage};
ghost use Rattle.lookup.specs.Searches.{HasTree};
ghost use Rattle.rules.specs.Answers.{answer_of};
ghost use Rattle.volume.specs.Edits.{TableOf, EditLeaves};
ghost use Rattle.put.specs.Places.{NewEntryIs, Places, PathPut};

use directory::extensions::extension_of;
use edit::NewFile;
use geometry::{Geometry, RECORD_BYTES};
use lookup::PathLookup;
use lookup::space::Space;
use packet::Budget;
use refusals::{Fault, Refusal};

// Where an entry goes that its directory does not have, a file's or a directory's: to the first page with space, else to a page that joins.
pub fn new_entry(image: &[u8], g: Geometry, start: usize, name: u32, extension: u8) -> NewFile
    requires fit { Fit g image.now }
    requires has_tree { HasTree g (views_of g image.now) start }
    ensures { NewEntryIs g image.now start name extension result }
{
    match lookup::space::find_space(image, g, start) {
        Space::At(slot) => NewFile {
            name,
            extension,
            replaces: g.pages,
            slot,
            first: slot.count,
            last: slot.count,
            extra: 0,
        },
        Space::Full(slot) => NewFile {
            name,
            extension,
            replaces: g.pages,
            slot,
            first: slot.count,
            last: slot.count,
            extra: 1,
        },
    }
}

// Finds where the file of a path goes. The image is accepted. 14, 15, 22, 16.
pub fn place_file(image: &[u8], g: Geometry, path: &[u8]) -> Result<NewFile, Refusal>
    requires fit { Fit g image.now }
    requires has_image { HasImage g (views_of g image.now) }
    ensures { Places g image.now path.now result }
{
    match lookup::find_file(image, g, path)? {
        PathLookup::Absent(directory, name, extension) => {
            if directory.hidden {
                return Err(Refusal(Fault::Hidden, 0));
            }
            Ok(new_entry(image, g, directory.start, name, extension))
        }
        PathLookup::At(holder, spot) => {
            if holder.hidden {
                return Err(Refusal(Fault::Hidden, 0));
            }
            let e = spot.entry;
            if extension_of(e.extension).attribute != 0 {
                return Err(Refusal(Fault::ReadOnly, 0));
            }
            Ok(NewFile {
                name: e.name,
                extension: e.extension,
                replaces: e.start,
                slot: spot.slot,
                first: spot.slot.at,
                last: spot.slot.at + 1,
                extra: 0,
            })
        }
    }
}

// Puts bytes at a path within a budget. The table has the owners of the image's pages; a chain that is replaced counts as free. 14, 15, 22, 16, 17.
fn put_path(
    image: &mut [u8],
    g: Geometry,
    path: &[u8],
    bytes: &[u8],
    table: &mut [u8],
    budget: Budget,
) -> Result<Budget, Refusal>
    requires fit { Fit g image.old }
    requires table_len { (length table.old ≡ 4 * g.pages) × TableOf g image.old (records_of table.old) × Open budget }
    ensures { PathPut g image.old path.now bytes.now budget image.new result }
{
    // `match`, not `?`: the edit `done_and_nothing_written` turns the answer of the first arm
    match place_file(image, g, path) {
        Err(refusal) => Err(refusal),
        Ok(file) => {
            edit::release_old(image, g, file.replaces, table);
            edit::put_file(image, g, file, bytes, table, budget)
        }
    }
}

// Puts into an image whose geometry is known: the check, the put, then the table of the image as it then stands.
fn put_in(
    image: &mut [u8],
    g: Geometry,
    path: &[u8],
    bytes: &[u8],
    table: &mut [u8],
) -> Result<(), Refusal>
    requires fit { Fit g image.old }
    requires table_len { length table.old ≡ 4 * g.pages }
    ensures { EditLeaves g image.old (putRule g path.now bytes.now image.old) result image.new (records_of table.new) }
{
    volume::check_table(image, g, table)?;
    let outcome = put_path(image, g, path, bytes, table, Budget::unlimited());
    let _ = volume::check_table(image, g, table);
    outcome?;
    Ok(())
}

// Puts bytes at a path: makes the file or replaces it. Fills the owner table as a check of the image as it then stands.
pub fn put(
    image: &mut [u8],
    size: u32,
    pages: u32,
    path: &[u8],
    bytes: &[u8],
    table: &mut [u8],
) -> Result<(), Refusal>
    ensures table_after { (answer_of result, image.new, table.new) ≡ put_call size pages image.old table.old path.now bytes.now }
    ensures puts { Puts size pages image.old table.old path.now bytes.now (answer_of result ≡ ok tt) (λ x. answer_of result ≡ x) image.new }
{
    let g = Geometry::new(size, pages, image.len(), table.len())?;
    let end = RECORD_BYTES * g.pages;
    put_in(image, g, path, bytes, &mut table[..end])
}
