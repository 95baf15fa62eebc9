// Careful edits: put and delete within a limit of page writes. Whatever write is the last, a mend of the image gives back every file.
#![tactic(auto)]

ghost use Rattle.std.specs.Prelude.{◌*◌, ◌≡◌, length};
ghost use Rattle.owners.specs.Records.{records_of};
ghost use Rattle.geometry.specs.Geometry.{Fit};
ghost use Rattle.packet.specs.Budgets.{Open};
ghost use Rattle.rules.specs.Answers.{answer_of};
ghost use Rattle.rules.specs.Careful.{careful_put, careful_put_call, careful_delete, careful_delete_call, count_of};
ghost use Rattle.rules.specs.CarefulPromises.{IsDone, CarefullyPuts, CarefullyDeletes};
ghost use Rattle.volume.specs.Edits.{TableOf, EffectLeaves};
ghost use Rattle.careful.specs.MarkedPuts.{MarkedPut, PutsMarked, CarefulPutting, CarefullyPutsFile, CarefulPathPut};
ghost use Rattle.careful.specs.Halts.{HasSpent, halt_of};

use edit::{NewFile, Pages};
use geometry::{Geometry, RECORD_BYTES};
use packet::Budget;
use refusals::{Fault, Refusal};
use rules::WriteCount;

// Stores a file whose pages are marked in the bitmap and writes its entry, then the bitmap without the chain that it replaces.
fn put_marked(
    image: &mut [u8],
    g: Geometry,
    file: NewFile,
    taken: Pages,
    pages: usize,
    bytes: &[u8],
    table: &mut [u8],
    budget: Budget,
) -> Budget
    requires fit { Fit g image.old }
    requires table_len { (length table.old ≡ 4 * g.pages) × MarkedPut g image.old (records_of table.old) bytes.now file taken pages × Open budget }
    ensures { PutsMarked g image.old (records_of table.old) bytes.now file taken pages budget image.new result }
{
    let changed = edit::put_entry(image, g, file, taken, pages, bytes, table, budget);
    if changed.stopped {
        return changed;
    }
    owners::claim_below(table, taken.below);
    edit::release_old(image, g, file.replaces, table);
    marks::write_map(image, g, table, 0, changed)
}

// Puts a file: the bitmap that marks its pages, its pages, its entry, the bitmap without the chain that it replaces. No page in use is taken. 17.
fn put_file(
    image: &mut [u8],
    g: Geometry,
    file: NewFile,
    bytes: &[u8],
    table: &mut [u8],
    budget: Budget,
) -> Result<Budget, Refusal>
    requires fit { Fit g image.old }
    requires table_len { (length table.old ≡ 4 * g.pages) × CarefulPutting g image.old (records_of table.old) bytes.now file × Open budget }
    ensures { CarefullyPutsFile g image.old (records_of table.old) bytes.now file budget image.new result }
{
    let pages = writes::pages_for(bytes.len(), g.data_capacity());
    let Some(taken) = edit::find_pages(table, file.extra, pages) else {
        return Err(Refusal(Fault::NoRoom, 0));
    };
    let marked = marks::write_map(image, g, table, taken.below, budget);
    if marked.stopped {
        return Ok(marked);
    }
    Ok(put_marked(image, g, file, taken, pages, bytes, table, marked))
}

// Puts bytes at a path within a budget. The table has the owners of the image's pages. 14, 15, 22, 16, 17.
fn put_path(
    image: &mut [u8],
    g: Geometry,
    path: &[u8],
    bytes: &[u8],
    table: &mut [u8],
    budget: Budget,
) -> Result<Budget, Refusal>
    requires fit { Fit g image.old }
    requires table_len { (length table.old ≡ 4 * g.pages) × TableOf g image.old (records_of table.old) × Open budget }
    ensures { CarefulPathPut g image.old path.now bytes.now budget image.new result }
{
    let file = put::place_file(image, g, path)?;
    put_file(image, g, file, bytes, table, budget)
}

// What a careful edit answers that may make so many writes.
fn halted(outcome: Result<Budget, Refusal>, allowed: usize) -> Result<WriteCount, Refusal>
    requires { HasSpent outcome allowed }
    ensures { result ≡ halt_of outcome allowed }
{
    let left = outcome?;
    Ok(WriteCount {
        made: allowed - left.left,
        left: left.stopped,
    })
}

// Puts into an image whose geometry is known: the check, the put, then the table of the image as it then stands.
fn put_in(
    image: &mut [u8],
    g: Geometry,
    path: &[u8],
    bytes: &[u8],
    table: &mut [u8],
    allowed: usize,
) -> Result<WriteCount, Refusal>
    requires fit { Fit g image.old }
    requires table_len { length table.old ≡ 4 * g.pages }
    ensures { EffectLeaves g image.old (careful_put g allowed path.now bytes.now image.old) (answer_of result) image.new (records_of table.new) }
{
    volume::check_table(image, g, table)?;
    let outcome = put_path(image, g, path, bytes, table, Budget::limited(allowed));
    let _ = volume::check_table(image, g, table);
    halted(outcome, allowed)
}

// Puts bytes at a path with at most so many page writes, such that the image can be mended whatever write is the last. Fills the owner table as a check of the image as it then stands.
pub fn put(
    image: &mut [u8],
    size: u32,
    pages: u32,
    path: &[u8],
    bytes: &[u8],
    table: &mut [u8],
    allowed: usize,
) -> Result<WriteCount, Refusal>
    ensures table_after { (answer_of result, image.new, table.new) ≡ careful_put_call size pages image.old table.old allowed path.now bytes.now }
    ensures carefully_puts { CarefullyPuts size pages image.old table.old allowed path.now bytes.now (IsDone (answer_of result)) (count_of (answer_of result)) image.new }
{
    let g = Geometry::new(size, pages, image.len(), table.len())?;
    let end = RECORD_BYTES * g.pages;
    put_in(image, g, path, bytes, &mut table[..end], allowed)
}

// Deletes in an image whose geometry is known: the check, the delete, then the table of the image as it then stands.
fn delete_in(
    image: &mut [u8],
    g: Geometry,
    path: &[u8],
    table: &mut [u8],
    allowed: usize,
) -> Result<WriteCount, Refusal>
    requires fit { Fit g image.old }
    requires table_len { length table.old ≡ 4 * g.pages }
    ensures { EffectLeaves g image.old (careful_delete g allowed path.now image.old) (answer_of result) image.new (records_of table.new) }
{
    volume::check_table(image, g, table)?;
    let deleted = delete::delete_path(image, g, path, table, Budget::limited(allowed));
    let _ = volume::check_table(image, g, table);
    halted(deleted, allowed)
}

// Deletes the file at a path with at most so many page writes: a delete takes no page, so its entry goes first, then its marks. Fills the owner table as a check of the image as it then stands.
pub fn delete(
    image: &mut [u8],
    size: u32,
    pages: u32,
    path: &[u8],
    table: &mut [u8],
    allowed: usize,
) -> Result<WriteCount, Refusal>
    ensures table_after { (answer_of result, image.new, table.new) ≡ careful_delete_call size pages image.old table.old allowed path.now }
    ensures carefully_deletes { CarefullyDeletes size pages image.old table.old allowed path.now (IsDone (answer_of result)) (count_of (answer_of result)) image.new }
{
    let g = Geometry::new(size, pages, image.len(), table.len())?;
    let end = RECORD_BYTES * g.pages;
    delete_in(image, g, path, &mut table[..end], allowed)
}
