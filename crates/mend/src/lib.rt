// Mend: in an image that a careful edit left halfway, the marks of pages that no chain owns are cleared.
#![tactic(auto)]

ghost use Rattle.std.specs.Prelude.{◌*◌, ◌≡◌, length};
ghost use Rattle.owners.specs.Records.{records_of};
ghost use Rattle.geometry.specs.Geometry.{Fit};
ghost use Rattle.rules.specs.Answers.{answer_of};
ghost use Rattle.rules.specs.Careful.{mend as mendRule, mend_call, cleared_of};
ghost use Rattle.rules.specs.CarefulPromises.{IsDone, Mends};
ghost use Rattle.volume.specs.Edits.{EffectLeaves};

use geometry::{Geometry, RECORD_BYTES};
use packet::Budget;
use refusals::Refusal;

// Mends an image whose geometry is known: its marks surveyed, its bitmap written from the pages in use, then the table of the image as it then stands. A refusal is the check's.
fn mend_in(image: &mut [u8], g: Geometry, table: &mut [u8]) -> Result<usize, Refusal>
    requires fit { Fit g image.old }
    requires table_len { length table.old ≡ 4 * g.pages }
    ensures { EffectLeaves g image.old (mendRule g image.old) (answer_of result) image.new (records_of table.new) }
{
    let Some(cleared) = volume::survey_table(image, g, table) else {
        volume::check_table(image, g, table)?;
        // an image that is accepted has its pages marked
        return Ok(0);
    };
    marks::write_map(image, g, table, 0, Budget::unlimited());
    let _ = volume::check_table(image, g, table);
    Ok(cleared)
}

// Clears the marks of pages that no chain owns and answers their number. Fills the owner table as a check of the image as it then stands.
pub fn mend(image: &mut [u8], size: u32, pages: u32, table: &mut [u8]) -> Result<usize, Refusal>
    ensures table_after { (answer_of result, image.new, table.new) ≡ mend_call size pages image.old table.old }
    ensures mends { Mends size pages image.old table.old (IsDone (answer_of result)) (λ x. answer_of result ≡ x) (cleared_of (answer_of result)) image.new }
{
    let g = Geometry::new(size, pages, image.len(), table.len())?;
    let end = RECORD_BYTES * g.pages;
    mend_in(image, g, &mut table[..end])
}
