// The calls for C and Rust programs.
#![tactic(auto)]

ghost use Rattle.std.specs.Prelude.{◌≡◌, []};
ghost use Rattle.crc16.specs.Crc16.{crc16};
ghost use Rattle.rules.specs.Listing.{line_at, lines_of};
ghost use Rattle.rules.specs.Calls.{read_bytes, length_of, filled};
ghost use Rattle.rules.specs.Promises.{Accepts, TellsTree, Formats, Puts, Deletes, Makes, Removes};
ghost use Rattle.rules.specs.CarefulPromises.{CarefullyPuts, CarefullyDeletes, Mends};
ghost use Rattle.gathering.specs.GatherPromises.{Gathers};
ghost use Rattle.reports.specs.Reports.{report_after};
ghost use Rattle.reports.specs.ReportPromises.{TellsWith, Tells, Adds, AddsWeighted};
ghost use Rattle.answers.specs.ExportedReports.{asked_version, report_of, added_of, start_answer, start_weighted_answer, add_answer};
ghost use Rattle.answers.specs.ExportedAnswers.{entry_for, length_for, answer_for, asks_local, mended_for, count_told, check_answer, list_answer, read_answer, format_answer, put_answer, delete_answer};
ghost use Rattle.answers.specs.ExportedAnswers.{make_answer, remove_answer, careful_put_answer, careful_delete_answer, mend_answer, gather_answer};

use answers::{
    OwfsAdded, OwfsAnswer, OwfsEntry, OwfsLength, OwfsMended, OwfsReport, OwfsTotals, OwfsWrites,
};
use reports::Report;

// The CRC-16 register after the bytes of a slice, not inverted.
#[unsafe(no_mangle)]
pub extern "C" fn owfs_crc16(start: u16, bytes: &[u8]) -> u16
    ensures { result ≡ crc16 start bytes.now }
{
    crc16::crc_of(start, bytes)
}

// Checks an image: pages in use, files and directories, or the first fault. Fills the owner table.
#[unsafe(no_mangle)]
pub extern "C" fn owfs_check(size: u32, pages: u32, image: &[u8], owners: &mut [u8]) -> OwfsTotals
    ensures owners_after { (result, owners.new) ≡ check_answer size pages image.now owners.old }
    ensures accepts { Accepts size pages image.now owners.old (result.number ≡ 0) }
{
    answers::tell(volume::check(image, size, pages, owners))
}

// Lists the entry at a walk position from 0, or 15. Fills the owner table.
#[unsafe(no_mangle)]
pub extern "C" fn owfs_list(
    size: u32,
    pages: u32,
    image: &[u8],
    owners: &mut [u8],
    position: u32,
) -> OwfsEntry
    ensures owners_after { (result, owners.new) ≡ list_answer size pages image.now owners.old position }
    ensures tells_tree { TellsTree size pages image.now owners.old (λ i. line_at position (lines_of 0 i.tree)) (λ x. result ≡ entry_for x) (result.number ≡ 0) }
{
    answers::tell_entry(query::list(image, size, pages, owners, position as usize))
}

// Reads the file at a path to the front of the output. Fills the owner table.
#[unsafe(no_mangle)]
pub extern "C" fn owfs_read(
    size: u32,
    pages: u32,
    image: &[u8],
    path: &[u8],
    out: &mut [u8],
    owners: &mut [u8],
) -> OwfsLength
    ensures owners_after { (result, out.new, owners.new) ≡ read_answer size pages image.now owners.old path.now out.old }
    ensures tells_tree { TellsTree size pages image.now owners.old (read_bytes path.now out.old)
        (λ x. (result ≡ length_for (length_of x)) × (out.new ≡ filled out.old x)) (result.number ≡ 0) }
{
    answers::tell_length(query::read(image, size, pages, path, out, owners))
}

// Formats an image, with a bitmap file where `local` is 0, else with the bitmap in the root. Fills the owner table.
#[unsafe(no_mangle)]
pub extern "C" fn owfs_format(
    size: u32,
    pages: u32,
    image: &mut [u8],
    owners: &mut [u8],
    local: u32,
) -> OwfsAnswer
    ensures owners_after { (result, image.new, owners.new) ≡ format_answer size pages image.old owners.old local }
    ensures formats { Formats size pages image.old owners.old (asks_local local) (result.number ≡ 0) (λ x. result ≡ answer_for x) image.new }
{
    answers::tell_answer(format::format(image, size, pages, owners, local != 0))
}

// Puts bytes at a path: makes the file or replaces it. Fills the owner table.
#[unsafe(no_mangle)]
pub extern "C" fn owfs_put(
    size: u32,
    pages: u32,
    image: &mut [u8],
    path: &[u8],
    bytes: &[u8],
    owners: &mut [u8],
) -> OwfsAnswer
    ensures owners_after { (result, image.new, owners.new) ≡ put_answer size pages image.old owners.old path.now bytes.now }
    ensures puts { Puts size pages image.old owners.old path.now bytes.now (result.number ≡ 0) (λ x. result ≡ answer_for x) image.new }
{
    answers::tell_answer(put::put(image, size, pages, path, bytes, owners))
}

// Deletes the file at a path. Fills the owner table.
#[unsafe(no_mangle)]
pub extern "C" fn owfs_delete(
    size: u32,
    pages: u32,
    image: &mut [u8],
    path: &[u8],
    owners: &mut [u8],
) -> OwfsAnswer
    ensures owners_after { (result, image.new, owners.new) ≡ delete_answer size pages image.old owners.old path.now }
    ensures deletes { Deletes size pages image.old owners.old path.now (result.number ≡ 0) image.new }
{
    answers::tell_answer(delete::delete(image, size, pages, path, owners))
}

// Makes the directory at a path, without entries. Fills the owner table.
#[unsafe(no_mangle)]
pub extern "C" fn owfs_make_directory(
    size: u32,
    pages: u32,
    image: &mut [u8],
    path: &[u8],
    owners: &mut [u8],
) -> OwfsAnswer
    ensures owners_after { (result, image.new, owners.new) ≡ make_answer size pages image.old owners.old path.now }
    ensures makes { Makes size pages image.old owners.old path.now (result.number ≡ 0) (λ x. result ≡ answer_for x) image.new }
{
    answers::tell_answer(make::make(image, size, pages, path, owners))
}

// Removes the directory at a path, if it has no entries. Fills the owner table.
#[unsafe(no_mangle)]
pub extern "C" fn owfs_remove_directory(
    size: u32,
    pages: u32,
    image: &mut [u8],
    path: &[u8],
    owners: &mut [u8],
) -> OwfsAnswer
    ensures owners_after { (result, image.new, owners.new) ≡ remove_answer size pages image.old owners.old path.now }
    ensures removes { Removes size pages image.old owners.old path.now (result.number ≡ 0) image.new }
{
    answers::tell_answer(remove::remove(image, size, pages, path, owners))
}

// Puts bytes at a path in an order of page writes that may stop after any of them, and makes at most so many. Fills the owner table.
#[unsafe(no_mangle)]
pub extern "C" fn owfs_careful_put(
    size: u32,
    pages: u32,
    image: &mut [u8],
    path: &[u8],
    bytes: &[u8],
    owners: &mut [u8],
    allowed: u32,
) -> OwfsWrites
    ensures owners_after { (result, image.new, owners.new) ≡ careful_put_answer size pages image.old owners.old path.now bytes.now allowed }
    ensures carefully_puts { CarefullyPuts size pages image.old owners.old allowed path.now bytes.now (result.number ≡ 0) (count_told result) image.new }
{
    answers::tell_writes(careful::put(image, size, pages, path, bytes, owners, allowed as usize))
}

// Deletes the file at a path in an order of page writes that may stop after any of them, and makes at most so many. Fills the owner table.
#[unsafe(no_mangle)]
pub extern "C" fn owfs_careful_delete(
    size: u32,
    pages: u32,
    image: &mut [u8],
    path: &[u8],
    owners: &mut [u8],
    allowed: u32,
) -> OwfsWrites
    ensures owners_after { (result, image.new, owners.new) ≡ careful_delete_answer size pages image.old owners.old path.now allowed }
    ensures carefully_deletes { CarefullyDeletes size pages image.old owners.old allowed path.now (result.number ≡ 0) (count_told result) image.new }
{
    answers::tell_writes(careful::delete(image, size, pages, path, owners, allowed as usize))
}

// Clears the marks of pages that no chain owns, which a stopped careful edit leaves. Fills the owner table.
#[unsafe(no_mangle)]
pub extern "C" fn owfs_mend(
    size: u32,
    pages: u32,
    image: &mut [u8],
    owners: &mut [u8],
) -> OwfsMended
    ensures owners_after { (result, image.new, owners.new) ≡ mend_answer size pages image.old owners.old }
    ensures mends { Mends size pages image.old owners.old (result.number ≡ 0) (λ x. result ≡ mended_for x) result.cleared image.new }
{
    answers::tell_mended(mend::mend(image, size, pages, owners))
}

// Gathers an image into a second one of the same length: full packets, filled directory pages, consecutive chains. Fills the owner table.
#[unsafe(no_mangle)]
pub extern "C" fn owfs_gather(
    size: u32,
    pages: u32,
    image: &[u8],
    copy: &mut [u8],
    owners: &mut [u8],
) -> OwfsAnswer
    ensures owners_after { (result, copy.new, owners.new) ≡ gather_answer size pages image.now owners.old copy.old }
    ensures gathers { Gathers size pages image.now copy.old owners.old (result.number ≡ 0) copy.new }
{
    answers::tell_answer(gather::gather(image, size, pages, copy, owners))
}

// Starts a report, empty, with its limit and margin.
#[unsafe(no_mangle)]
pub extern "C" fn owfs_report_start(limit: i32, margin: u16) -> OwfsReport
    ensures value { result ≡ start_answer limit margin }
    ensures tells { Tells limit margin [] (report_of result) }
{
    OwfsReport::from(reports::start(limit, margin))
}

// Starts a report with a weight: version 1 or 2 with its K. Any other version is one that there is not, and every well-formed file then gets 25.
#[unsafe(no_mangle)]
pub extern "C" fn owfs_report_start_weighted(
    limit: i32,
    margin: u16,
    version: u32,
    knee: u32,
) -> OwfsReport
    ensures value { result ≡ start_weighted_answer limit margin version knee }
    ensures tells_with { TellsWith limit margin (asked_version version knee) [] (report_of result) }
{
    let asked = answers::asked_version(version, knee);
    OwfsReport::from(reports::start_weighted(limit, margin, asked))
}

// Adds a count file to a report, or refuses it and answers the report that was given.
#[unsafe(no_mangle)]
pub extern "C" fn owfs_report_add(report: OwfsReport, file: &[u8]) -> OwfsAdded
    ensures value { result ≡ add_answer report file.now }
    ensures adds { Adds (report_of report) file.now (added_of result) }
    ensures adds_weighted { AddsWeighted (report_of report) file.now (added_of result) }
    ensures report_value { report_of result.report ≡ report_after (report_of report) (added_of result) }
{
    answers::tell_added(reports::add(Report::from(report), file), report)
}
