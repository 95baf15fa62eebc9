// What the exported calls answer: plain numbers of 32 bits.
#![tactic(auto)]

ghost use Rattle.std.specs.Prelude.{◌≡◌};
ghost use Rattle.rules.specs.Answers.{answer_of};
ghost use Rattle.reports.specs.Answers.{answer_of as addAnswer};
ghost use Rattle.answers.specs.ExportedAnswers.{totals_for, entry_for, length_for, answer_for, writes_for, mended_for};
ghost use Rattle.answers.specs.ExportedReports.{version_for, knee_for, asked_version, version_of, report_of, report_for, added_for};
ghost use Rattle.answers.specs.Small.{Small, TotalsSmall, LineSmall, LengthSmall, DoneSmall, WritesSmall};

use refusals::Refusal;
use reports::{AddError, Report, Version};
use rules::{Line, Totals, WriteCount};

// What check answers: 0 and the totals, or the number of a refusal and its page.
#[repr(C)]
#[derive(Clone, Copy)]
pub struct OwfsTotals {
    pub number: u32,
    pub page: u32,
    pub used: u32,
    pub files: u32,
    pub directories: u32,
}

// What listing answers: 0 and a line, or the number of a refusal and its page.
#[repr(C)]
#[derive(Clone, Copy)]
pub struct OwfsEntry {
    pub number: u32,
    pub page: u32,
    pub level: u32,
    // four bytes as stored, the first lowest
    pub name: u32,
    pub extension: u32,
    pub attribute: u32,
    pub start: u32,
    pub pages: u32,
    pub length: u32,
}

// What reading answers: 0 and the bytes read, or the number of a refusal and its page.
#[repr(C)]
#[derive(Clone, Copy)]
pub struct OwfsLength {
    pub number: u32,
    pub page: u32,
    pub length: u32,
}

// What an edit answers: 0, or the number of a refusal and its page.
#[repr(C)]
#[derive(Clone, Copy)]
pub struct OwfsAnswer {
    pub number: u32,
    pub page: u32,
}

// What a careful edit answers: 0, the page writes made, and 1 if any are left, else 0; or the number of a refusal and its page.
#[repr(C)]
#[derive(Clone, Copy)]
pub struct OwfsWrites {
    pub number: u32,
    pub page: u32,
    pub made: u32,
    pub left: u32,
}

// What a mend answers: 0 and the marks cleared, or the number of a refusal and its page.
#[repr(C)]
#[derive(Clone, Copy)]
pub struct OwfsMended {
    pub number: u32,
    pub page: u32,
    pub cleared: u32,
}

// A report: exact sums, limit and greatest peak, 1 if there is a greatest (else 0), margin, version and knee; the number of files is the last. Weight, version and knee are 0 in a report without weight.
#[repr(C)]
#[derive(Clone, Copy)]
pub struct OwfsReport {
    pub cycles: u64,
    pub near: u64,
    pub weight: u64,
    pub limit: i32,
    pub greatest: i32,
    // has_greatest in C
    pub found: u32,
    pub margin: u32,
    pub version: u32,
    pub knee: u32,
    pub files: u32,
}

// What adding a count file answers: 0 or the number of a refusal, page 0, and the report, after a refusal the one that was given.
#[repr(C)]
#[derive(Clone, Copy)]
pub struct OwfsAdded {
    pub number: u32,
    pub page: u32,
    pub report: OwfsReport,
}

// An answer of the check as the caller sees it.
pub fn tell(answer: Result<Totals, Refusal>) -> OwfsTotals
    requires { Small TotalsSmall (answer_of answer) }
    ensures { result ≡ totals_for (answer_of answer) }
{
    match answer {
        Ok(totals) => OwfsTotals {
            number: 0,
            page: 0,
            used: totals.used as u32,
            files: totals.files as u32,
            directories: totals.directories as u32,
        },
        Err(Refusal(fault, page)) => OwfsTotals {
            number: u32::from(fault.number()),
            page: page as u32,
            used: 0,
            files: 0,
            directories: 0,
        },
    }
}

// An answer of listing as the caller sees it.
pub fn tell_entry(answer: Result<Line, Refusal>) -> OwfsEntry
    requires { Small LineSmall (answer_of answer) }
    ensures { result ≡ entry_for (answer_of answer) }
{
    match answer {
        Ok(line) => OwfsEntry {
            number: 0,
            page: 0,
            level: line.level as u32,
            name: line.name,
            extension: u32::from(line.extension),
            attribute: u32::from(line.attribute),
            start: line.start as u32,
            pages: line.pages as u32,
            length: line.length as u32,
        },
        Err(Refusal(fault, page)) => OwfsEntry {
            number: u32::from(fault.number()),
            page: page as u32,
            level: 0,
            name: 0,
            extension: 0,
            attribute: 0,
            start: 0,
            pages: 0,
            length: 0,
        },
    }
}

// An answer of reading as the caller sees it.
pub fn tell_length(answer: Result<usize, Refusal>) -> OwfsLength
    requires { Small LengthSmall (answer_of answer) }
    ensures { result ≡ length_for (answer_of answer) }
{
    match answer {
        Ok(length) => OwfsLength {
            number: 0,
            page: 0,
            length: length as u32,
        },
        Err(Refusal(fault, page)) => OwfsLength {
            number: u32::from(fault.number()),
            page: page as u32,
            length: 0,
        },
    }
}

// An answer of an edit as the caller sees it.
pub fn tell_answer(answer: Result<(), Refusal>) -> OwfsAnswer
    requires { Small DoneSmall (answer_of answer) }
    ensures { result ≡ answer_for (answer_of answer) }
{
    match answer {
        Ok(()) => OwfsAnswer { number: 0, page: 0 },
        Err(Refusal(fault, page)) => OwfsAnswer {
            number: u32::from(fault.number()),
            page: page as u32,
        },
    }
}

// An answer of a careful edit as the caller sees it.
pub fn tell_writes(answer: Result<WriteCount, Refusal>) -> OwfsWrites
    requires { Small WritesSmall (answer_of answer) }
    ensures { result ≡ writes_for (answer_of answer) }
{
    match answer {
        Ok(count) => OwfsWrites {
            number: 0,
            page: 0,
            made: count.made as u32,
            left: u32::from(count.left),
        },
        Err(Refusal(fault, page)) => OwfsWrites {
            number: u32::from(fault.number()),
            page: page as u32,
            made: 0,
            left: 0,
        },
    }
}

// An answer of a mend as the caller sees it.
pub fn tell_mended(answer: Result<usize, Refusal>) -> OwfsMended
    requires { Small LengthSmall (answer_of answer) }
    ensures { result ≡ mended_for (answer_of answer) }
{
    match answer {
        Ok(cleared) => OwfsMended {
            number: 0,
            page: 0,
            cleared: cleared as u32,
        },
        Err(Refusal(fault, page)) => OwfsMended {
            number: u32::from(fault.number()),
            page: page as u32,
            cleared: 0,
        },
    }
}

// The number of an unknown version.
pub const NO_VERSION: u32 = 0xFFFFFFFF;

// A version's number as the caller sees it: 0 without weight.
fn tell_version(version: Version) -> u32
    ensures { result ≡ version_for version }
{
    match version {
        Version::None => 0,
        Version::One(_) => 1,
        Version::Two(_) => 2,
        Version::Unknown => NO_VERSION,
    }
}

// A version's K as the caller sees it: 0 where there is none.
fn tell_knee(version: Version) -> u32
    ensures { result ≡ knee_for version }
{
    match version {
        Version::None => 0,
        Version::One(knee) | Version::Two(knee) => knee,
        Version::Unknown => 0,
    }
}

// The version that a caller asks for by its number; no number but 1 and 2 is one.
pub fn asked_version(number: u32, knee: u32) -> Version
    ensures { result ≡ asked_version number knee }
{
    match number {
        1 => Version::One(knee),
        2 => Version::Two(knee),
        _ => Version::Unknown,
    }
}

// The version of a report that a caller hands over: 0 is one without weight.
fn version_of(number: u32, knee: u32) -> Version
    ensures { result ≡ version_of number knee }
{
    match number {
        0 => Version::None,
        _ => asked_version(number, knee),
    }
}

// A report as the caller sees it.
impl From<Report> for OwfsReport {
    ghost from_gives = { λ report told. told ≡ report_for report };

    fn from(report: Report) -> OwfsReport {
        let number = tell_version(report.version);
        let knee = tell_knee(report.version);
        OwfsReport {
            cycles: report.cycles,
            near: report.near,
            weight: report.weight,
            limit: report.limit,
            greatest: report.greatest,
            found: u32::from(report.found),
            margin: report.margin,
            version: number,
            knee,
            files: report.files,
        }
    }
}

// The report that a caller hands over, whoever made it.
impl From<OwfsReport> for Report {
    ghost from_gives = { λ told report. report ≡ report_of told };

    fn from(told: OwfsReport) -> Report {
        Report {
            cycles: told.cycles,
            near: told.near,
            weight: told.weight,
            limit: told.limit,
            greatest: told.greatest,
            found: told.found != 0,
            margin: told.margin,
            version: version_of(told.version, told.knee),
            files: told.files,
        }
    }
}

// An answer of adding a count file as the caller sees it; after a refusal with the report that was given.
pub fn tell_added(answer: Result<Report, AddError>, given: OwfsReport) -> OwfsAdded
    ensures { result ≡ added_for given (addAnswer answer) }
{
    match answer {
        Ok(report) => OwfsAdded {
            number: 0,
            page: 0,
            report: OwfsReport::from(report),
        },
        Err(refusal) => OwfsAdded {
            number: u32::from(refusal.number()),
            page: 0,
            report: given,
        },
    }
}
