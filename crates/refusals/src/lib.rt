// Why a call refuses, as document 01 numbers it, and the page that it tells.
#![tactic(auto)]

ghost use Rattle.std.specs.Prelude.{◌≡◌};
ghost use Rattle.refusals.specs.Numbers.{number_of};

// What a call refuses, with the number that an exported call answers.
#[derive(Clone, Copy, Debug, PartialEq, Eq)]
pub enum Fault {
    // page length, page count, image length or owner table
    Sizes = 1,
    // packet length or check
    Packet = 2,
    // marker of a control field
    Marker = 3,
    // control field; a local bitmap for too many pages
    Control = 4,
    // work in progress
    InProgress = 5,
    // start page 0 or past the last page; pointer past it
    PageNumber = 6,
    // page in two chains or twice in one
    Crossed = 7,
    // page count, bitmap byte count, or entries not whole
    Count = 8,
    // name of an entry
    Name = 9,
    // extension number, or a stamp without its entry
    Extension = 10,
    // name and extension twice
    Twice = 11,
    // nested too deep
    Depth = 12,
    // bitmap; its page is the lowest bit that disagrees
    Bitmap = 13,
    // path malformed
    Path = 14,
    // file, directory or entry number absent
    Absent = 15,
    // file is read-only
    ReadOnly = 16,
    // too few free pages
    NoRoom = 17,
    // output too short
    ShortOutput = 18,
    // dump malformed
    Dump = 19,
    // directory has entries
    NotEmpty = 20,
    // directory exists
    Exists = 21,
    // directory on the path is hidden
    Hidden = 22,
}

// A refusal: what it refuses, and the page that document 01 tells with it.
#[derive(Clone, Copy, Debug, PartialEq, Eq)]
pub struct Refusal(pub Fault, pub usize);

impl Fault {
    // Document 01's number.
    pub fn number(self) -> u8
        ensures { result ≡ number_of self }
    {
        self as u8
    }
}
