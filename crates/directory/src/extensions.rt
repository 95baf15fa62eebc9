// What an extension byte means.
ghost use Rattle.std.specs.Prelude.{◌≡◌};
ghost use Rattle.rules.specs.Names.{directory_number};
ghost use Rattle.directory.specs.Extensions.{IsKind, Means};

use geometry::{ATTRIBUTE, DIRECTORY, MOST_FILE};

// What an entry stands for.
#[derive(Clone, Copy, PartialEq, Eq)]
pub enum EntryKind {
    File,
    Directory,
    // a number that is neither: refusal 10
    Unknown,
}

// The number in the low seven bits, the attribute in the top bit (of a file read-only, of a subdirectory hidden), and what the number stands for.
#[derive(Clone, Copy)]
pub struct Extension {
    pub kind: EntryKind,
    pub number: u8,
    pub attribute: u8,
}

// What an extension byte's number stands for.
#[tactic(auto, using(crate::proofs::ExtensionLaws::file_yes, crate::proofs::ExtensionLaws::file_no, crate::proofs::ExtensionLaws::directory_yes, crate::proofs::ExtensionLaws::directory_no))]
fn kind_of(byte: u8) -> EntryKind
    ensures { IsKind byte result }
{
    match byte % ATTRIBUTE {
        0..=MOST_FILE => EntryKind::File,
        DIRECTORY => EntryKind::Directory,
        _ => EntryKind::Unknown,
    }
}

// Takes an extension byte apart.
pub fn extension_of(byte: u8) -> Extension
    ensures { Means byte result }
{
    let number = byte % ATTRIBUTE;
    Extension {
        kind: kind_of(byte),
        number,
        attribute: byte / ATTRIBUTE,
    }
}

// Whether an extension byte is a subdirectory's.
pub fn is_directory(byte: u8) -> bool
    ensures { result ≡ directory_number byte }
{
    extension_of(byte).kind == EntryKind::Directory
}
