// Paths: none to eight four-byte directory names, then a four-byte file name and one byte 0 to 99; and the path of a directory: one to eight names.
ghost use Rattle.std.specs.Prelude.{◌≡◌, ◌*◌, ◌≤◌, length, take};
ghost use Rattle.geometry.specs.Number.{number};
ghost use Rattle.rules.specs.Names.{valid_name};
ghost use Rattle.rules.specs.Paths.{names_in, valid_names, path_of, directory_path_of};
ghost use Rattle.lookup.specs.ParsedPath.{parsed_path};

use geometry::{DIRECTORY, EXTENSION_BYTES, MOST_FILE, MOST_LEVELS, NAME_BYTES};
use refusals::{Fault, Refusal};

// Bytes of a path without directories, and with as many as the levels.
const LEAST_BYTES: usize = NAME_BYTES + EXTENSION_BYTES;

const MOST_BYTES: usize = MOST_LEVELS * NAME_BYTES + LEAST_BYTES;

// Most bytes of a directory's path.
const MOST_DIRECTORY_BYTES: usize = MOST_LEVELS * NAME_BYTES;

// A path taken apart: so many directory names, then the name and extension of the file, or of the directory itself.
#[derive(Clone, Copy)]
pub struct Parsed {
    pub names: usize,
    pub name: u32,
    pub extension: u8,
}

// Whether the first k names are valid.
fn valid_names(bytes: &[u8], k: usize) -> bool
    requires { 4 * k ≤ length bytes.now }
    ensures { result ≡ valid_names (names_in k bytes.now) }
{
    bytes[..NAME_BYTES * k].chunks_exact(NAME_BYTES).all(
        |name|
            requires { 4 ≤ length name.now }
            ensures { result ≡ valid_name (number (take 4 name.now)) }
        { directory::names::valid_name(geometry::number_at(name, 0, NAME_BYTES) as u32) },
    )
}

// Judges and takes apart a path of any bytes.
pub fn parse(bytes: &[u8]) -> Result<Parsed, Refusal>
    ensures { parsed_path bytes.now result ≡ path_of bytes.now }
{
    let n = bytes.len();
    if n % NAME_BYTES != EXTENSION_BYTES {
        return Err(Refusal(Fault::Path, 0));
    }
    if n < LEAST_BYTES {
        return Err(Refusal(Fault::Path, 0));
    }
    if MOST_BYTES < n {
        return Err(Refusal(Fault::Path, 0));
    }
    let valid = valid_names(bytes, n / NAME_BYTES);
    if !valid {
        return Err(Refusal(Fault::Path, 0));
    }
    let extension = bytes[n - 1];
    if MOST_FILE < extension {
        return Err(Refusal(Fault::Path, 0));
    }
    let name = geometry::number_at(bytes, n - LEAST_BYTES, NAME_BYTES);
    Ok(Parsed {
        names: n / NAME_BYTES - 1,
        name: name as u32,
        extension,
    })
}

// Judges and takes apart a directory's path of any bytes.
pub fn parse_directory(bytes: &[u8]) -> Result<Parsed, Refusal>
    ensures { parsed_path bytes.now result ≡ directory_path_of bytes.now }
{
    let n = bytes.len();
    if n % NAME_BYTES != 0 {
        return Err(Refusal(Fault::Path, 0));
    }
    if n < NAME_BYTES {
        return Err(Refusal(Fault::Path, 0));
    }
    if MOST_DIRECTORY_BYTES < n {
        return Err(Refusal(Fault::Path, 0));
    }
    let valid = valid_names(bytes, n / NAME_BYTES);
    if !valid {
        return Err(Refusal(Fault::Path, 0));
    }
    let name = geometry::number_at(bytes, n - NAME_BYTES, NAME_BYTES);
    Ok(Parsed {
        names: n / NAME_BYTES - 1,
        name: name as u32,
        extension: DIRECTORY,
    })
}
