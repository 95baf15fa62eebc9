// Entries found by name in an image that is known to be accepted: in a directory, and along the directories of a path.
#![tactic(auto)]

pub mod path;
pub mod space;

ghost use Rattle.std.specs.Prelude.{◌≡◌, Ok, ◌+◌, ◌*◌, ◌≤◌, length};
ghost use Rattle.geometry.specs.Geometry.{Fit};
ghost use Rattle.rules.specs.Chain.{views_of};
ghost use Rattle.listing.specs.KnownTree.{HasImage};
ghost use Rattle.lookup.specs.Searches.{HasTree, Places, Finds, entered, Resolves};
ghost use Rattle.lookup.specs.ParsedPath.{parsed_path};
ghost use Rattle.lookup.specs.Targets.{LooksUp, Looks, LooksFor};

use crate::path::Parsed;
use directory::entries::Item;
use directory::extensions::extension_of;
use entries::Slot;
use geometry::{DIRECTORY, Geometry, NAME_BYTES, ROOT};
use refusals::{Fault, Refusal};
use rules::Entry;

// Where an entry stands: its place, how many stamps stand right before it, and itself.
#[derive(Clone, Copy)]
pub struct Spot {
    pub slot: Slot,
    pub stamps: usize,
    pub entry: Entry,
}

// A directory that the names of a path lead to: its start page, its name as those below it give it, and whether it or one on the way to it is hidden.
#[derive(Clone, Copy)]
pub struct Reached {
    pub start: usize,
    pub name: u32,
    pub hidden: bool,
}

// What stands at a path whose directories are there.
#[derive(Clone, Copy)]
pub enum PathLookup {
    // nothing: the directory that would hold it, its name and extension
    Absent(Reached, u32, u8),
    // the directory that holds it, and where its entry stands
    At(Reached, Spot),
}

// The place of a directory's entry with this key.
pub fn find_place(image: &[u8], g: Geometry, start: usize, key: u64) -> Option<Spot>
    requires fit { Fit g image.now }
    requires has_tree { HasTree g (views_of g image.now) start }
    ensures { Places g (views_of g image.now) start key result }
{
    let mut slot = Slot::first(image, g, start);
    let mut stamps = 0;
    while let Some(at) = slot.next_entry(image, g) {
        slot = at.past();
        let Item::Plain(e) = at.item(image, g) else {
            stamps += 1;
            continue;
        };
        if entries::key_of(e.name, e.extension) == key {
            return Some(Spot {
                slot: at,
                stamps,
                entry: e,
            });
        }
        stamps = 0;
    }
    None
}

// The entry of a directory with this key.
pub fn find_entry(image: &[u8], g: Geometry, start: usize, key: u64) -> Option<Entry>
    requires fit { Fit g image.now }
    requires has_tree { HasTree g (views_of g image.now) start }
    ensures { Finds g (views_of g image.now) start key result }
{
    let spot = find_place(image, g, start, key)?;
    Some(spot.entry)
}

// One name on: the subdirectory of an entry, hidden if its top bit is set or if a directory above it is hidden.
fn step_down(from: Reached, name: u32, e: Entry) -> Reached
    ensures { result ≡ entered from name e }
{
    let mut hidden = from.hidden;
    if extension_of(e.extension).attribute == 1 {
        hidden = true;
    }
    Reached {
        start: e.start,
        name,
        hidden,
    }
}

// The directory that so many names of a path lead to, the first of them at a place of the path, from a directory on. 15.
pub fn resolve(
    image: &[u8],
    g: Geometry,
    from: Reached,
    path: &[u8],
    at: usize,
    names: usize,
) -> Result<Reached, Refusal>
    requires fit { Fit g image.now }
    requires has_tree { HasTree g (views_of g image.now) from.start × (at + 4 * names ≤ length path.now) }
    ensures { Resolves g (views_of g image.now) from path.now at names result }
{
    if names == 0 {
        return Ok(from);
    }
    let name = geometry::number_at(path, at, NAME_BYTES) as u32;
    let Some(e) = find_entry(image, g, from.start, entries::key_of(name, DIRECTORY)) else {
        return Err(Refusal(Fault::Absent, 0));
    };
    let below = step_down(from, name, e);
    resolve(image, g, below, path, at + NAME_BYTES, names - 1)
}

// What stands at a path that was taken apart, in an image that is known to be accepted. 15.
fn find_parsed(
    image: &[u8],
    g: Geometry,
    path: &[u8],
    parsed: Parsed,
) -> Result<PathLookup, Refusal>
    requires fit { Fit g image.now }
    requires has_image { HasImage g (views_of g image.now) × (4 * parsed.names ≤ length path.now) }
    ensures { LooksUp g (views_of g image.now) (parsed_path path.now (Ok parsed)) result }
{
    let root = Reached {
        start: 0,
        name: ROOT,
        hidden: false,
    };
    let d = resolve(image, g, root, path, 0, parsed.names)?;
    let key = entries::key_of(parsed.name, parsed.extension);
    let Some(spot) = find_place(image, g, d.start, key) else {
        return Ok(PathLookup::Absent(d, parsed.name, parsed.extension));
    };
    Ok(PathLookup::At(d, spot))
}

// What stands at a file's path of an image that is known to be accepted. 14, 15.
pub fn find_file(image: &[u8], g: Geometry, path: &[u8]) -> Result<PathLookup, Refusal>
    requires fit { Fit g image.now }
    requires has_image { HasImage g (views_of g image.now) }
    ensures { Looks g (views_of g image.now) path.now result }
{
    find_parsed(image, g, path, crate::path::parse(path)?)
}

// What stands at a directory's path of an image that is known to be accepted. 14, 15.
pub fn find_directory(image: &[u8], g: Geometry, path: &[u8]) -> Result<PathLookup, Refusal>
    requires fit { Fit g image.now }
    requires has_image { HasImage g (views_of g image.now) }
    ensures { LooksFor g (views_of g image.now) path.now result }
{
    find_parsed(image, g, path, crate::path::parse_directory(path)?)
}
