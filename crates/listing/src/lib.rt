// The entry at a walk position of an image that is known to be accepted, found in the image alone.
#![tactic(auto)]

ghost use Rattle.std.specs.Prelude.{◌≡◌, ◌+◌, ◌≤◌};
ghost use Rattle.geometry.specs.Geometry.{Fit};
ghost use Rattle.rules.specs.Chain.{views_of};
ghost use Rattle.listing.specs.KnownTree.{HasDirectory, HasPart, HasImage, line_of, Heads, LooksPart, LooksDirectory, LooksImage};

use directory::entries::Item;
use directory::extensions::{extension_of, is_directory};
use entries::Slot;
use geometry::{Geometry, MOST_LEVELS};
use rules::{Entry, Line};
use std::ops::ControlFlow;

// The line of an entry with so many bytes.
fn line_of(level: usize, e: Entry, length: usize) -> Line
    ensures { result ≡ line_of level e length }
{
    let x = extension_of(e.extension);
    Line {
        level,
        name: e.name,
        extension: x.number,
        attribute: x.attribute,
        start: e.start,
        pages: e.pages,
        length,
    }
}

// The line of an entry: a file's bytes are counted along its chain.
fn entry_line(image: &[u8], g: Geometry, levels: usize, level: usize, e: Entry) -> Line
    requires fit { Fit g image.now }
    requires has_part { HasPart g (views_of g image.now) levels e }
    ensures { Heads g (views_of g image.now) levels level e result }
{
    if is_directory(e.extension) {
        return line_of(level, e, 0);
    }
    line_of(level, e, chain::chain_bytes(image, g, e.start))
}

// Looks for the line at a position among those of one entry: its own, and all below a subdirectory. Breaks with the line, else tells how far past the last line the position lies.
#[cycle(look_directory_look_entry)]
fn look_entry(
    image: &[u8],
    g: Geometry,
    levels: usize,
    level: usize,
    e: Entry,
    k: usize,
) -> ControlFlow<Line, usize>
    requires fit { Fit g image.now }
    requires level_bound { (levels + level ≤ 8) × HasPart g (views_of g image.now) levels e }
    ensures { LooksPart g (views_of g image.now) levels level e k result }
{
    if k == 0 {
        return ControlFlow::Break(entry_line(image, g, levels, level, e));
    }
    if is_directory(e.extension) {
        return look_directory(image, g, levels - 1, level + 1, e.start, k - 1);
    }
    ControlFlow::Continue(k - 1)
}

// The same among those of a directory and all below it.
#[cycle(look_directory_look_entry)]
fn look_directory(
    image: &[u8],
    g: Geometry,
    levels: usize,
    level: usize,
    start: usize,
    k: usize,
) -> ControlFlow<Line, usize>
    requires fit { Fit g image.now }
    requires level_bound { (levels + level ≤ 8) × HasDirectory g (views_of g image.now) levels start }
    ensures { LooksDirectory g (views_of g image.now) levels level start k result }
{
    let mut slot = Slot::first(image, g, start);
    let mut left = k;
    while let Some(at) = slot.next_entry(image, g) {
        slot = at.past();
        let Item::Plain(e) = at.item(image, g) else {
            // a stamp has no line
            continue;
        };
        left = look_entry(image, g, levels, level, e, left)?;
    }
    ControlFlow::Continue(left)
}

// The entry at a walk position of an accepted image; none past the last.
pub fn line_at(image: &[u8], g: Geometry, k: usize) -> Option<Line>
    requires fit { Fit g image.now }
    requires has_image { HasImage g (views_of g image.now) }
    ensures { LooksImage g (views_of g image.now) k result }
{
    look_directory(image, g, MOST_LEVELS, 0, 0, k).break_value()
}
