// The page of a directory that a new entry goes to, in an image that is known to be accepted.
ghost use Rattle.geometry.specs.Geometry.{Fit};
ghost use Rattle.rules.specs.Chain.{views_of};
ghost use Rattle.lookup.specs.Searches.{HasTree};
ghost use Rattle.lookup.specs.Spaces.{Spaces};

use entries::Slot;
use geometry::Geometry;

// The page of a directory that a new entry goes to. No Option: both cases hand back a place.
#[derive(Clone, Copy)]
pub enum Space {
    // the first page with space
    At(Slot),
    // no page has space: the last page
    Full(Slot),
}

// The first page of a directory with space for an entry, in chain order; its last page if there is none.
pub fn find_space(image: &[u8], g: Geometry, start: usize) -> Space
    requires fit { Fit g image.now }
    requires has_tree { HasTree g (views_of g image.now) start }
    ensures { Spaces g (views_of g image.now) start result }
{
    let mut slot = Slot::first(image, g, start);
    let mut room = g.first_entries();
    loop {
        if slot.count < room {
            return Space::At(slot);
        }
        let Some(later) = slot.next_page(image, g) else {
            return Space::Full(slot);
        };
        slot = later;
        room = g.later_entries();
    }
}
