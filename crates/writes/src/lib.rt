// The page writes of an edit: bytes stored as a chain of free pages, and a directory's pages written with its entries changed.
#![tactic(auto)]

ghost use Rattle.std.specs.Prelude.{◌≡◌, ◌+◌, ◌-◌, ◌≤◌, ◌<◌, ◌*◌, length};
ghost use Rattle.owners.specs.Records.{records_of};
ghost use Rattle.geometry.specs.Geometry.{Fit};
ghost use Rattle.packet.specs.Packet.{view_of};
ghost use Rattle.packet.specs.Budgets.{Open};
ghost use Rattle.rules.specs.Chain.{pages_for};
ghost use Rattle.writes.specs.Stores.{HasRoom, Stores};
ghost use Rattle.writes.specs.Changes.{over_front, spliced, HasSpan, Rewrites, CanChange, Changes};

use chain::Cursor;
use entries::Slot;
use geometry::{Geometry, MOST_PAGE_BYTES};
use packet::Budget;

// How many pages so many bytes take: no bytes take one.
pub fn pages_for(bytes: usize, capacity: usize) -> usize
    requires { 1 ≤ capacity }
    ensures { result ≡ pages_for capacity bytes }
{
    if bytes == 0 {
        return 1;
    }
    (bytes - 1) / capacity + 1
}

// Stores bytes as a chain of the lowest free pages from a page on, all packets full but the last.
pub fn store_chain(
    image: &mut [u8],
    g: Geometry,
    table: &[u8],
    from: usize,
    bytes: &[u8],
    budget: Budget,
) -> Budget
    requires fit { Fit g image.old }
    requires table_len { (length table.now ≡ 4 * g.pages) × HasRoom g (records_of table.now) from (length bytes.now) × Open budget }
    ensures { Stores g (records_of table.now) from bytes.now image.old budget image.new result }
{
    let capacity = g.data_capacity();
    let mut left = budget;
    let mut page = owners::next_free(table, from);
    let mut rest = bytes;
    while capacity < rest.len() {
        let (full, more) = rest.split_at(capacity);
        let next = owners::next_free(table, page + 1);
        left = left.write(image, g, page, full, next);
        if left.stopped {
            return left;
        }
        page = next;
        rest = more;
    }
    left.write(image, g, page, rest, 0)
}

// Copies bytes, with those from one place to another exchanged for others, to the front of an output.
fn splice(bytes: &[u8], from: usize, to: usize, new: &[u8], out: &mut [u8])
    requires { (from ≤ to) × (to ≤ length bytes.now) × (from + length new.now + (length bytes.now - to) ≤ length out.old) }
    ensures { out.new ≡ over_front (spliced from to new.now bytes.now) out.old }
{
    geometry::put_bytes(out, 0, &bytes[..from]);
    geometry::put_bytes(out, from, new);
    geometry::put_bytes(out, from + new.len(), &bytes[to..]);
}

// Writes a page again with the data from one place to another exchanged for others, and with a pointer.
fn rewrite(
    image: &mut [u8],
    g: Geometry,
    page: usize,
    from: usize,
    to: usize,
    new: &[u8],
    next: usize,
    budget: Budget,
) -> Budget
    requires fit { Fit g image.old }
    requires page_lt_pages { (page < g.pages) × HasSpan g (view_of g image.old) page from to (length new.now) }
    ensures { Rewrites g page from to new.now next image.old budget image.new result }
{
    let (size, _) = Cursor::new(page, page).follow(image, g);
    let mut kept = [0u8; MOST_PAGE_BYTES];
    let bytes = packet::data_of(geometry::page_of(image, g, page), size);
    splice(bytes, from, to, new, &mut kept);
    let end = from + new.len() + (size - to);
    budget.write(image, g, page, &kept[..end], next)
}

// A change of a directory's pages: on the page of `slot` other bytes replace its entries `first` to `last`, `last` not among them, and the page's later entries follow them;
// or, if it is not 0, the page `joins` comes after that page with these bytes.
#[derive(Clone, Copy)]
pub struct Change {
    pub slot: Slot,
    pub first: usize,
    pub last: usize,
    pub joins: usize,
}

// Writes a directory's pages with such a change: a page that joins before the page that points to it.
pub fn change_pages(
    image: &mut [u8],
    g: Geometry,
    change: Change,
    new: &[u8],
    budget: Budget,
) -> Budget
    requires fit { Fit g image.old }
    requires can_change { CanChange g (view_of g image.old) change (length new.now) × Open budget }
    ensures { Changes g change new.now image.old budget image.new result }
{
    let slot = change.slot;
    if change.joins == 0 {
        let width = g.entry_size();
        let from = slot.skip + width * change.first;
        let to = slot.skip + width * change.last;
        return rewrite(image, g, slot.page, from, to, new, slot.next.page, budget);
    }
    let left = budget.write(image, g, change.joins, new, 0);
    if left.stopped {
        return left;
    }
    rewrite(image, g, slot.page, 0, 0, b"", change.joins, left)
}
