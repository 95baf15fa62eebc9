// A chain's bytes laid into consecutive pages of another image, packets full but the last.
#![tactic(auto)]

ghost use Rattle.geometry.specs.Geometry.{Fit};
ghost use Rattle.packet.specs.Packet.{view_of};
ghost use Rattle.runs.specs.Runs.{Ready, Takes, KnownRun, LaysRun};

use chain::Cursor;
use geometry::{Geometry, MOST_PAGE_BYTES};

// A packet being filled: the bytes held in the buffer, and the page it will go to.
#[derive(Clone, Copy)]
pub struct Filling {
    pub held: usize,
    pub page: usize,
}

// Takes a packet's bytes into the buffer; what is full and has more to come goes to its page.
fn take_in(
    second: &mut [u8],
    g: Geometry,
    capacity: usize,
    buffer: &mut [u8],
    f: Filling,
    bytes: &[u8],
) -> Filling
    requires fit { Fit g second.old }
    requires ready { Ready g capacity buffer.old f bytes.now }
    ensures { Takes g buffer.old f bytes.now second.old buffer.new result second.new }
{
    let held = f.held;
    let page = f.page;
    let room = capacity - held;
    if bytes.len() <= room {
        geometry::put_bytes(buffer, held, bytes);
        return Filling {
            held: held + bytes.len(),
            page,
        };
    }
    geometry::put_bytes(buffer, held, &bytes[..room]);
    packet::write_page(second, g, page, &buffer[..capacity], page + 1);
    geometry::put_bytes(buffer, 0, &bytes[room..]);
    Filling {
        held: bytes.len() - room,
        page: page + 1,
    }
}

// Lays the bytes of a chain into the pages from `to` up; the page after the last.
pub fn copy_run(image: &[u8], g: Geometry, start: usize, second: &mut [u8], to: usize) -> usize
    requires fit { Fit g image.now }
    requires fit_2 { Fit g second.old }
    requires known_run { KnownRun g (view_of g image.now) start to }
    ensures { LaysRun g (view_of g image.now) start to second.old second.new result }
{
    let capacity = g.data_capacity();
    let mut buffer = [0u8; MOST_PAGE_BYTES];
    let mut f = Filling { held: 0, page: to };
    let mut c = Cursor::new(start, start);
    loop {
        let at = c.page;
        let (size, next) = c.follow(image, g);
        let bytes = packet::data_of(geometry::page_of(image, g, at), size);
        f = take_in(second, g, capacity, &mut buffer, f, bytes);
        if next.page == 0 {
            let page = f.page;
            let held = f.held;
            packet::write_page(second, g, page, &buffer[..held], 0);
            return page + 1;
        }
        c = next;
    }
}
