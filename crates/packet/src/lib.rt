// Packets: a page judged, its data read, a packet written; page writes within a budget.
#![tactic(auto)]

ghost use Rattle.std.specs.Prelude.{◌≡◌, ◌+◌, ◌*◌, ◌≤◌, ◌<◌, length, take, drop};
ghost use Rattle.geometry.specs.Geometry.{Fit};
ghost use Rattle.packet.specs.Packet.{packet_of, written, write_page, write, is_packet_of};
ghost use Rattle.packet.specs.Judged.{frame_of, judged};
ghost use Rattle.packet.specs.Budgets.{Progress, unlimited, with_limit, write_one};

use geometry::{CHECK_BYTES, FRAME_BYTES, Geometry, LENGTH_BYTES};

// A register inverted is what is left of this number without it.
const INVERTED: usize = 0xFFFF;

// What a packet says of itself: so many data bytes, and its continuation pointer.
#[derive(Clone, Copy)]
pub struct Whole {
    pub length: usize,
    pub next: usize,
}

// Length and pointer of the packet in a page, if its length is right; its check is not computed.
pub fn frame(page: &[u8], n: usize) -> Option<Whole>
    requires { (1 ≤ n) × (n ≤ 2) × (0 < length page.now) }
    ensures { result ≡ judged (frame_of n page.now) }
{
    let size = usize::from(page[0]);
    if size < n {
        return None;
    }
    if page.len() < size + FRAME_BYTES {
        return None;
    }
    Some(Whole {
        length: size - n,
        next: geometry::number_at(page, size + LENGTH_BYTES - n, n),
    })
}

// Length and pointer of the packet in the page with number p, if its length and then its check are right.
pub fn judge(page: &[u8], p: usize, n: usize) -> Option<Whole>
    requires { (1 ≤ n) × (n ≤ 2) × (p < 65536) × (0 < length page.now) }
    ensures { result ≡ judged (packet_of n p page.now) }
{
    let packet = frame(page, n)?;
    let end = packet.length + n + LENGTH_BYTES;
    let register = crc16::crc_of(p as u16, &page[..end]);
    if geometry::number_at(page, end, CHECK_BYTES) != INVERTED - usize::from(register) {
        return None;
    }
    Some(packet)
}

// The data bytes of a packet.
pub fn data_of<'a>(page: &'a [u8], size: usize) -> &'a [u8]
    requires { size + 1 ≤ length page.now }
    ensures { result.now ≡ take size (drop 1 page.now) }
{
    let end = size + LENGTH_BYTES;
    &page[LENGTH_BYTES..end]
}

// Writes a packet into the page with number p; the rest of the page stays.
pub fn write_packet(page: &mut [u8], p: usize, n: usize, bytes: &[u8], next: usize)
    requires { (1 ≤ n) × (n ≤ 2) × (p < 65536) × (length bytes.now + n + 3 ≤ length page.old) × (length page.old ≤ 256) }
    ensures { page.new ≡ written n p bytes.now next page.old }
{
    let size = bytes.len() + n;
    let start = bytes.len() + LENGTH_BYTES;
    let end = size + LENGTH_BYTES;
    geometry::put_number(page, 0, LENGTH_BYTES, size);
    geometry::put_bytes(page, LENGTH_BYTES, bytes);
    geometry::put_number(page, start, n, next);
    let sum = crc16::crc_of(p as u16, &page[..end]);
    geometry::put_number(page, end, CHECK_BYTES, INVERTED - usize::from(sum));
}

// The same in a page of an image.
pub fn write_page(image: &mut [u8], g: Geometry, p: usize, bytes: &[u8], next: usize)
    requires fit { Fit g image.old }
    requires p_lt_pages { (p < g.pages) × (length bytes.now + g.width + 3 ≤ g.size) }
    ensures { image.new ≡ write_page g (write p bytes.now next) image.old }
{
    let at = p * g.size;
    let end = at + g.size;
    write_packet(&mut image[at..end], p, g.width, bytes, next);
}

// Whether the page with number p holds a right packet with these bytes and this pointer.
fn holds(page: &[u8], p: usize, n: usize, bytes: &[u8], next: usize) -> bool
    requires { (1 ≤ n) × (n ≤ 2) × (p < 65536) × (0 < length page.now) }
    ensures { result ≡ is_packet_of (packet_of n p page.now) bytes.now next }
{
    let Some(packet) = judge(page, p, n) else {
        return false;
    };
    if packet.next != next {
        return false;
    }
    data_of(page, packet.length) == bytes
}

// How many page writes are allowed yet.
#[derive(Clone, Copy)]
pub struct Budget {
    // without a limit every write is made
    pub limited: bool,
    pub left: usize,
    // a write was held back, since none was left
    pub stopped: bool,
}

impl Budget {
    // A budget without a limit.
    pub fn unlimited() -> Budget
        ensures { result ≡ unlimited }
    {
        Budget {
            limited: false,
            left: 0,
            stopped: false,
        }
    }

    // A budget of so many writes.
    pub fn limited(writes: usize) -> Budget
        ensures { result ≡ with_limit writes }
    {
        Budget {
            limited: true,
            left: writes,
            stopped: false,
        }
    }

    // Writes a packet into a page of an image. Within a limit a packet that stands there already is not written, and the write is held back if none is left.
    pub fn write(self, image: &mut [u8], g: Geometry, p: usize, bytes: &[u8], next: usize) -> Budget
        requires fit { Fit g image.old }
        requires p_lt_pages { (p < g.pages) × (length bytes.now + g.width + 3 ≤ g.size) }
        ensures { ◌≡◌ {A = Progress} (record { image = image.new; budget = result }) (write_one g (write p bytes.now next) (record { image = image.old; budget = self })) }
    {
        if self.limited {
            if holds(geometry::page_of(image, g, p), p, g.width, bytes, next) {
                return self;
            }
            if self.left == 0 {
                return Budget {
                    limited: true,
                    left: 0,
                    stopped: true,
                };
            }
            write_page(image, g, p, bytes, next);
            return Budget {
                limited: true,
                left: self.left - 1,
                stopped: self.stopped,
            };
        }
        write_page(image, g, p, bytes, next);
        self
    }
}
