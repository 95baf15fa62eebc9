// Chains: a position that steps from page to page and carries its count; a chain's pages claimed for an owner, and made free again.
#![tactic(auto)]

ghost use Rattle.std.specs.Prelude.{◌≡◌, Ok, ◌*◌, ◌<◌, length};
ghost use Rattle.geometry.specs.Geometry.{Fit};
ghost use Rattle.packet.specs.Packet.{view_of};
ghost use Rattle.owners.specs.Records.{records_of};
ghost use Rattle.owners.specs.OwnerLaws.{in_use};
ghost use Rattle.rules.specs.Answers.{answer_of};
ghost use Rattle.directory.specs.Faults.{test_of};
ghost use Rattle.chain.specs.Steps.{first_step, after, step_of};
ghost use Rattle.chain.specs.Claims.{IsGood, Counted, entered, enter_of, Claims, Releases};
ghost use Rattle.chain.specs.KnownChain.{KnownChain};
ghost use Rattle.chain.specs.Contents.{Counts, Fits, Copies};

use directory::control::{Kind, judge_page};
use geometry::Geometry;
use packet::Whole;
use refusals::{Fault, Refusal};

// A position in a chain: the page to come, the page that holds its number, and how many pages and data bytes were passed.
#[derive(Clone, Copy)]
pub struct Cursor {
    pub page: usize,
    pub from: usize,
    pub count: usize,
    pub bytes: usize,
}

// A chain claimed: its pages and its data bytes.
#[derive(Clone, Copy)]
pub struct Claim {
    pub pages: usize,
    pub bytes: usize,
}

impl Cursor {
    // Before a chain's first page, whose number stands in page `from`.
    pub fn new(page: usize, from: usize) -> Cursor
        ensures { result ≡ first_step page from }
    {
        Cursor {
            page,
            from,
            count: 0,
            bytes: 0,
        }
    }

    // Past the page to come, which holds this packet. The chain ends where the next page is 0.
    fn past(self, packet: Whole) -> Cursor
        requires { Counted self × (packet.length < 256) }
        ensures { result ≡ after self packet.length packet.next }
    {
        Cursor {
            page: packet.next,
            from: self.page,
            count: self.count + 1,
            bytes: self.bytes + packet.length,
        }
    }

    // Passes the page to come: its number (6), then its packet (2). How many data bytes it has, and the next position.
    pub fn step(self, image: &[u8], g: Geometry) -> Result<(usize, Cursor), Refusal>
        requires fit { Fit g image.now }
        requires counted { Counted self }
        ensures { result ≡ step_of g (view_of g image.now) self }
    {
        let page = self.page;
        if g.pages <= page {
            return Err(Refusal(Fault::PageNumber, self.from));
        }
        let Some(packet) = packet::judge(geometry::page_of(image, g, page), page, g.width) else {
            return Err(Refusal(Fault::Packet, page));
        };
        Ok((packet.length, self.past(packet)))
    }

    // Passes the page to come, which is known to hold a right packet: its check is not computed again.
    pub fn follow(self, image: &[u8], g: Geometry) -> (usize, Cursor)
        requires fit { Fit g image.now }
        requires counted { Counted self × (self.page < g.pages) × IsGood (view_of g image.now self.page) }
        ensures { Ok result ≡ step_of g (view_of g image.now) self }
    {
        let packet = packet::frame(geometry::page_of(image, g, self.page), g.width).unwrap();
        (packet.length, self.past(packet))
    }

    // Passes the page to come and judges it by the kind of its chain.
    pub fn enter(self, image: &[u8], g: Geometry, kind: Kind) -> Result<Cursor, Refusal>
        requires fit { Fit g image.now }
        requires counted { Counted self }
        ensures { answer_of result ≡ entered self (enter_of g (view_of g image.now) (test_of g kind) self) }
    {
        let page = self.page;
        let (size, next) = self.step(image, g)?;
        let bytes = packet::data_of(geometry::page_of(image, g, page), size);
        judge_page(kind, self.count, page, bytes, g)?;
        Ok(next)
    }
}

// Claims the pages of a chain for an owner, until the chain ends or a page is refused: its number (6), crossed (7), packet (2), then its kind.
pub fn claim_chain(
    image: &[u8],
    g: Geometry,
    kind: Kind,
    owner: usize,
    from: usize,
    start: usize,
    table: &mut [u8],
) -> Result<Claim, Refusal>
    requires fit { Fit g image.now }
    requires table_len { (length table.old ≡ 4 * g.pages) × (0 < owner) × (in_use (records_of table.old) < g.pages → owner < 65536) }
    ensures { Claims g (view_of g image.now) (test_of g kind) owner from start (records_of table.old) result (records_of table.new) }
{
    let mut c = Cursor::new(start, from);
    loop {
        let page = c.page;
        if owners::is_owned(table, page) {
            return Err(Refusal(Fault::Crossed, page));
        }
        let next = c.enter(image, g, kind)?;
        owners::claim(table, page, owner, c.count);
        if next.page == 0 {
            return Ok(Claim {
                pages: next.count,
                bytes: next.bytes,
            });
        }
        c = next;
    }
}

// Makes the pages of a chain that is known to stand free again.
pub fn release_chain(image: &[u8], g: Geometry, start: usize, table: &mut [u8])
    requires fit { Fit g image.now }
    requires known_chain { KnownChain g (view_of g image.now) start × (length table.old ≡ 4 * g.pages) }
    ensures { Releases g (view_of g image.now) start (records_of table.old) (records_of table.new) }
{
    let mut c = Cursor::new(start, start);
    loop {
        let page = c.page;
        let (_, next) = c.follow(image, g);
        owners::release(table, page);
        if next.page == 0 {
            return;
        }
        c = next;
    }
}

// How many bytes a chain has.
pub fn chain_bytes(image: &[u8], g: Geometry, start: usize) -> usize
    requires fit { Fit g image.now }
    requires known_chain { KnownChain g (view_of g image.now) start }
    ensures { Counts g (view_of g image.now) start result }
{
    let mut c = Cursor::new(start, start);
    loop {
        let (_, next) = c.follow(image, g);
        if next.page == 0 {
            return next.bytes;
        }
        c = next;
    }
}

// Copies a chain's bytes to the front of an output that is long enough; the rest of it stays.
pub fn copy_chain(image: &[u8], g: Geometry, start: usize, out: &mut [u8])
    requires fit { Fit g image.now }
    requires known_chain { KnownChain g (view_of g image.now) start }
    requires fits { Fits g (view_of g image.now) start out.old }
    ensures { Copies g (view_of g image.now) start out.old out.new }
{
    let mut c = Cursor::new(start, start);
    loop {
        let page = c.page;
        let (size, next) = c.follow(image, g);
        let bytes = packet::data_of(geometry::page_of(image, g, page), size);
        geometry::put_bytes(out, c.bytes, bytes);
        if next.page == 0 {
            return;
        }
        c = next;
    }
}
