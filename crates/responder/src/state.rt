//! A responder.
ghost use Rattle.std.specs.Prelude.{◌≡◌, ◌<◌, max};

use kiss_gate::ClientGate;
use packet_auth::KeyRing;
use page_cell::{PageCell, ReadPass, Receipt};
use sealed_reply::Reply;

/// Serves the clients of a link from the shared page.
#[derive(Drop)]
pub struct Responder<L: Drop> {
    pub(crate) link: L,
    pub(crate) pass: ReadPass,
    pub(crate) number: u32,
    pub(crate) keys: KeyRing,
    pub(crate) clients: ClientGate,
    // The latest reply; the next one is written in its place.
    pub(crate) reply: Reply,
    ghost small: { number < 8 },
}

impl<L: Drop> Responder<L> {
    /// Afterwards the responder's pass has seen at least as many entries as the receipt says. All else stays as it was.
    pub fn learn(&mut self, cell: &PageCell, receipt: Receipt)
        requires pass { self.old.pass.table ≡ cell.now.table }
        requires receipt { receipt.table ≡ cell.now.table }
        ensures same { (self.new.link ≡ self.old.link) × (self.new.number ≡ self.old.number)
            × (self.new.keys ≡ self.old.keys) × (self.new.clients ≡ self.old.clients) }
        ensures table { self.new.pass.table ≡ self.old.pass.table }
        ensures seen { self.new.pass.view.seen ≡ max self.old.pass.view.seen receipt.view.seen }
        ensures readings { self.new.pass.view.readings ≡ self.old.pass.view.readings }
        ensures watch { self.new.pass.view.watch ≡ self.old.pass.view.watch }
    {
        cell.learn(&mut self.pass, receipt);
    }
}
