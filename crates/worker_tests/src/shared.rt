//! What the tests of workers share: a comparison, a moment, the settings of a station, a hub in which one feed's worker runs, and
//! what is on the loopback.
ghost use Rattle.std.specs.Prelude.{◌≡◌, ◌<◌, ◌≤◌, [], All, IfSome, length};
ghost use Rattle.feed_workers.specs.Keeping.{IsOfFeed};
ghost use Rattle.page_cell.specs.Passes.{claim_of, key_of};
ghost use Rattle.system_fold.specs.Settings.{AreValid};

use host_links::{HostOutside, UdpLink};
use journal_entry::{ENTRY_ROOM, Entry, write_entry};
use outside_traits::{Address, Outside};
use page_cell::{CellParts, FeedPass, PageCell};
use std::alloc::Global;
use std::fmt::Debug;
use std::marker::Brand;
use std::net::{IpAddr, Ipv4Addr, Net, SocketAddr, UdpSocket};
use std::process::Abort;
use std::rt::Files;
use std::sync::Wait;
use std::time::{Clock, Duration};
use system_fold::{Settings, SourceKind};
use tick_units::Local;
use verdict_journal::{Hub, HubName, HubParts, Journal};

/// What `assert_eq!` does, as a call, which is proved in a tenth of the time.
pub fn same<T: PartialEq + Debug + Drop>(rt: &impl Abort, left: T, right: T) {
    assert_eq!(*rt; left, right);
}

/// The host's counter at this microsecond.
pub fn moment(microseconds: u32) -> Local {
    Local::new(u64::from(microseconds)).unwrap()
}

/// The settings of a station without a source.
pub fn without_sources() -> Settings
    ensures { AreValid result }
{
    Settings::new(1000)
}

/// The settings of a station with one source.
pub fn settings_of(kind: SourceKind) -> Settings
    ensures valid { AreValid result }
    ensures one { length result.sources ≡ 1 }
{
    let mut settings = Settings::new(1000);
    settings.add(kind);
    settings
}

/// What the worker of a feed does in a hub, with the feed's pass.
pub trait Work: Drop {
    /// What it did, and what it gives back beside the pass.
    type Done: Drop;

    fn run<N: HubName, R: Wait>(
        self,
        rt: &R,
        hub: &Hub<N>,
        pass: FeedPass,
    ) -> (Self::Done, FeedPass)
        requires { IsOfFeed N.table (length N.settings.sources) (claim_of pass.view).number pass }
        ensures { result.1.table ≡ N.table };
}

/// The pass of the last feed of these, of a station of this many feeds.
pub fn pop_feed<N: HubName>(feeds: &mut Vec<FeedPass>, sources: u32) -> Option<FeedPass>
    requires feeds { All (λ f. f.table ≡ N.table) feeds.old.items }
    requires sources { sources ≡ length N.settings.sources }
    ensures feed { IfSome result (λ f. IsOfFeed N.table (length N.settings.sources) (claim_of f.view).number f) }
    ensures feeds { All (λ f. f.table ≡ N.table) feeds.new.items }
{
    let pass = feeds.pop()?;
    if pass.number() >= sources {
        return None;
    }
    Some(pass)
}

/// Puts a pass back to those of the feeds, if there is one. Where memory is short, it is lost.
pub fn put_back<N: HubName>(feeds: &mut Vec<FeedPass>, pass: Option<FeedPass>)
    requires feeds { All (λ f. f.table ≡ N.table) feeds.old.items }
    requires pass { IfSome pass (λ f. f.table ≡ N.table) }
    ensures { All (λ f. f.table ≡ N.table) feeds.new.items }
{
    let Some(pass) = pass else {
        return;
    };
    match feeds.push(pass) {
        Ok(()) | Err(_) => {}
    }
}

// What a worker does in a hub with the pass of the last feed, which it gives back.
fn work_in<N: HubName, R: Wait, W: Work>(
    rt: &R,
    hub: &Hub<N>,
    feeds: &mut Vec<FeedPass>,
    sources: u32,
    work: W,
) -> Option<W::Done>
    requires feeds { All (λ f. f.table ≡ N.table) feeds.old.items }
    requires sources { sources ≡ length N.settings.sources }
    ensures { All (λ f. f.table ≡ N.table) feeds.new.items }
{
    let pass = pop_feed::<N>(feeds, sources)?;
    let (done, pass) = work.run(rt, hub, pass);
    put_back::<N>(feeds, Some(pass));
    Some(done)
}

// Runs a worker in a hub for this many entries: what it did, and the journal.
fn in_hub<N: HubName, R: Wait, W: Work>(
    rt: &R,
    alloc: Global,
    parts: CellParts,
    settings: &Settings,
    limit: u32,
    work: W,
) -> Option<(W::Done, Journal)>
    requires cell { (parts.cell.table ≡ N.table) × (parts.baton.table ≡ N.table) }
    requires settings { (key_of parts.baton.view ≡ settings.now) × (settings.now ≡ N.settings) }
    requires valid { AreValid settings.now }
    requires fresh { parts.baton.view.list ≡ [] }
    requires limit { (limit ≡ N.limit) × (0 < limit) × (limit ≤ 4194304) }
    requires feeds { All (λ f. f.table ≡ N.table) parts.feeds.items }
{
    let Ok(
        HubParts {
            hub,
            mut feeds,
            readers: _,
        },
    ) = Hub::<N>::open(alloc, parts, settings, limit)
    else {
        return None;
    };
    let done = work_in(rt, &hub, &mut feeds, settings.count(), work);
    let journal = hub.close(feeds, Vec::new(alloc));
    Some((done?, journal))
}

// Adds the line of an entry to a text. Where memory is short, the text is not what the test wants.
fn add_line(text: &mut String, entry: &Entry) {
    let mut line = [0; ENTRY_ROOM];
    let count = write_entry(entry, &mut line);
    let line = line.get(..count).unwrap_or(&[]);
    let _ = text.push_str(std::str::from_utf8(line).unwrap_or("?"));
    let _ = text.push('\n');
}

/// The lines of a journal.
pub fn text_of(alloc: Global, journal: &Journal) -> String {
    let mut text = String::new(alloc);
    for place in 0..journal.len() {
        if let Some(entry) = journal.get(place) {
            add_line(&mut text, &entry);
        }
    }
    text
}

/// Runs the worker of a station's one feed, where the journal may have this many entries: what it did, and the journal.
pub fn run_alone<R: Abort + Wait, W: Work>(
    rt: &R,
    alloc: Global,
    kind: SourceKind,
    limit: u32,
    work: W,
) -> (W::Done, Journal)
    requires { (0 < limit) × (limit ≤ 4194304) }
{
    let settings = settings_of(kind);
    let Ok(parts) = PageCell::open(alloc, &settings, 1) else {
        panic!(*rt; "no memory");
    };
    match in_hub::<Brand, R, W>(rt, alloc, parts, &settings, limit, work) {
        Some(ran) => ran,
        None => panic!(*rt; "no memory"),
    }
}

/// The journal has these lines.
pub fn has_lines(rt: &impl Abort, alloc: Global, journal: &Journal, want: &str) {
    same(rt, text_of(alloc, journal).as_str(), want);
}

/// A list of one. It is empty where memory is short, and the test then fails.
pub fn alone<T: Drop>(alloc: Global, item: T) -> Vec<T> {
    let mut list = Vec::new(alloc);
    let _ = list.push(item);
    list
}

/// A socket on the loopback that waits for five seconds at the most.
pub fn loopback_socket<R: Abort + Net>(rt: &R) -> UdpSocket {
    let loopback = SocketAddr::new(IpAddr::V4(Ipv4Addr::LOCALHOST), 0);
    let Ok(socket) = UdpSocket::bind(rt, loopback) else {
        panic!(*rt; "no socket");
    };
    let wait = socket.set_read_timeout(Some(Duration::from_secs(5)));
    same(rt, wait.is_ok(), true);
    socket
}

/// The address of a socket on the loopback.
pub fn address_of(rt: &impl Abort, socket: &UdpSocket) -> Address {
    let Ok(address) = socket.local_addr() else {
        panic!(*rt; "no address");
    };
    Address {
        ip: 0x7f00_0001,
        port: address.port(),
    }
}

/// A link of the host whose first moment is this one.
pub fn host_link<R: Abort + Files + Net + Clock + Sync>(
    rt: &R,
    start: Local,
) -> UdpLink<'_, R, UdpSocket>
where
    R::File: Send,
{
    match HostOutside::new(rt).open_link(0, start) {
        Ok(link) => link,
        Err(_) => panic!(*rt; "the link was not opened"),
    }
}
