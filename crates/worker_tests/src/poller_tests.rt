//! A poller's worker over links in memory. The answers of a server were computed by hand from RFC 5905, section 8. One poller runs
//! on the loopback beside a server's thread.
ghost use Rattle.std.specs.Prelude.{◌≡◌, ◌<◌, ◌≤◌, [], All, length};
ghost use Rattle.page_cell.specs.Passes.{key_of};
ghost use Rattle.system_fold.specs.Settings.{AreValid};

use crate::shared::{
    address_of, alone, has_lines, host_link, loopback_socket, moment, pop_feed, put_back, same,
    settings_of, text_of,
};
use feed_workers::{PollEnd, PollWork, PollWorker};
use memory_outside::{ANSWER, MemoryLink, Planned};
use outside_traits::{Address, Link, OpenGate};
use page_cell::{CellParts, FeedPass, PageCell};
use std::alloc::Global;
use std::marker::Brand;
use std::net::UdpSocket;
use std::process::Abort;
use std::sync::Wait;
use std::{io, thread};
use system_fold::{Settings, SourceKind};
use verdict_journal::{Hub, HubName, HubParts, Journal};

const SERVER: Address = Address {
    ip: 0x7f00_0001,
    port: 123,
};

const SAMPLE: &str = "0 1010000 sample 17077897383243199545 40802189 8837 2 7f000001 256 512\n";

// What a poller's worker does over a link in a hub with the pass of the last feed, which it gives back.
fn poll_in<N: HubName, R: Wait, L: Link + Drop>(
    rt: &R,
    hub: &Hub<N>,
    feeds: &mut Vec<FeedPass>,
    sources: u32,
    server: Address,
    polls: u32,
    link: L,
) -> Option<(PollWork, L)>
    requires feeds { All (λ f. f.table ≡ N.table) feeds.old.items }
    requires sources { sources ≡ length N.settings.sources }
    ensures { All (λ f. f.table ≡ N.table) feeds.new.items }
{
    let pass = pop_feed::<N>(feeds, sources)?;
    let mut worker = PollWorker::new(server, polls, link, pass);
    let work = worker.run(rt, hub, &OpenGate::new());
    let (link, pass) = worker.give_back();
    put_back::<N>(feeds, Some(pass));
    Some((work, link))
}

// The same in a hub for this many entries, and the journal.
fn poll_in_hub<N: HubName, R: Wait, L: Link + Drop>(
    rt: &R,
    alloc: Global,
    parts: CellParts,
    settings: &Settings,
    limit: u32,
    server: Address,
    polls: u32,
    link: L,
) -> Option<(PollWork, Journal, L)>
    requires cell { (parts.cell.table ≡ N.table) × (parts.baton.table ≡ N.table) }
    requires settings { (key_of parts.baton.view ≡ settings.now) × (settings.now ≡ N.settings) }
    requires valid { AreValid settings.now }
    requires fresh { parts.baton.view.list ≡ [] }
    requires limit { (limit ≡ N.limit) × (0 < limit) × (limit ≤ 4194304) }
    requires feeds { All (λ f. f.table ≡ N.table) parts.feeds.items }
{
    let Ok(
        HubParts {
            hub,
            mut feeds,
            readers: _,
        },
    ) = Hub::<N>::open(alloc, parts, settings, limit)
    else {
        return None;
    };
    let ran = poll_in(rt, &hub, &mut feeds, settings.count(), server, polls, link);
    let journal = hub.close(feeds, Vec::new(alloc));
    let (work, link) = ran?;
    Some((work, journal, link))
}

// The same in a station of this one server.
fn poll<R: Abort + Wait, L: Link + Drop>(
    rt: &R,
    alloc: Global,
    server: Address,
    polls: u32,
    limit: u32,
    link: L,
) -> (PollWork, Journal, L)
    requires { (0 < limit) × (limit ≤ 4194304) }
{
    let settings = settings_of(SourceKind::Server(server));
    let Ok(parts) = PageCell::open(alloc, &settings, 1) else {
        panic!(*rt; "no memory");
    };
    let ran = poll_in_hub::<Brand, R, L>(rt, alloc, parts, &settings, limit, server, polls, link);
    match ran {
        Some(ran) => ran,
        None => panic!(*rt; "no memory"),
    }
}

// The answer as it comes at 1.01 s from a port of the server, or its first bytes. Without memory it has none, and is declined.
fn answer(alloc: Global, port: u16, length: usize) -> Planned {
    Planned::Datagram {
        from: Address {
            ip: SERVER.ip,
            port,
        },
        at: moment(1_010_000),
        bytes: Vec::from_slice(alloc, &ANSWER[..length.min(48)]).unwrap_or(Vec::new(alloc)),
    }
}

// A link with these hearings whose first moment is 1 s, of which one call fails.
fn link_of(rt: &impl Abort, alloc: Global, hearings: Vec<Planned>, failing: u64) -> MemoryLink {
    let moments = alone(alloc, moment(1_000_000));
    let fails = alone(alloc, failing);
    MemoryLink::new(alloc, hearings, moments, fails, 40, 4000).expect(rt, "no memory")
}

// A link with this many datagrams that are too short, and then the answer; one call of it fails.
fn short_ones(rt: &impl Abort, alloc: Global, count: u32, failing: u64) -> MemoryLink {
    let mut hearings = Vec::new(alloc);
    for _ in 0..count {
        let _ = hearings.push(answer(alloc, 123, 47));
    }
    let _ = hearings.push(answer(alloc, 123, 48));
    link_of(rt, alloc, hearings, failing)
}

// This many lines of a datagram that is too short, and an end.
fn declined(alloc: Global, count: u32, end: &str) -> String {
    let mut lines = String::new(alloc);
    for _ in 0..count {
        let _ = lines.push_str("0 1010000 declined 2\n");
    }
    let _ = lines.push_str(end);
    lines
}

// A poller's worker polls this many times over a link, where the journal may have this many entries. It does this. The journal
// has these lines, and the link reports this many events.
fn polls<R: Abort + Wait>(
    rt: &R,
    alloc: Global,
    link: MemoryLink,
    polls: u32,
    limit: u32,
    work: PollWork,
    lines: &str,
    events: usize,
)
    requires { (0 < limit) × (limit ≤ 4194304) }
{
    let (done, journal, link) = poll(rt, alloc, SERVER, polls, limit, link);
    same(rt, (done, link.count()), (work, events));
    has_lines(rt, alloc, &journal, lines);
}

const ROUNDS: PollWork = PollWork {
    end: PollEnd::Rounds,
    full: false,
};

const LINK_END: PollWork = PollWork {
    end: PollEnd::LinkEnd,
    full: false,
};

const DECLINED: &str = "0 1010000 declined 2\n";

const STRANGE: &str =
    "0 1010000 declined 1\n0 1010000 sample 17077897383243199545 40802189 8837 2 7f000001 256 512\n";

// A link on which the answer comes from another port, and then from the server's.
fn strange_one(rt: &impl Abort, alloc: Global) -> MemoryLink {
    let mut hearings = alone(alloc, answer(alloc, 124, 48));
    let _ = hearings.push(answer(alloc, 123, 48));
    link_of(rt, alloc, hearings, 0)
}

#[test]
fn an_answer_is_a_sample_and_a_strangers_is_declined(rt: HostRuntime) {
    let link = strange_one(&rt, rt.alloc());
    polls(&rt, rt.alloc(), link, 1, 9, ROUNDS, STRANGE, 4);
}

// A link on which a short datagram comes between two silences.
fn silent_one(rt: &impl Abort, alloc: Global) -> MemoryLink {
    let mut hearings = alone(alloc, Planned::Quiet);
    let _ = hearings.push(answer(alloc, 123, 47));
    let _ = hearings.push(Planned::Quiet);
    link_of(rt, alloc, hearings, 0)
}

#[test]
fn silence_ends_a_round_without_an_entry(rt: HostRuntime) {
    let link = silent_one(&rt, rt.alloc());
    polls(&rt, rt.alloc(), link, 2, 9, ROUNDS, DECLINED, 7);
}

// How many short datagrams come before the answer, how many polls there are, what the worker does, how many lines speak of short
// datagrams, the line after them, and how many events there are.
const WRONG: [(u32, u32, PollWork, u32, &str, usize); 3] = [
    (7, 1, ROUNDS, 7, SAMPLE, 10),
    (8, 1, ROUNDS, 8, "", 10),
    (8, 2, LINK_END, 8, "0 1010000 declined 6\n", 14),
];

fn end_rounds<R: Abort + Wait>(
    rt: &R,
    alloc: Global,
    rows: &[(u32, u32, PollWork, u32, &str, usize)],
) {
    for (short, count, work, bad, end, events) in rows {
        let link = short_ones(rt, alloc, *short, 0);
        let lines = declined(alloc, *bad, end);
        polls(rt, alloc, link, *count, 20, *work, lines.as_str(), *events);
    }
}

// The eighth hearing ends its round, so the answer comes in the next one, whose request has another stamp.
#[test]
fn eight_wrong_datagrams_end_a_round(rt: HostRuntime) {
    end_rounds(&rt, rt.alloc(), &WRONG);
}

// The call that fails, why the worker ends, the lines of the journal, and how many events there are.
const FAULTS: [(u64, PollEnd, &str, usize); 5] = [
    (1, PollEnd::LinkFault, "", 1),
    (2, PollEnd::LinkFault, "", 2),
    (3, PollEnd::LinkFault, SAMPLE, 4),
    (4, PollEnd::LinkFault, SAMPLE, 5),
    (5, PollEnd::LinkEnd, SAMPLE, 6),
];

fn end_at_faults<R: Abort + Wait>(rt: &R, alloc: Global, rows: &[(u64, PollEnd, &str, usize)]) {
    for (failing, end, lines, events) in rows {
        let link = short_ones(rt, alloc, 0, *failing);
        let work = PollWork {
            end: *end,
            full: false,
        };
        polls(rt, alloc, link, 2, 9, work, lines, *events);
    }
}

// Two polls: one of the sending, the hearing, the second sending and the hearing of the end fails.
#[test]
fn a_fault_of_the_link_ends_the_polling(rt: HostRuntime) {
    end_at_faults(&rt, rt.alloc(), &FAULTS);
}

#[test]
fn a_full_journal_keeps_a_prefix_and_the_polling_goes_on(rt: HostRuntime) {
    let link = short_ones(&rt, rt.alloc(), 1, 0);
    let end = PollEnd::LinkEnd;
    let work = PollWork { end, full: true };
    polls(&rt, rt.alloc(), link, 2, 1, work, DECLINED, 7);
}

// A server that answers one request with the origin of that request: how many bytes the request had.
fn serve_once(socket: &UdpSocket) -> io::Result<usize> {
    let mut piece = [0u8; 1024];
    let (length, client) = socket.recv_from(&mut piece)?;
    let mut reply = ANSWER;
    reply[24..32].copy_from_slice(&piece[40..48]);
    socket.send_to(&reply, client)?;
    Ok(length)
}

#[test]
fn a_server_on_the_loopback_is_polled(rt: HostRuntime) {
    let socket = loopback_socket(&rt);
    let server = address_of(&rt, &socket);
    let link = host_link(&rt, moment(1_000_000));
    let Ok(child) = thread::spawn(&rt, move || serve_once(&socket)) else {
        panic!(rt; "no thread");
    };
    let (work, journal, _) = poll(&rt, rt.alloc(), server, 1, 9, link);
    let Ok(length) = child.join(&rt) else {
        panic!(rt; "the server was not asked");
    };
    same(&rt, (work, length), (ROUNDS, 48));
    let lines = text_of(rt.alloc(), &journal);
    let is_sample = lines.as_str().contains(" sample ");
    same(&rt, (journal.len(), is_sample), (1, true));
}
