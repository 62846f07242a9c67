//! What a pass knows. These types exist only in proofs; the program makes no value of them.
use journal_entry::Entry;
use std::collections::LinkedList;
use system_fold::Settings;

/// What a feed's pass stands for: its number, its published entries, and the list of all entries that it has seen.
pub struct Claim {
    pub number: u64,
    pub own: LinkedList<Entry>,
    pub seen: LinkedList<Entry>,
}

/// What a reader does. Of a try, this is the count that it loaded first, and the words that it loaded after it. Of all calls, it
/// is the number of loads, the greatest count, and how many calls answered Again. Of an unfinished call, it is the number of
/// failed tries. It is also the two counts of each try of its last call.
pub struct Watch {
    pub trying: bool,
    pub first: u64,
    pub loaded: LinkedList<u64>,
    pub loads: u64,
    pub greatest: u64,
    pub torn: u64,
    pub fails: u64,
    pub unfinished: bool,
    pub pairs: LinkedList<(u64, u64)>,
}

/// What a pass knows. First come the settings. A pass with the baton also knows the list of all entries, the number of feeds'
/// passes split off, and the stored words of the next page. Then come the claim of its own feed, the feeds that it took in, and
/// how much of the list it has seen. Last come its readings, each a length and ten words, and what it did as a reader. Of each
/// pass that it took in it knows how many calls answered Again, and the greatest count. A pass that was taken in is spent.
pub struct View {
    pub spent: bool,
    pub settings: Settings,
    pub baton: bool,
    pub list: LinkedList<Entry>,
    pub given: u64,
    pub stored: LinkedList<u64>,
    pub feeds: LinkedList<Claim>,
    pub gathered: LinkedList<Claim>,
    pub seen: u64,
    pub readings: LinkedList<(u64, LinkedList<u64>)>,
    pub watch: Watch,
    pub tallies: LinkedList<(u64, u64)>,
}
