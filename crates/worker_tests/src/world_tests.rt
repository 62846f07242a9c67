//! Rows of the station as one machine without threads.
ghost use Rattle.std.specs.Prelude.{◌≡◌, ◌≤◌, IfOk, length};
ghost use Rattle.journal_entry.specs.declared.entry.What.TheVariants.{Notice};
ghost use Rattle.station_world.specs.Machine.{Station};
ghost use Rattle.station_world.specs.Runs.{MayRun};
ghost use Rattle.system_fold.specs.Settings.{AreValid};

use crate::shared::{same, settings_of};
use journal_entry::{Entry, What};
use station_world::{Step, StepRefusal, World};
use std::alloc::Global;
use std::marker::Model;
use std::process::Abort;
use system_fold::{Settings, SourceKind};
use tick_units::{Local, Plan};

// A station with one radio.
fn of_one_radio() -> Settings
    ensures { AreValid result }
{
    settings_of(SourceKind::Radio(Plan::Dcf))
}

// A feed announces at the beginning of the counter that there is no leap second.
fn announced(feed: u32) -> Entry
    ensures { result ≡ record { feed = feed; at = 0; what = Notice 0 } }
{
    match Local::new(0) {
        Some(at) => Entry {
            feed,
            at,
            what: What::Notice(0),
        },
        None => unreachable!(),
    }
}

// Such a station with one reader.
fn world_of(rt: &impl Abort, alloc: Global) -> World
    ensures { length result.journal ≡ 0 }
{
    match World::new(alloc, &of_one_radio(), 1) {
        Ok(world) => world,
        Err(_) => panic!(*rt; "no memory"),
    }
}

// A station with one radio and one reader, and the most entries that it was given.
#[derive(Drop)]
struct Bench {
    world: World,
    entries: u64,
}

impl Model for Bench {
    ghost use Rattle.std.specs.Prelude.{◌≤◌, length, ℕ};

    ghost Value = { ℕ };

    ghost view = { λ b. b.entries };

    ghost invariant = { λ b. length b.world.journal ≤ b.entries };
}

impl Bench {
    fn new(rt: &impl Abort, alloc: Global) -> Bench {
        Bench {
            world: world_of(rt, alloc),
            entries: 0,
        }
    }

    fn enter(&mut self, feed: u32) -> Result<Option<u64>, StepRefusal> {
        if self.entries >= 100 {
            return Err(StepRefusal::Memory);
        }
        self.entries += 1;
        let page = self.world.step(Step::Enter(announced(feed)))?;
        Ok(page.map(|page| page.length))
    }

    fn publish(&mut self) -> Result<Option<u64>, StepRefusal> {
        let page = self.world.step(Step::Publish)?;
        Ok(page.map(|page| page.length))
    }

    fn read(&mut self, number: u32) -> Result<Option<u64>, StepRefusal> {
        let page = self.world.step(Step::Read(number))?;
        Ok(page.map(|page| page.length))
    }

    fn tell(&mut self, number: u32, told: u64) -> Result<Option<u64>, StepRefusal> {
        let page = self.world.step(Step::Tell(number, told))?;
        Ok(page.map(|page| page.length))
    }
}

// The answer to a step: the length of the page that was read, if one was, or why the step was refused.
type Answer = Result<Option<u64>, StepRefusal>;

fn reads(rt: &impl Abort, bench: &mut Bench, number: u32, want: Answer) {
    same(rt, bench.read(number), want);
}

fn enters(rt: &impl Abort, bench: &mut Bench, feed: u32, want: Answer) {
    same(rt, bench.enter(feed), want);
}

fn publishes(rt: &impl Abort, bench: &mut Bench, want: Answer) {
    same(rt, bench.publish(), want);
}

fn is_told(rt: &impl Abort, bench: &mut Bench, number: u32, told: u64, want: Answer) {
    same(rt, bench.tell(number, told), want);
}

fn reads_what_is_published(rt: &impl Abort, bench: &mut Bench) {
    reads(rt, bench, 0, Ok(Some(0)));
    enters(rt, bench, 0, Ok(None));
    publishes(rt, bench, Ok(None));
    reads(rt, bench, 0, Ok(Some(1)));
    enters(rt, bench, 0, Ok(None));
    reads(rt, bench, 0, Ok(Some(1)));
    publishes(rt, bench, Ok(None));
    reads(rt, bench, 0, Ok(Some(2)));
}

// A reader reads what is published, and not what is only entered.
#[test]
fn a_reader_reads_what_is_published(rt: HostRuntime) {
    reads_what_is_published(&rt, &mut Bench::new(&rt, rt.alloc()));
}

const NO_READER: StepRefusal = StepRefusal::NoReader { number: 1 };

const NO_FEED: StepRefusal = StepRefusal::NoFeed { feed: 1 };

const UNPUBLISHED: StepRefusal = StepRefusal::Unpublished {
    entered: 1,
    published: 0,
};

fn beyond(told: u64, published: u64) -> StepRefusal {
    StepRefusal::Beyond { told, published }
}

fn nothing(length: u64) -> StepRefusal {
    StepRefusal::Nothing { length }
}

// Before and after the first entry.
fn is_refused_at_first(rt: &impl Abort, bench: &mut Bench) {
    reads(rt, bench, 1, Err(NO_READER));
    is_told(rt, bench, 1, 9, Err(NO_READER));
    is_told(rt, bench, 0, 1, Err(beyond(1, 0)));
    publishes(rt, bench, Err(nothing(0)));
    enters(rt, bench, 1, Err(NO_FEED));
    reads(rt, bench, 0, Ok(Some(0)));
    enters(rt, bench, 0, Ok(None));
    enters(rt, bench, 0, Err(UNPUBLISHED));
    enters(rt, bench, 1, Err(NO_FEED));
}

// From its publishing on.
fn is_refused_then(rt: &impl Abort, bench: &mut Bench) {
    publishes(rt, bench, Ok(None));
    publishes(rt, bench, Err(nothing(1)));
    is_told(rt, bench, 0, 1, Ok(None));
    is_told(rt, bench, 0, 0, Ok(None));
    is_told(rt, bench, 0, 2, Err(beyond(2, 1)));
    reads(rt, bench, 0, Ok(Some(1)));
}

// Each refusal carries what was found, and leaves the station as it was.
#[test]
fn each_refusal_has_its_cause(rt: HostRuntime) {
    let mut bench = Bench::new(&rt, rt.alloc());
    is_refused_at_first(&rt, &mut bench);
    is_refused_then(&rt, &mut bench);
}

// Two entries are entered, published and read in turn.
fn in_turn() -> [Step; 7]
    ensures { (s : Station) → length s.journal ≡ 0 → MayRun s result }
{
    [
        Step::Enter(announced(0)),
        Step::Publish,
        Step::Read(0),
        Step::Enter(announced(0)),
        Step::Read(0),
        Step::Publish,
        Step::Read(0),
    ]
}

// Two entries, the first of which is not published.
fn unpublished() -> [Step; 3]
    ensures { (s : Station) → length s.journal ≡ 0 → MayRun s result }
{
    [
        Step::Enter(announced(0)),
        Step::Enter(announced(0)),
        Step::Publish,
    ]
}

// Both runs, each of a new station. The second one publishes once more.
fn runs_stop(rt: &impl Abort, alloc: Global) {
    let mut world = world_of(rt, alloc);
    same(rt, world.run(&in_turn()), Ok(()));
    let mut world = world_of(rt, alloc);
    same(rt, world.run(&unpublished()), Err(UNPUBLISHED));
    same(rt, world.step(Step::Publish).is_ok(), true);
}

// A run goes on up to the first refused step, and the steps before it count.
#[test]
fn a_run_stops_at_the_first_refusal(rt: HostRuntime) {
    runs_stop(&rt, rt.alloc());
}
