//! The machine: its state, and its steps.
ghost use Rattle.std.specs.Prelude.{◌≡◌, ◌≤◌, ◌<◌, ◌^◌, ◌==◌, ◌++◌, ◌∷◌, [], None, Some, IfOk, IfErr, length, max, replicate, slice_index, slice_set, vec_len, All};
ghost use Rattle.journal_entry.specs.Valid.{IsValidWhat};
ghost use Rattle.station_world.specs.Machine.{IsChained, MayCome, Rises, after, given, published_page, reason, refusal_of, start};
ghost use Rattle.station_world.specs.declared.step.Step.TheVariants.{Enter, Publish, Read, Tell};
ghost use Rattle.station_world.specs.Runs.{AreTaken, MayRun, StopsAt, after_all};
ghost use Rattle.system_fold.specs.Settings.{AreValid};

use crate::step::{Step, StepRefusal};
use clock_page::Page;
use journal_entry::Entry;
use std::alloc::Global;
use std::marker::Model;
use std::snapshot::Snapshot;
use system_fold::{FoldState, Settings};

/// A station with no threads: its journal, the page that is published, and how much each reader has seen. Contracts see its state.
#[derive(Drop)]
pub struct World {
    settings: Snapshot<Settings>,
    feeds: u32,
    entries: Vec<Entry>,
    fold: FoldState,
    next: Page,
    published: u64,
    page: Page,
    seen: Vec<u64>,
}

impl Model for World {
    ghost use Rattle.station_world.specs.KeptWorld.{IsKept, state_of};
    ghost use Rattle.station_world.specs.Machine.{Station};

    ghost Value = { Station };

    ghost view = { state_of };

    ghost invariant = { IsKept };
}

/// Why a world was not made.
#[derive(Clone, Copy, Debug, PartialEq, Eq)]
pub enum WorldOpen {
    /// There was not enough memory.
    Memory,
}

// This many readers that have seen nothing.
fn unseen(alloc: Global, readers: u32) -> Result<Vec<u64>, WorldOpen>
    ensures { IfOk result (λ v. v.items ≡ replicate readers 0) }
{
    let Ok(seen) = vec![in alloc; 0u64; readers as usize] else {
        return Err(WorldOpen::Memory);
    };
    Ok(seen)
}

impl World {
    /// The station with no entry, and with this many readers.
    pub fn new(alloc: Global, settings: &Settings, readers: u32) -> Result<World, WorldOpen>
        requires { AreValid settings.now }
        ensures start { IfOk result (λ w. w ≡ start settings.now readers) }
        ensures chained { IfOk result IsChained }
    {
        let seen = unseen(alloc, readers)?;
        let fold = FoldState::new(settings);
        let page = fold.page();
        Ok(World {
            settings: Snapshot::of(settings),
            feeds: settings.count(),
            entries: Vec::new(alloc),
            fold,
            next: page,
            published: 0,
            page,
            seen,
        })
    }

    fn enter(&mut self, e: &Entry) -> Result<(), StepRefusal>
        requires { MayCome self.old (Enter e.now) }
        ensures ok { IfOk result
            (λ u. (refusal_of self.old (Enter e.now) ≡ None) × (self.new ≡ after self.old (Enter e.now))) }
        ensures err { IfErr result (λ r. (refusal_of self.old (Enter e.now) ≡ reason r) × (self.new ≡ self.old)) }
        ensures chained { IsChained self.old × IsChained self.new }
    {
        if e.feed >= self.feeds {
            return Err(StepRefusal::NoFeed { feed: e.feed });
        }
        let entered = self.entries.len() as u64;
        if self.published != entered {
            return Err(StepRefusal::Unpublished {
                entered,
                published: self.published,
            });
        }
        let Ok(()) = self.entries.extend_from_slice(&[*e]) else {
            return Err(StepRefusal::Memory);
        };
        self.fold.step(e);
        self.next = self.fold.page();
        Ok(())
    }

    fn publish(&mut self) -> Result<(), StepRefusal>
        ensures ok { IfOk result (λ u. (refusal_of self.old Publish ≡ None) × (self.new ≡ after self.old Publish)) }
        ensures err { IfErr result (λ r. (refusal_of self.old Publish ≡ reason r) × (self.new ≡ self.old)) }
        ensures chained { IsChained self.old × IsChained self.new }
    {
        let length = self.entries.len() as u64;
        if self.published == length {
            return Err(StepRefusal::Nothing { length });
        }
        self.page = self.next;
        self.published = length;
        Ok(())
    }

    fn read(&mut self, number: u32) -> Result<Page, StepRefusal>
        ensures ok { IfOk result (λ p. (refusal_of self.old (Read number) ≡ None) ×
            (self.new ≡ after self.old (Read number)) × (p ≡ published_page self.old)) }
        ensures err { IfErr result (λ r. (refusal_of self.old (Read number) ≡ reason r) × (self.new ≡ self.old)) }
        ensures chained { IsChained self.old × IsChained self.new }
    {
        let at = number as usize;
        if at >= self.seen.len() {
            return Err(StepRefusal::NoReader { number });
        }
        self.seen[at] = self.published;
        Ok(self.page)
    }

    fn tell(&mut self, number: u32, told: u64) -> Result<(), StepRefusal>
        ensures ok { IfOk result
            (λ u. (refusal_of self.old (Tell number told) ≡ None) × (self.new ≡ after self.old (Tell number told))) }
        ensures err { IfErr result (λ r. (refusal_of self.old (Tell number told) ≡ reason r) × (self.new ≡ self.old)) }
        ensures chained { IsChained self.old × IsChained self.new }
    {
        let at = number as usize;
        if at >= self.seen.len() {
            return Err(StepRefusal::NoReader { number });
        }
        if told > self.published {
            return Err(StepRefusal::Beyond {
                told,
                published: self.published,
            });
        }
        self.seen[at] = self.seen[at].max(told);
        Ok(())
    }

    #[tactic(auto, using(crate::proofs::StepLaws::rises_after, crate::proofs::StepLaws::rises_self))]
    /// Makes a step; a reading gives a page, and any other step none. A step that is refused leaves the world as it was.
    pub fn step(&mut self, s: Step) -> Result<Option<Page>, StepRefusal>
        requires { MayCome self.old s }
        ensures ok { IfOk result
            (λ page. (refusal_of self.old s ≡ None) × (self.new ≡ after self.old s) × (page ≡ given self.old s)) }
        ensures err { IfErr result (λ r. (refusal_of self.old s ≡ reason r) × (self.new ≡ self.old)) }
        ensures chained { IsChained self.new }
        ensures rises { Rises self.old self.new }
    {
        match s {
            Step::Enter(e) => {
                self.enter(&e)?;
                Ok(None)
            }
            Step::Publish => {
                self.publish()?;
                Ok(None)
            }
            Step::Read(number) => Ok(Some(self.read(number)?)),
            Step::Tell(number, told) => {
                self.tell(number, told)?;
                Ok(None)
            }
        }
    }

    // What the type's invariant says of the chain.
    fn check(&self)
        ensures { IsChained self.now }
    {
        let _published = self.published;
    }

    /// Makes these steps in order, up to the first that is refused; those before it count.
    pub fn run(&mut self, steps: &[Step]) -> Result<(), StepRefusal>
        requires { MayRun self.old steps.now }
        ensures ok { IfOk result (λ u. AreTaken self.old steps.now × (self.new ≡ after_all self.old steps.now)) }
        ensures err { IfErr result (λ r. StopsAt self.old steps.now r self.new) }
        ensures chained { IsChained self.new }
        ensures rises { Rises self.old self.new }
    {
        self.check();
        for s in steps {
            self.step(*s)?;
        }
        Ok(())
    }
}
