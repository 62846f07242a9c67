//! A list of sources.
ghost use Rattle.std.specs.Prelude.{◌≡◌, ◌++◌, ◌∷◌, ◌<◌, ◌≤◌, [], length};
ghost use Rattle.system_fold.specs.Fit.{source_with};

use crate::SourceKind;
use crate::source::Source;
use clock_filter::Ready;
use std::marker::Model;

/// At most 16 sources. Contracts see them as their list. A source that is no longer in the list stays in its place until another
/// is written there. So a list that is made anew at each entry costs no more than its new sources.
#[derive(Drop)]
pub struct Sources {
    places: [Source; 16],
    count: usize,
}

impl Model for Sources {
    ghost use Rattle.std.specs.Prelude.{◌≡◌, ◌≤◌, List, length, take};
    ghost use Rattle.system_fold.specs.declared.source.Source.{Source};

    ghost Value = { List Source };

    ghost view = { λ s. take s.count s.places };

    ghost invariant = { λ s. (s.count ≤ 16) × (length s.places ≡ 16) };
}

// Writes the source of a feed at a place.
fn write(place: &mut Source, feed: u32, kind: SourceKind, figures: &Ready)
    ensures { place.new ≡ source_with feed kind figures.now }
{
    place.feed = feed;
    place.kind = kind;
    figures.copy_to(&mut place.figures);
}

impl Sources {
    /// No sources.
    pub fn new() -> Sources
        ensures { result ≡ [] }
    {
        Sources {
            places: [Source::default(); 16],
            count: 0,
        }
    }

    /// Removes all of them.
    pub fn clear(&mut self)
        ensures { self.new ≡ [] }
    {
        self.count = 0;
    }

    /// Adds a source after the others.
    #[tactic(auto, using(std::proofs::lemmas::List::take_more_set))]
    pub fn push(&mut self, source: &Source)
        requires { length self.old < 16 }
        ensures { self.new ≡ self.old ++ source.now ∷ [] }
    {
        self.places[self.count] = *source;
        self.count += 1;
    }

    /// Adds the source of a feed after the others.
    #[tactic(auto, using(std::proofs::lemmas::List::take_more_set))]
    pub fn push_of(&mut self, feed: u32, kind: SourceKind, figures: &Ready)
        requires { length self.old < 16 }
        ensures { self.new ≡ self.old ++ source_with feed kind figures.now ∷ [] }
    {
        write(&mut self.places[self.count], feed, kind, figures);
        self.count += 1;
    }

    /// The sources, in their order.
    pub fn as_slice(&self) -> &[Source]
        ensures value { result.now ≡ self.now }
        ensures few { length result.now ≤ 16 }
    {
        &self.places[..self.count]
    }
}
