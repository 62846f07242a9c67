//! The interval that enough sources agree on, while sources come and go.
ghost use Rattle.std.specs.Prelude.{◌≡◌, ◌+◌, ◌<◌, ◌≤◌, ◌≤ℤ◌, ◌-ℤ◌, ◌^◌, ◌≢◌, ℕ, pos, List, [], length, insert, remove, slice_index_or, slice_set, IsTrue, IfSome, true, false, nat_lt};
ghost use Rattle.std.specs.List.Sorted.{IsPartitionPoint, IsPermutation};
ghost use Rattle.arrayvec.specs.ArrayVec.{array_vec_len};
ghost use Rattle.select_core.specs.Selection.{chime_of, is_measured};
ghost use Rattle.select_core.specs.Sweeping.{others, with_candidate};
ghost use Rattle.select_core.specs.declared.chime.Candidate.{Candidate};

use crate::narrowing::narrowed;
use crate::points::Points;
use crate::unanimous::unanimous;
use crate::{Candidate, Chime};
use arrayvec::ArrayVec;
use std::marker::Model;

/// At most 16 candidates, one for each feed, with the lower and the upper ends of their intervals in order. Contracts see it as
/// the list of the candidates, in the order of their feeds.
#[derive(Drop)]
pub struct Sweep {
    standing: ArrayVec<Candidate, 16>,
    lowers: Points,
    uppers: Points,
}

impl Model for Sweep {
    ghost use Rattle.std.specs.Prelude.{List};
    ghost use Rattle.select_core.specs.KeptSweep.{AreEnds, IsStanding};
    ghost use Rattle.select_core.specs.declared.chime.Candidate.{Candidate};

    ghost Value = { List Candidate };

    ghost view = { λ s. s.standing.items };

    ghost invariant = { λ s. IsStanding s.standing.items × AreEnds s.standing.items s.lowers s.uppers };
}

impl Sweep {
    /// No candidates.
    pub fn new() -> Sweep
        ensures { result ≡ [] }
    {
        Sweep {
            standing: ArrayVec::new(),
            lowers: Points::new(),
            uppers: Points::new(),
        }
    }

    /// Lets a candidate stand, in place of the one of its feed.
    #[inline(always)]
    pub fn put(&mut self, c: Candidate)
        requires room { length (others c.feed self.old) < 16 }
        requires measured { IsTrue (is_measured c) }
        ensures { self.new ≡ with_candidate c self.old }
    {
        // Read for the list's invariant: its order.
        let _order = &self.standing;
        // Where each lesser feed has a candidate, that of a feed is at the feed's number.
        let number = c.feed as usize;
        if self.has_at(number, c.feed) {
            self.exchange(number, &c);
        } else {
            self.put_in_place(c);
        }
    }

    // The same, by a search for the place.
    #[inline(never)]
    fn put_in_place(&mut self, c: Candidate)
        requires room { length (others c.feed self.old) < 16 }
        requires measured { IsTrue (is_measured c) }
        ensures { self.new ≡ with_candidate c self.old }
    {
        // Read for the list's invariant: its order.
        let _order = &self.standing;
        let place = self.place_of(c.feed);
        if self.has_at(place, c.feed) {
            self.exchange(place, &c);
        } else {
            self.add(place, c);
        }
    }

    /// Removes the candidate of a feed; a feed that has none changes nothing.
    pub fn remove(&mut self, feed: u32)
        ensures { self.new ≡ others feed self.old }
    {
        // Read for the list's invariant: its order.
        let _order = &self.standing;
        let place = self.place_of(feed);
        if self.has_at(place, feed) {
            self.take_out(place);
        }
    }

    // The place of a feed's candidate: after those of lesser feeds.
    fn place_of(&self, feed: u32) -> usize
        ensures within { result ≤ length self.now }
        ensures point { IsPartitionPoint (λ (x : Candidate). nat_lt x.feed feed ≡ true)
            (λ (x : Candidate). nat_lt x.feed feed ≡ false) self.now result }
    {
        self.standing.partition_point(|c| c.feed < feed)
    }

    // Whether the candidate at a place is there and of a feed.
    fn has_at(&self, place: usize, feed: u32) -> bool
        ensures there { result ≡ true → (place < length self.now) ×
            ((d : Candidate) → (slice_index_or self.now place d).feed ≡ feed) }
        ensures not_there { result ≡ false → place < length self.now → (d : Candidate) →
            (slice_index_or self.now place d).feed ≢ feed }
    {
        let standing = self.standing.as_slice();
        place < standing.len() && standing[place].feed == feed
    }

    // Puts a candidate in place of that of its feed.
    #[inline(always)]
    fn exchange(&mut self, place: usize, c: &Candidate)
        requires place { place < length self.old }
        requires feed { (d : Candidate) → (slice_index_or self.old place d).feed ≡ c.now.feed }
        requires measured { IsTrue (is_measured c.now) }
        ensures { self.new ≡ slice_set self.old place c.now }
    {
        let lower = self.standing.as_slice()[place].lower();
        self.lowers.replace(place, lower, c.lower());
        let upper = self.standing.as_slice()[place].upper();
        self.uppers.replace(place, upper, c.upper());
        set_at(&mut self.standing, place, c);
    }

    // Puts the candidate of a feed that has none in its place.
    fn add(&mut self, place: usize, c: Candidate)
        requires room { length self.old < 16 }
        requires within { place ≤ length self.old }
        requires before { (k : ℕ) (d : Candidate) → k < place → (slice_index_or self.old k d).feed < c.feed }
        requires after { (k : ℕ) (d : Candidate) → place ≤ k → k < length self.old →
            c.feed < (slice_index_or self.old k d).feed }
        requires measured { IsTrue (is_measured c) }
        ensures { self.new ≡ insert self.old place c }
    {
        self.lowers.insert(place, c.lower());
        self.uppers.insert(place, c.upper());
        self.standing.insert(place, c);
    }

    // Removes the candidate at a place.
    fn take_out(&mut self, place: usize)
        requires { place < length self.old }
        ensures { self.new ≡ remove self.old place }
    {
        // Read for its bound: every list has at most 16 items.
        let _few = self.standing.len();
        let c = self.standing.remove(place);
        self.lowers.remove(place, c.lower());
        self.uppers.remove(place, c.upper());
    }

    /// The interval that enough of the candidates agree on, as `select` gives it of them in any order.
    pub fn chime(&self) -> Option<Chime>
        ensures chime { result ≡ chime_of self.now }
        ensures any_order { (candidates : List Candidate) → IsPermutation self.now candidates →
            result ≡ chime_of candidates }
        ensures narrow { IfSome result (λ chime. (chime.high -ℤ chime.low) ≤ℤ pos (2 ^ 33)) }
    {
        match unanimous(self.standing.as_slice(), &self.lowers, &self.uppers) {
            Some(chime) => Some(chime),
            None => narrowed(self.standing.as_slice(), &self.lowers, &self.uppers),
        }
    }
}

// Puts a candidate at a place.
fn set_at(standing: &mut ArrayVec<Candidate, 16>, place: usize, c: &Candidate)
    requires { place < array_vec_len standing.old }
    ensures { standing.new.items ≡ slice_set standing.old.items place c.now }
{
    standing[place] = Candidate {
        feed: c.feed,
        offset: c.offset,
        distance: c.distance,
    };
}
