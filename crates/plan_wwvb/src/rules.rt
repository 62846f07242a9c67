//! The rules of WWVB, each a test of a whole segment that is true where the rule is broken.
ghost use Rattle.std.specs.Prelude.{◌≡◌, ◌<◌, ◌&&◌, not, nat_lt, None, List, IsTrue};
ghost use Rattle.std.specs.List.{list_all, list_any};
ghost use Rattle.frame_rules.specs.Fields.{is_one, is_set};
ghost use Rattle.tick_units.specs.Marks.{is_long};
ghost use Rattle.tick_units.specs.declared.marks.Mark.{Mark};
ghost use Rattle.frame_rules.specs.Numbers.{both_digits};
ghost use Rattle.plan_wwvb.specs.Fields.{is_marker_place, said};
ghost use Rattle.plan_wwvb.specs.Rules.{lacks_marker, has_stray_marker, breaks_markers, breaks_reserved, breaks_dut_sign, breaks_day_of_year, names_minute, first};

use crate::dates::breaks_leap_minute;
use crate::fields::OrdinalTime;
use civil_frame::breaks_year_range;
use civil_minute::year_length;
use frame_rules::{
    Bit, KEPT_PLACES, Places, Rule, breaks_length, first_broken, has_pattern, is_out_of,
};
use tick_units::Local;

// The places that are markers.
const MARKERS: [usize; 7] = [0, 9, 19, 29, 39, 49, 59];

// The places that are always 0.
const ZEROS: [usize; 11] = [4, 10, 11, 14, 20, 21, 24, 34, 35, 44, 54];

// The bits of places 36 to 38 where DUT1 is above 0, and where it is below.
const PLUS: [bool; 3] = [true, false, true];

const MINUS: [bool; 3] = [false, true, false];

// One of these places is not Long.
fn lacks_long<P: Places>(segment: &P, places: &[usize]) -> bool
    requires { IsTrue (list_all (λ place. nat_lt place 61) places.now) }
    ensures { (marks : List Mark) → P.stands_for segment.now marks →
        result ≡ list_any (λ place. not (is_set is_long marks place)) places.now }
{
    for place in places {
        if !segment.is_long(*place) {
            return true;
        }
    }
    false
}

// One of these places is 1.
fn has_one<P: Places>(segment: &P, places: &[usize]) -> bool
    requires { IsTrue (list_all (λ place. nat_lt place 61) places.now) }
    ensures { (marks : List Mark) → P.stands_for segment.now marks →
        result ≡ list_any (is_set is_one marks) places.now }
{
    for place in places {
        if segment.is_set(Bit::Only, *place) {
            return true;
        }
    }
    false
}

// A marker place is not Long.
fn lacks_marker<P: Places>(segment: &P) -> bool
    ensures { (marks : List Mark) → P.stands_for segment.now marks → result ≡ lacks_marker marks }
{
    lacks_long(segment, &MARKERS)
}

fn is_marker_place(place: usize) -> bool
    ensures { result ≡ is_marker_place place }
{
    MARKERS.iter().any(|marker| *marker == place)
}

// This place is Long and is no marker's.
fn strays<P: Places>(segment: &P, place: usize) -> bool
    requires { place < 61 }
    ensures { (marks : List Mark) → P.stands_for segment.now marks →
        result ≡ (is_set is_long marks place && not (is_marker_place place)) }
{
    segment.is_long(place) && !is_marker_place(place)
}

// Another place is Long.
fn has_stray_marker<P: Places>(segment: &P) -> bool
    ensures { (marks : List Mark) → P.stands_for segment.now marks → result ≡ has_stray_marker marks }
{
    for place in 0..KEPT_PLACES {
        if strays(segment, place) {
            return true;
        }
    }
    segment.has_long_after()
}

fn breaks_markers<P: Places>(segment: &P) -> bool
    ensures { (marks : List Mark) → P.stands_for segment.now marks → result ≡ breaks_markers marks }
{
    lacks_marker(segment) || has_stray_marker(segment)
}

// A place that is always 0 is 1.
fn breaks_reserved<P: Places>(segment: &P) -> bool
    ensures { (marks : List Mark) → P.stands_for segment.now marks → result ≡ breaks_reserved marks }
{
    has_one(segment, &ZEROS)
}

// The sign of DUT1 is neither plus nor minus.
fn breaks_dut_sign<P: Places>(segment: &P) -> bool
    ensures { (marks : List Mark) → P.stands_for segment.now marks → result ≡ breaks_dut_sign marks }
{
    !has_pattern(Bit::Only, segment, 36, &PLUS) && !has_pattern(Bit::Only, segment, 36, &MINUS)
}

// The tens or the ones digit is above 9, or the year has no such day.
pub(crate) fn breaks_day_of_year(ordinal: &OrdinalTime) -> bool
    requires { both_digits ordinal.now.year < 1000 }
    ensures { result ≡ breaks_day_of_year ordinal.now }
{
    let days = year_length(ordinal.year.get());
    ordinal.day.tens > 90 || is_out_of(1, days, ordinal.day.ones, ordinal.day_of_year())
}

// The least number of a rule that the segment breaks.
#[tactic(auto, unfolding(crate::specs::Rules::first))]
pub(crate) fn first_broken_rule<P: Places>(
    segment: &P,
    close: Local,
    ordinal: &OrdinalTime,
) -> Option<u8>
    requires read { (marks : List Mark) → P.stands_for segment.now marks → ordinal.now ≡ said marks }
    requires year { both_digits ordinal.now.year < 1000 }
    ensures first { (marks : List Mark) → P.stands_for segment.now marks → result ≡ first marks close }
    ensures named { result ≡ None → IsTrue (names_minute ordinal.now) }
{
    first_broken(&[
        Rule::new(1, segment.breaks_spacing_to(close)),
        Rule::new(2, segment.breaks_width()),
        Rule::new(3, breaks_length(segment)),
        Rule::new(50, breaks_markers(segment)),
        Rule::new(51, breaks_reserved(segment)),
        Rule::new(52, breaks_dut_sign(segment)),
        Rule::new(53, ordinal.time.breaks_minute_range()),
        Rule::new(54, ordinal.time.breaks_hour_range()),
        Rule::new(55, breaks_year_range(ordinal.year)),
        Rule::new(56, breaks_day_of_year(ordinal)),
        Rule::new(58, breaks_leap_minute(segment, ordinal)),
    ])
}
