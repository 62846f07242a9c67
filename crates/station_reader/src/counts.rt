//! How many rows a station has, and how many it may have.
ghost use Rattle.std.specs.Prelude.{◌≡◌, find, map, nat_lt, option_map};
ghost use Rattle.station_values.specs.Station.{feed_count, is_same_plan, plan_count};
ghost use Rattle.station_reader.specs.Faults.{counts_of, plan_radios};
ghost use Rattle.station_reader.specs.Finding.{count_seen};
ghost use Rattle.station_values.specs.KeptStation.{parts_fields, radio_kept};

use crate::rows::{DENY_ROW, KEY_ROW, LINK_ROW, RADIO_ROW};
use station_values::{Parts, Radio};
use tick_units::Plan;

// The radios that a plan may have.
const OF_A_PLAN: u64 = 4;

// A number of rows, and how many there may be.
#[derive(Clone, Copy)]
pub struct Count {
    pub key: &'static str,
    pub count: u64,
    pub most: u64,
}

fn has_plan(radio: &Radio, plan: Plan) -> bool
    ensures { result ≡ is_same_plan plan radio.now.plan }
{
    plan == radio.plan
}

fn plan_count(radios: &[Radio], plan: Plan) -> u64
    ensures { result ≡ plan_count plan (map radio_kept radios.now) }
{
    radios.iter().filter(|radio| has_plan(radio, plan)).count() as u64
}

fn first_over(counts: &[Count]) -> Option<Count>
    ensures { option_map count_seen result ≡ find (λ c. nat_lt c.most c.count) (map count_seen counts.now) }
{
    for count in counts {
        if count.most < count.count {
            return Some(*count);
        }
    }
    None
}

// All feeds.
fn feed_count(parts: &Parts) -> usize
    ensures { result ≡ feed_count (parts_fields parts.now) }
{
    parts.radios.len() + parts.servers.len() + usize::from(parts.leap_file.is_some())
}

// The radios of the first of these plans that has too many.
fn plan_excess(radios: &[Radio], some: &[Plan]) -> Option<Count>
    ensures { option_map count_seen result ≡
        find (λ c. nat_lt c.most c.count) (map (plan_radios (map radio_kept radios.now)) some.now) }
{
    for plan in some {
        let count = plan_count(radios, *plan);
        if OF_A_PLAN < count {
            return Some(Count {
                key: RADIO_ROW.key,
                count,
                most: OF_A_PLAN,
            });
        }
    }
    None
}

// The first number of rows that is above its limit.
pub fn excess(parts: &Parts) -> Option<Count>
    ensures { option_map count_seen result ≡ find (λ c. nat_lt c.most c.count) (counts_of (parts_fields parts.now)) }
{
    let feeds = first_over(&[Count {
        key: RADIO_ROW.key,
        count: feed_count(parts) as u64,
        most: 16,
    }]);
    if feeds.is_some() {
        return feeds;
    }
    let of_a_plan = plan_excess(parts.radios.as_slice(), Plan::all());
    if of_a_plan.is_some() {
        return of_a_plan;
    }
    first_over(&[
        Count {
            key: LINK_ROW.key,
            count: parts.links.len() as u64,
            most: 8,
        },
        Count {
            key: KEY_ROW.key,
            count: parts.keys.len() as u64,
            most: 8,
        },
        Count {
            key: DENY_ROW.key,
            count: parts.deny.len() as u64,
            most: 16,
        },
    ])
}
