//! Gives back the logs and links of a station.
ghost use Rattle.std.specs.Prelude.{◌≡◌, map};
ghost use Rattle.std.specs.Option.{option_to_list};
ghost use Rattle.outside_traits.specs.ManyOut.{AreOut, GivesAllBack};
ghost use Rattle.station_gear.specs.Gears.{log_states, link_states, states_of, numbers_of};

use crate::Gear;
use outside_traits::Outside;

// Gives back logs, in order.
fn give_back_logs<O: Outside>(outside: &mut O, logs: Vec<O::Log>)
    requires { AreOut (O.state outside.old).openings (map O.Log.opening logs.items) }
    ensures back { GivesAllBack (O.state outside.old) (O.state outside.new) (map
        O.Log.opening logs.items) (log_states O.Log.state logs.items) }
    ensures gate { O.gate_out outside.new ≡ O.gate_out outside.old }
{
    for log in logs {
        outside.give_back_log(log);
    }
}

// Gives back a log, where there is one.
fn give_back_leap<O: Outside>(outside: &mut O, leap: Option<O::Log>)
    requires { AreOut (O.state outside.old).openings (map O.Log.opening (option_to_list leap)) }
    ensures back { GivesAllBack (O.state outside.old) (O.state outside.new) (map
        O.Log.opening (option_to_list leap)) (log_states O.Log.state (option_to_list leap)) }
    ensures gate { O.gate_out outside.new ≡ O.gate_out outside.old }
{
    if let Some(log) = leap {
        outside.give_back_log(log);
    }
}

// Gives back links, in order.
fn give_back_links<O: Outside>(outside: &mut O, links: Vec<O::Net>)
    requires { AreOut (O.state outside.old).openings (map O.Net.opening links.items) }
    ensures back { GivesAllBack (O.state outside.old) (O.state outside.new) (map
        O.Net.opening links.items) (link_states O.Net.state links.items) }
    ensures gate { O.gate_out outside.new ≡ O.gate_out outside.old }
{
    for link in links {
        outside.give_back_link(link);
    }
}

/// Gives back all logs and links of a gear, in the order in which they were opened.
pub fn give_back_gear<O: Outside>(outside: &mut O, gear: Gear<O::Log, O::Net>)
    requires { AreOut (O.state outside.old).openings (numbers_of O.Log.opening
        O.Net.opening gear) }
    ensures back { GivesAllBack (O.state outside.old) (O.state outside.new) (numbers_of O.Log.opening
        O.Net.opening gear) (states_of O.Log.state O.Net.state gear) }
    ensures gate { O.gate_out outside.new ≡ O.gate_out outside.old }
{
    let Gear {
        logs,
        leap,
        servers,
        links,
    } = gear;
    give_back_logs(outside, logs);
    give_back_leap(outside, leap);
    give_back_links(outside, servers);
    give_back_links(outside, links);
}
