//! A station that no file names: a radio of each plan.
ghost use Rattle.std.specs.Prelude.{◌≡◌, IfOk};
ghost use Rattle.station_values.specs.KeptStation.{radio_kept};
ghost use Rattle.station_values.specs.Station.{one_of_each, plain_radio};

use crate::station::{Parts, Radio, Station, TopNumbers};
use std::alloc::{AllocError, Global};
use tick_units::Plan;

// A radio without delay, whose log is named by its plan.
fn plain_radio(alloc: Global, plan: Plan) -> Result<Radio, AllocError>
    ensures { IfOk result (λ r. radio_kept r ≡ plain_radio plan) }
{
    Ok(Radio {
        plan,
        log: String::from_str(alloc, plan.word())?,
        delay: 0,
    })
}

impl Station {
    /// A station of one radio of each plan in the order DCF77, MSF, WWVB. Each has no delay, and a log named by its plan's word.
    /// The station has no server, leap second file, link, key or denied net, and the numbers that a file has by default.
    pub fn one_of_each(alloc: Global) -> Result<Station, AllocError>
        ensures { IfOk result (λ station. station ≡ one_of_each) }
    {
        let mut radios = Vec::with_capacity(alloc, 3)?;
        radios.push_reserved(plain_radio(alloc, Plan::Dcf)?);
        radios.push_reserved(plain_radio(alloc, Plan::Msf)?);
        radios.push_reserved(plain_radio(alloc, Plan::Wwvb)?);
        Ok(Station::new(Parts {
            top: TopNumbers::by_default(),
            radios,
            servers: Vec::new(alloc),
            leap_file: None,
            links: Vec::new(alloc),
            keys: Vec::new(alloc),
            deny: Vec::new(alloc),
        }))
    }
}
