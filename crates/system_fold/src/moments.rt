//! Moments of the host's counter: the first one, and the later of two.
ghost use Rattle.std.specs.Prelude.{◌≡◌, ◌<◌, ◌^◌, max};

use tick_units::Local;

// The zero of the host's counter.
pub fn beginning() -> Local
    ensures { result ≡ 0 }
{
    match Local::new(0) {
        Some(moment) => moment,
        None => unreachable!(),
    }
}

// The later of two moments.
pub fn later(first: Local, second: Local) -> Local
    ensures value { result ≡ max first second }
    ensures below { second < 2 ^ 50 }
{
    if first.get() < second.get() {
        second
    } else {
        first
    }
}
