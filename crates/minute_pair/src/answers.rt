//! The answer to a closed segment, by the segment before it.
ghost use Rattle.std.specs.Prelude.{◌≡◌, ◌+◌, ◌-◌, ◌*◌, ◌<◌, ◌^◌, IfOk};
ghost use Rattle.minute_pair.specs.Answers.{is_apart, agreed_leap};
ghost use Rattle.minute_pair.specs.Pairing.{answer_by, both_by, before_of_closed};
ghost use Rattle.minute_pair.specs.Years.{BelievesYears};
ghost use Rattle.tick_units.specs.Years.{SaysYears};

use tick_units::{Broken, Coded, Kind, Local};

// A segment that a mark closed: that mark's start, what the segment says or the least rule that it breaks. Also whether it has
// the mark of a leap second more than other minutes.
#[derive(Clone, Copy, Debug)]
pub struct Closed {
    pub close: Local,
    pub judged: Result<Coded, Broken>,
    pub has_leap: bool,
}

// The segment just before, as far as the answer to the next one needs it: an invalid one counts as none.
#[derive(Clone, Copy, Debug)]
pub enum Before {
    Nothing,
    Valid { close: Local, coded: Coded },
}

// What stands before the next segment.
pub fn before_by(closed: &Closed) -> Before
    ensures { result ≡ before_of_closed closed.now }
{
    match closed.judged {
        Ok(coded) => Before::Valid {
            close: closed.close,
            coded,
        },
        Err(_) => Before::Nothing,
    }
}

// Whether a distance in microseconds is this many seconds, within 100 ms either way.
fn lasts(seconds: u64, apart: u64) -> bool
    requires seconds { seconds < 2 ^ 10 }
    requires apart { apart < 2 ^ 50 }
    ensures { result ≡ is_apart seconds apart }
{
    let whole = seconds * 1_000_000;
    whole <= apart + 100_000 && apart <= whole + 100_000
}

// The leap second that both announce.
pub fn leap_of_both(was: u64, is: u64) -> u64
    ensures { result ≡ agreed_leap was is }
{
    if was == is { is } else { 0 }
}

// The answer to a valid segment after a valid one.
fn answer_to_both(before: Local, was: &Coded, closed: &Closed, is: &Coded) -> Kind
    requires { SaysYears is.now }
    ensures kind { result ≡ both_by before was.now closed.now is.now }
    ensures years { BelievesYears result }
{
    let apart = closed.close.get().saturating_sub(before.get());
    let timely = lasts(60, apart) || (closed.has_leap && lasts(61, apart));
    let follows = is.minute >= 60 && is.minute - 60 == was.minute;
    if follows && timely {
        Kind::Verdict {
            second: is.minute,
            leap_at: leap_of_both(was.leap_at, is.leap_at),
        }
    } else {
        Kind::Differs {
            before: was.minute,
            now: is.minute,
            apart,
        }
    }
}

// The answer to a segment that closed.
pub fn answer(before: &Before, closed: &Closed) -> Kind
    requires { IfOk closed.now.judged (λ coded. SaysYears coded) }
    ensures kind { result ≡ answer_by before.now closed.now }
    ensures years { BelievesYears result }
{
    match &closed.judged {
        Err(Broken { rule }) => Kind::Refused { rule: *rule },
        Ok(is) => match before {
            Before::Nothing => Kind::Lone { second: is.minute },
            Before::Valid { close, coded } => answer_to_both(*close, coded, closed, is),
        },
    }
}
