//! `decode`: decodes a log, and writes a line for each entry that is due to it.
ghost use Rattle.std.specs.Prelude.{◌≡◌};
ghost use Rattle.file_commands.specs.Decoding.{Decodes, KnowsMinutes, KnowsOpened, RunsDecode};
ghost use Rattle.command_ends.specs.Effects.{effect_of};
ghost use Rattle.command_ends.specs.Reports.{Reports, status_in};
ghost use Rattle.radio_receiver.specs.Histories.{blank_of};
ghost use Rattle.tick_units.specs.declared.marks.Plan.{Plan};

use command_ends::{Ending, Known, Outcome, Report, Subject, finish};
use line_files::{Decoding, ending_at, read_lines};
use outside_traits::{Failed, Outside, Sink, Source};
use radio_receiver::{DcfReceiver, LOG_LIMIT, MsfReceiver, Receiver, WwvbReceiver};
use tick_units::Plan;

// Decodes a log with a blank receiver, and writes the lines of its entries and the status line.
fn decode_with<S: Source, R: Receiver, K: Sink>(log: &mut S, receiver: R, out: &mut K) -> Outcome
    requires { R.least_start receiver ≡ 0 }
    ensures number { S.opening log.new ≡ S.opening log.old }
    ensures decodes { (plan : Plan) → R.stands_for receiver (blank_of plan) →
        Decodes plan (S.state log.old) (S.state log.new) (K.state out.old) (K.state out.new) (status_in result.report) }
    ensures reports { (plan : Plan) → R.stands_for receiver (blank_of plan) →
        Reports result.report (K.state out.old) (K.state out.new) }
    ensures minutes { (plan : Plan) → R.stands_for receiver (blank_of plan) →
        KnowsMinutes plan (S.state log.old) (S.state log.new) result.report result.known.minutes }
{
    let mut decoding = Decoding::new(receiver);
    match read_lines(log, &mut decoding, LOG_LIMIT, out) {
        Ok(end) => Outcome {
            report: finish(ending_at(Subject::Feed(0), end), out),
            known: Known::of_minutes(decoding.minutes()),
        },
        Err(Failed) => Outcome {
            report: Report::Unwritten,
            known: Known::nothing(),
        },
    }
}

// Decodes the log of a plan. Its receiver is here and not in a box, since a call through a box for each reduction costs much
// time.
fn decode<S: Source, K: Sink>(log: &mut S, plan: Plan, out: &mut K) -> Outcome
    ensures number { S.opening log.new ≡ S.opening log.old }
    ensures decodes { Decodes plan (S.state log.old) (S.state log.new) (K.state out.old) (K.state out.new) (status_in result.report) }
    ensures reports { Reports result.report (K.state out.old) (K.state out.new) }
    ensures minutes { KnowsMinutes plan (S.state log.old) (S.state log.new) result.report result.known.minutes }
{
    match plan {
        Plan::Dcf => decode_with(log, DcfReceiver::new(), out),
        Plan::Msf => decode_with(log, MsfReceiver::new(), out),
        Plan::Wwvb => decode_with(log, WwvbReceiver::new(), out),
    }
}

/// Opens a log, decodes it and gives it back. Writes a line for each entry that is due to it, and then the status line.
pub fn open_and_decode<O: Outside, K: Sink>(
    plan: Plan,
    name: &str,
    outside: &mut O,
    out: &mut K,
) -> Outcome
    ensures gate { O.gate_out outside.new ≡ O.gate_out outside.old }
    ensures runs { RunsDecode plan name.now
        (effect_of (O.state outside.old) (O.state outside.new) (K.state out.old) (K.state out.new) (status_in result.report)) }
    ensures reports { Reports result.report (K.state out.old) (K.state out.new) }
    ensures minutes { KnowsOpened plan name.now
        (effect_of (O.state outside.old) (O.state outside.new) (K.state out.old) (K.state out.new) (status_in result.report))
        result.report result.known.minutes }
{
    let Ok(mut log) = outside.open_log(name) else {
        return Outcome {
            report: finish(Ending::NotOpened(Subject::Feed(0)), out),
            known: Known::nothing(),
        };
    };
    let outcome = decode(&mut log, plan, out);
    outside.give_back_log(log);
    outcome
}
