//! Receivers of each code plan.
ghost use Rattle.std.specs.Prelude.{◌≡◌, ◌+◌, ◌-◌, true, None, ◌++◌, ◌∷◌, [], List, map, IfSome};
ghost use Rattle.std.specs.List.{last_or};
ghost use Rattle.std.specs.Option.{option_to_list};
ghost use Rattle.tick_units.specs.declared.marks.Mark.{Mark};
ghost use Rattle.minute_pair.specs.Answers.{answers_by};
ghost use Rattle.minute_pair.specs.Pairing.{HasPairedBy};
ghost use Rattle.minute_pair.specs.Segments.{segments_by};
ghost use Rattle.minute_pair.specs.Years.{BelievesYears};
ghost use Rattle.radio_receiver.specs.Histories.{blank_of, sent};

use crate::receiver::Receiver;
use code_plans::Listed;
use minute_pair::PairingOf;
use second_marks::{Held, mark_next};
use tick_units::{Heard, Local, Mark, Plan, Reduction};

/// A receiver of a code plan.
#[derive(Drop)]
pub struct PlanReceiver<C> {
    held: Held,
    pairing: PairingOf<C>,
    delay_us: u32,
    // One more than the start of the last reduction, and 0 where it has received none.
    least_start: u64,
    // The answer to the last mark that began a minute. It stays here, so that nothing is written where there is none.
    answer: Option<Heard>,
}

// A moment less a delay, and not below 0.
fn less_delay(at: Local, delay_us: u32) -> Local
    ensures { result ≡ at - delay_us }
{
    Local::new(at.get().saturating_sub(u64::from(delay_us))).unwrap()
}

impl<C: Listed> PlanReceiver<C> {
    /// A blank receiver without a path delay.
    pub fn new() -> PlanReceiver<C>
        ensures stands { ⟦<PlanReceiver<C> as Receiver>⟧.stands_for result (blank_of C.which) }
        ensures least { ⟦<PlanReceiver<C> as Receiver>⟧.least_start result ≡ 0 }
    {
        PlanReceiver {
            held: Held::Nothing,
            pairing: PairingOf::new(),
            delay_us: 0,
            least_start: 0,
            answer: None,
        }
    }

    // Takes the next mark, which begins a minute, and keeps the answer that it completes. It is not inlined, since it is rare.
    #[inline(never)]
    fn turn(&mut self, mark: &Mark)
        ensures paired { (marks : List Mark) → HasPairedBy C.code self.old.pairing marks →
            C.code.begins_minute (last_or None marks) mark.now ≡ true →
            HasPairedBy C.code self.new.pairing (marks ++ mark.now ∷ []) }
        ensures answered { (marks : List Mark) → HasPairedBy C.code self.old.pairing marks →
            C.code.begins_minute (last_or None marks) mark.now ≡ true →
            map (sent self.old.delay_us) (answers_by C.code (segments_by C.code (marks ++ mark.now ∷ []))) ≡
            map (sent self.old.delay_us) (answers_by C.code (segments_by C.code marks)) ++
            option_to_list self.new.answer }
        ensures years { IfSome self.new.answer (λ heard. BelievesYears heard.kind) }
        ensures held { self.new.held ≡ self.old.held }
        ensures delay { self.new.delay_us ≡ self.old.delay_us }
        ensures least { self.new.least_start ≡ self.old.least_start }
    {
        self.answer = match self.pairing.turn(mark) {
            Some(heard) => Some(Heard {
                at: less_delay(heard.at, self.delay_us),
                kind: heard.kind,
            }),
            None => None,
        };
    }
}

impl<C: Listed> Receiver for PlanReceiver<C> {
    ghost use Rattle.radio_receiver.specs.Receiving.{Receives};

    ghost stands_for = { λ receiver h. Receives C.which C.code receiver h };

    ghost least_start = { λ receiver. receiver.least_start };

    fn plan(&self) -> Plan {
        C::plan()
    }

    fn fit(&mut self, delay_us: u32) {
        self.delay_us = delay_us;
    }

    #[inline(always)]
    fn hear(&mut self, reduction: Reduction) -> Option<Heard> {
        self.least_start = reduction.at.get() + 1;
        let Some(mark) = mark_next::<C>(&mut self.held, reduction) else {
            return None;
        };
        if self.pairing.adds(&mark) {
            return None;
        }
        self.turn(&mark);
        self.answer
    }

    #[tactic(auto, using(crate::proofs::LastLaws::blank_is))]
    fn blank(&self) -> bool {
        self.least_start == 0
    }
}
