//! What stands for a code plan: its name, and its reference ID.
ghost use Rattle.std.specs.Prelude.{◌≡◌, IfSome};
ghost use Rattle.tick_units.specs.Plans.{plans, word_of, plan_of, reference_id_of};

use crate::Plan;

impl Plan {
    /// All plans, in the order in which texts and faults name them.
    pub fn all() -> &'static [Plan]
        ensures { result.now ≡ plans }
    {
        &[Plan::Dcf, Plan::Msf, Plan::Wwvb]
    }

    /// Its name in commands, station files and scripts: `dcf`, `msf` or `wwvb`.
    pub fn word(self) -> &'static str
        ensures { result.now ≡ word_of self }
    {
        match self {
            Plan::Dcf => "dcf",
            Plan::Msf => "msf",
            Plan::Wwvb => "wwvb",
        }
    }

    /// The plan of a name. `None` where no plan has this name.
    pub fn of_word(word: &str) -> Option<Plan>
        ensures value { result ≡ plan_of word.now }
        ensures named { IfSome result (λ plan. word.now ≡ word_of plan) }
        ensures every { (plan : Plan) → word.now ≡ word_of plan → result ≡ Some plan }
    {
        match word {
            "dcf" => Some(Plan::Dcf),
            "msf" => Some(Plan::Msf),
            "wwvb" => Some(Plan::Wwvb),
            _ => None,
        }
    }

    /// The reference ID of a server whose clock follows this plan: four ASCII letters, the first in the highest byte
    /// (RFC 5905, section 7.3).
    pub fn reference_id(self) -> u32
        ensures { result ≡ reference_id_of self }
    {
        match self {
            Plan::Dcf => 0x4443_4600,
            Plan::Msf => 0x4d53_4600,
            Plan::Wwvb => 0x5757_5642,
        }
    }
}
