//! The code plans that the server knows. A plan that is added has a crate of its own, which says what it is, and its rows here.
#![tactic(auto)]

use frame_rules::{CodePlan, SendPlan};
pub use plan_dcf::Dcf;
pub use plan_msf::Msf;
pub use plan_wwvb::Wwvb;
pub use tick_units::Plan;

/// A code plan that definitions have under its name.
pub trait Listed: CodePlan {
    ghost use Rattle.std.specs.Prelude.{◌≡◌};
    ghost use Rattle.code_plans.specs.Codes.{code_of};

    /// It is the plan of its name.
    ghost listed: { Self.code ≡ code_of Self.which };
}

impl Listed for Dcf {
    ghost use Rattle.std.specs.Prelude.{refl};

    ghost listed = { refl };
}

impl Listed for Msf {
    ghost use Rattle.std.specs.Prelude.{refl};

    ghost listed = { refl };
}

impl Listed for Wwvb {
    ghost use Rattle.std.specs.Prelude.{refl};

    ghost listed = { refl };
}

/// A code plan whose sending definitions have under its name.
pub trait ListedSending: SendPlan {
    ghost use Rattle.std.specs.Prelude.{◌≡◌};
    ghost use Rattle.code_plans.specs.Codes.{sending_of};

    /// It is sent as the plan of its name.
    ghost listed_sending: { Self.sending ≡ sending_of Self.which };
}

impl ListedSending for Dcf {
    ghost use Rattle.std.specs.Prelude.{refl};

    ghost listed_sending = { refl };
}

impl ListedSending for Msf {
    ghost use Rattle.std.specs.Prelude.{refl};

    ghost listed_sending = { refl };
}

impl ListedSending for Wwvb {
    ghost use Rattle.std.specs.Prelude.{refl};

    ghost listed_sending = { refl };
}

/// Calls a function that is generic in its code plan, by the name of a plan: `of_plan!(plan, hear_by(&mut held, reduction))`.
#[macro_export]
macro_rules! of_plan {
    ($plan:expr, $function:ident($($argument:expr),*)) => {
        match $plan {
            $crate::Plan::Dcf => $function::<$crate::Dcf>($($argument),*),
            $crate::Plan::Msf => $function::<$crate::Msf>($($argument),*),
            $crate::Plan::Wwvb => $function::<$crate::Wwvb>($($argument),*),
        }
    };
}
