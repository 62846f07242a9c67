//! The gate's answer to a request.

use reply_core::Code;

/// What a client's request gets, and whether the gate could keep it in its table.
#[derive(Clone, Copy, Debug, PartialEq, Eq)]
pub struct Judged {
    pub code: Code,
    pub kept: bool,
}
