//! The faults of a station file, each with its key.
ghost use Rattle.std.specs.Prelude.{◌≡◌, string_bytes};

use std::marker::Model;
use thiserror::Error;

/// The key at fault, as `radio.0.plan`. Contracts see it as its bytes.
#[derive(Debug, Drop)]
pub struct KeyText {
    text: String,
}

impl Model for KeyText {
    ghost use Rattle.std.specs.Prelude.{List, ℕ, string_bytes};

    ghost Value = { List ℕ };

    ghost view = { λ k. string_bytes k.text };
}

impl KeyText {
    // The key with this text.
    pub(crate) fn new(text: String) -> KeyText
        ensures { result ≡ string_bytes text }
    {
        KeyText { text }
    }

    /// The bytes of the key.
    pub fn bytes(&self) -> &[u8]
        ensures { result.now ≡ self.now }
    {
        self.text.as_bytes()
    }
}

/// Why a station file was refused: the first of its faults, in this order.
#[derive(Debug, Drop, Error)]
pub enum StationFault {
    /// The text is not UTF-8, or is not a TOML document.
    #[error("not a TOML document")]
    NotToml,
    /// A table has a key that is not one of its rows.
    #[error("unknown key")]
    UnknownKey { key: KeyText },
    /// A key that is required is not in its table.
    #[error("missing key")]
    Missing { key: KeyText },
    /// A value is not of the type and range of its key.
    #[error("value out of range")]
    Range { key: KeyText },
    /// There are more than 16 radios, servers and leap second files together, 4 radios of a plan, 8 links, 8 keys or 16 denied nets.
    #[error("too many: {count}")]
    TooMany { key: KeyText, count: u64 },
    /// Memory ran out.
    #[error("out of memory")]
    Memory,
}
