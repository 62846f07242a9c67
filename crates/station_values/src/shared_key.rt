//! A key that a station shares with its clients.
ghost use Rattle.std.specs.Prelude.{◌≤◌, ◌<◌, length, string_bytes};

/// A key as a station keeps it. It has no `Debug`, so that no text contains the secret.
#[derive(Drop)]
pub struct SharedKey {
    /// Its number, above 0.
    pub id: u32,
    /// 1 to 32 bytes.
    pub secret: String,
    ghost some: { 0 < id },
    ghost least: { 1 ≤ length (string_bytes secret) },
    ghost most: { length (string_bytes secret) ≤ 32 },
}
