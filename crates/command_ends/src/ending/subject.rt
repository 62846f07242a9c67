//! What a status line can name.
ghost use Rattle.std.specs.Prelude.{◌≡◌};

/// A file or a link of a command, as a status line names it. Feeds and links are numbered from 0.
#[derive(Clone, Copy, Debug, PartialEq, Eq)]
pub enum Subject {
    Station,
    Script,
    /// The journal that is read.
    Journal,
    /// The log of a radio, or the link to a server.
    Feed(u32),
    /// A link on which the station answers clients.
    Link(u32),
}
