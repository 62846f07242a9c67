//! What a run that serves says before it begins, to a person who has started it by hand.

use std::fmt;

/// What a station serves, and which of its logs are pipes. Its `Display` is the note: whole lines.
#[derive(Drop)]
pub struct Beginning {
    /// The ports of its links.
    pub ports: Vec<u16>,
    /// The names of its radios' logs that are FIFOs.
    pub pipes: Vec<String>,
}

impl fmt::Display for Beginning {
    fn fmt<W: fmt::Write>(&self, f: &mut fmt::Formatter<W>) -> fmt::Result {
        for pipe in &self.pipes {
            let name = pipe.as_str();
            f.write_str("radio_ntpd: ")?;
            f.write_str(name)?;
            f.write_str(" is a FIFO: its opening waits for a writer\n")?;
        }
        for port in &self.ports {
            write!(
                f,
                "radio_ntpd: serves port {port} once all files are open; standard output follows at the end\n"
            )?;
        }
        Ok(())
    }
}
