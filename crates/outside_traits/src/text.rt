//! Writes texts to a sink.
ghost use Rattle.std.specs.Prelude.{OnErr, OnOk};
ghost use Rattle.outside_traits.specs.Writing.{WritesAll, WritesPrefix};

use crate::{Failed, Sink};

/// Writes all of a text, in as many writes as the sink needs.
///
/// `Failed` comes with the first write that fails, which is not tried again. The sink then holds a prefix of the text.
pub fn write_all<K: Sink>(out: &mut K, text: &[u8]) -> Result<(), Failed>
    ensures ok { OnOk result (WritesAll (K.state out.old) (K.state out.new) text.now) }
    ensures err { OnErr result (WritesPrefix (K.state out.old) (K.state out.new) text.now) }
{
    let mut rest = text;
    'rest: while !rest.is_empty() {
        let count = out.write(rest)?;
        rest = rest.split_at(count).1;
    }
    Ok(())
}
