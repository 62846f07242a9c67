//! Plays the lines of a script, one after the other.
use crate::{BoxedReceiver, Player, write_outcome};
use command_ends::Line;
use line_files::LineTaker;
use radio_receiver::Receiver;
use script_line::read_line;

/// A line of a script is too long at this many bytes.
pub const TOO_LONG: usize = 4096;

impl LineTaker for Player<BoxedReceiver> {
    ghost use Rattle.replay_command.specs.KeptPlayer.{IsReady};
    ghost use Rattle.replay_command.specs.Playing.{script_way};
    ghost use Rattle.replay_command.specs.Replay.{ReplayCase};
    ghost use Rattle.replay_command.specs.declared.replay.lines.TheConstants.{TOO_LONG};
    ghost use Rattle.std.specs.Prelude.{None, refl};

    ghost too_long = { TOO_LONG };

    ghost most = { None };

    ghost Case = { ReplayCase };

    ghost way = { script_way (λ b h. (Receiver-box b).stands_for b.value h) };

    ghost is_ready = { λ player count. IsReady (λ b. (Receiver-box b).least_start b.value) player };

    fn take_line(&mut self, text: &[u8], _count: u64, line: &mut Line) -> Option<usize> {
        let Some(script_line) = read_line(text) else {
            return None;
        };
        match self.play(&script_line) {
            Ok(outcome) => Some(write_outcome(&outcome, line)),
            Err(_) => None,
        }
    }

    ghost is_way = { λ of. record {
      none = refl;
      limit = λ lines. refl;
      room = λ lines text line says. tt;
      ends = λ player lines bad played. played;
    } };
}
