//! The conversation.
ghost use Rattle.std.specs.Prelude.{◌≡◌, List};
ghost use Rattle.jh_lines.specs.Events.{TalkEvent, Went};
ghost use Rattle.jh_lines.specs.Endings.{IsConversation};

use crate::ending::Ending;
use crate::hearing::Hearing;
use crate::machine::Machine;
use crate::peer::Peer;
use std::alloc::Global;

/// Holds a conversation: tells the peer all that the machine says, and only then listens again.
///
/// A turn here is to tell and to listen; a turn of a test (`jh_conversation`) is all that it can
/// say at a moment. No line is held back for a full buffer, and none is too long. It
/// takes the memory of the longest line, and of the most that is said to what is heard at once.
pub fn converse<P: Peer, M: Machine>(alloc: Global, peer: &mut P, machine: &mut M) -> Ending
    ensures { (past : List TalkEvent)
        × Went P.told P.heard P.ended P.tell_failed P.listen_failed peer.old past peer.new
        × IsConversation M.opening M.after_line M.answer_to M.has_finished
        machine.old past machine.new result }
{
    let mut hearing = Hearing::new(alloc);
    let mut out = Vec::new(alloc);
    let Ok(()) = machine.open(&mut out) else {
        return Ending::OutOfMemory;
    };
    let mut buffer = [0u8; 4096];
    for _turn in 0..u64::MAX {
        if let Err(error) = peer.tell(out.as_slice()) {
            return Ending::WriteFailed(error);
        }
        if machine.is_over() {
            return Ending::Over;
        }
        out.clear();
        let count = match peer.listen(&mut buffer) {
            Ok(count) => count,
            Err(error) => return Ending::ReadFailed(error),
        };
        if count == 0 {
            let Ok(()) = hearing.hear_end(machine, &mut out) else {
                return Ending::OutOfMemory;
            };
            return match peer.tell(out.as_slice()) {
                Ok(()) => Ending::InputEnded,
                Err(error) => Ending::WriteFailed(error),
            };
        }
        let Ok(()) = hearing.hear(&buffer[..count], machine, &mut out) else {
            return Ending::OutOfMemory;
        };
    }
    Ending::TooManyTurns
}
