//! What holds of every stream of bytes and of every conversation.
ghost use Rattle.jh_lines.specs.Laws.{CutsLines, HearsNoMore, TellsFirst};

use crate::machine::Machine;

/// Lines are what stands between line feeds, all of it, in order.
pub fn cuts_lines()
    ensures { CutsLines }
{}

/// Whatever was heard at some moment, all that was due was told before.
pub fn tells_first()
    ensures { TellsFirst }
{}

/// Where a machine listens no more, what it says to the whole input is what it has said, whatever
/// comes behind.
pub fn hears_no_more<M: Machine>()
    ensures { HearsNoMore M.opening M.after_line M.answer_to M.has_finished }
{}
