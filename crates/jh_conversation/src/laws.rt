//! What holds of every test and every list of lines that is read. Each law is the clause of a
//! function that does nothing; `specs/Laws.antt` states it.

ghost use Rattle.jh_conversation.specs.Conversations.{ConversationIsRun};
ghost use Rattle.jh_conversation.specs.Laws.{AlwaysWaits, CallsAreTimely, CellsAreEnvironment};
ghost use Rattle.jh_conversation.specs.Laws.{FirstBadIsKept, HistoryIsFormed, HistoryIsTalk};
ghost use Rattle.jh_conversation.specs.Laws.{KindsAreApart, RestIsQuiet, RestIsStart};
ghost use Rattle.jh_conversation.specs.Laws.{StopEndsMainCalls, TimesAreInOrder, TurnSettles};
ghost use Rattle.jh_conversation.specs.Laws.{TwoStopsEndCalls};
ghost use Rattle.jh_conversation.specs.Offered.{CallsAreOffers, MainCallsAreOffers};

use jh_gen::{asked_answers, end_keeps_generator};

/// The history has the records that were said and those that were heard, in that order, each once,
/// and nothing else. Its times never go back, and each record by itself tells whether it was said or
/// heard.
pub fn history_is_the_conversation()
    ensures talk { HistoryIsTalk }
    ensures order { TimesAreInOrder }
    ensures kinds { KindsAreApart }
{}

/// No process has two calls open, none goes on after a crash, and each completion is of the call that
/// its process has open, with a value that this call can have.
pub fn history_is_well_formed()
    ensures { HistoryIsFormed }
{}

/// At each moment the changes of links and nodes by all steps, applied to the start in order, give
/// exactly what the active faults make of the start.
pub fn cells_are_environment()
    ensures { CellsAreEnvironment }
{}

/// When *rest* begins no fault is active, and the changes of all steps add up to the start itself.
pub fn rest_is_start()
    ensures quiet { RestIsQuiet }
    ensures start { RestIsStart }
{}

/// A stop ends the calls of *main*. A second one, or a line that is no reply, ends those of *final*
/// too. No call of *main* is past the time limit or faster than the rate.
pub fn calls_are_bounded()
    ensures stop { StopEndsMainCalls }
    ensures stops { TwoStopsEndCalls }
    ensures timely { CallsAreTimely }
{}

/// Each turn ends, for the bounds on its rounds and its phases suffice. The machine then waits for
/// something that `specs/Laws.antt` names.
pub fn turns_end()
    ensures settles { TurnSettles }
    ensures waits { AlwaysWaits }
{}

/// The first line that is no reply is kept with its number, and no other.
pub fn first_bad_is_kept()
    ensures { FirstBadIsKept }
{}

/// A conversation that has heard some lines is the machine that all other laws speak of, after these
/// lines.
pub fn conversation_is_run()
    ensures { ConversationIsRun }
{}

/// Each call is what the generator offers to its thread behind the calls before it: in *main* that of
/// the test, limited to its calls and to clients, and in *final* the final one likewise.
pub fn calls_are_offers()
    ensures all { CallsAreOffers }
    ensures main { MainCallsAreOffers }
{
    asked_answers();
    end_keeps_generator();
}
