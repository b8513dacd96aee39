//! What holds of the history of every test, whatever lines are read. `specs` states it.

ghost use Rattle.jh_test_laws.specs.Asking.{CallsAsk};
ghost use Rattle.jh_test_laws.specs.Healing.{HealsAreAccepted, HealsOnce};
ghost use Rattle.jh_test_laws.specs.TestHistory.{HistoriesAreFormed, HistoriesAreJudged};
ghost use Rattle.jh_test_laws.specs.TestHistory.{KeyHistoriesAreJudged};

use jh_conversation::{calls_are_offers, history_is_well_formed};

/// Each call goes to its thread's node, and asks with what the calls before it leave: the value of its request, the next
/// transaction of the seed, and the key whose turn it is.
pub fn calls_ask()
    ensures { CallsAsk }
{}

/// At most one step ends all faults for the test, and the nemesis accepts it.
pub fn faults_end_once()
    ensures once { HealsOnce }
    ensures accepted { HealsAreAccepted }
{}

/// The history is well formed, as checkers ask it: each process does one operation at a time, and nothing after it crashed.
pub fn histories_are_formed()
    ensures { HistoriesAreFormed }
{
    history_is_well_formed();
}

/// No checker refuses the history of a test whose keys are not independent, but as out of memory.
pub fn histories_are_judged()
    ensures { HistoriesAreJudged }
{
    history_is_well_formed();
    calls_are_offers();
}

/// Where the keys of a test are independent, no checker refuses the history of a key, but as out of memory or
/// for a thread that could not be had.
pub fn key_histories_are_judged()
    ensures { KeyHistoriesAreJudged }
{
    history_is_well_formed();
    calls_are_offers();
}
