//! What arguments ask for. Each law is the clause of a function that does nothing.

ghost use Rattle.std.specs.Prelude.{◌≡◌, ◌⊎◌, List, []};
ghost use Rattle.clap.specs.Words.{App, Text, fault_of};
ghost use Rattle.jh_arguments.specs.Accounts.{Accounts};
ghost use Rattle.jh_arguments.specs.Answers.{ArgumentsAskFor, ArgumentsAskForTest};
ghost use Rattle.jh_arguments.specs.Commands.{TestAsked};
ghost use Rattle.jh_arguments.specs.Line.{IsCommandLine};
ghost use Rattle.jh_arguments.specs.declared.commands.Command.{Command};

/// Arguments that `clap` takes ask for something: for one command and no test, or for one test and no command. The
/// command has the accounts that it is given, whichever they are.
pub fn argument_laws()
    ensures asked { (app : App) (arguments : List Text) → IsCommandLine app → fault_of app arguments ≡ []
        → ((given : Accounts) → (command : Command) × ArgumentsAskFor arguments given command)
        ⊎ ((asked : TestAsked) × ArgumentsAskForTest arguments asked) }
    ensures one { (arguments : List Text) (given : Accounts) (command other : Command)
        → ArgumentsAskFor arguments given command → ArgumentsAskFor arguments given other
        → command ≡ other }
    ensures one_test { (arguments : List Text) (asked other : TestAsked)
        → ArgumentsAskForTest arguments asked → ArgumentsAskForTest arguments other → asked ≡ other }
    ensures apart { (arguments : List Text) (given : Accounts) (command : Command) (asked : TestAsked)
        → ArgumentsAskFor arguments given command → ArgumentsAskForTest arguments asked → ⊥ }
{}
