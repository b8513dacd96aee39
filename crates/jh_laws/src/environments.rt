//! Environments, written and read as bytes.

ghost use Rattle.std.specs.Prelude.{◌≡◌, [], ◌∷◌};
ghost use Rattle.jh_edn.specs.Edn.{Edn};
ghost use Rattle.jh_edn.specs.Print.{print};
ghost use Rattle.jh_edn.specs.Printable.{IsPrintable};
ghost use Rattle.jh_edn.specs.Spelling.{depth_limit, SpellsAll};
ghost use Rattle.jh_env.specs.Overlay.{EnvValue, cells_of};
ghost use Rattle.jh_env.specs.TextCells.{SpellsEnv};
ghost use Rattle.jh_env.specs.TextLaws.{CanStart, AreSameCells};
ghost use Rattle.jh_env.specs.TextWritten.{edn_of_env};
ghost use Rattle.jh_laws.specs.Lines.{ReadsBack};

use jh_edn::print_laws;
use jh_env::environments_read_back;

/// The value of an environment that can start can be printed. What is printed spells this value alone, and
/// a value that is read from these bytes is a text of the environment's names and cells.
/// So two environments that are printed alike have the same names and cells.
pub fn environment_lines_read_back()
    ensures printable { (env : EnvValue) → CanStart env → IsPrintable depth_limit (edn_of_env env) }
    ensures spells { (env : EnvValue) → CanStart env
        → ReadsBack (edn_of_env env ∷ []) (print (edn_of_env env)) }
    ensures bytes { (env : EnvValue) (value : Edn) → CanStart env
        → SpellsAll (value ∷ []) (print (edn_of_env env))
        → SpellsEnv value env.names (cells_of env) }
    ensures one { (env other : EnvValue) → CanStart env → CanStart other
        → print (edn_of_env env) ≡ print (edn_of_env other)
        → (other.names ≡ env.names) × AreSameCells (cells_of env) (cells_of other) }
{
    print_laws();
    environments_read_back()
}
