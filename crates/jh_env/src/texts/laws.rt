//! The laws of the texts of environments, clauses of a function that does nothing.

ghost use Rattle.std.specs.Prelude.{◌≡◌, ℕ, List};
ghost use Rattle.jh_edn.specs.Edn.{Edn};
ghost use Rattle.jh_env.specs.Cells.{Table};
ghost use Rattle.jh_env.specs.Overlay.{EnvValue, cells_of};
ghost use Rattle.jh_env.specs.TextCells.{SpellsEnv};
ghost use Rattle.jh_env.specs.TextErrors.{RefusesSpelledEnv};
ghost use Rattle.jh_env.specs.TextLaws.{CanStart, AreSameCells};
ghost use Rattle.jh_env.specs.TextWritten.{edn_of_env};
ghost use Rattle.jh_env.specs.declared.texts.EnvTextError.{EnvTextError};

/// What is written of an environment that can start is a text of its names and cells, a text of an
/// environment is refused only as out of memory, and it means one environment. So what
/// `value_of_env` writes, `env_of_value` reads back.
pub fn environments_read_back()
    ensures written { (env : EnvValue) → CanStart env
        → SpellsEnv (edn_of_env env) env.names (cells_of env) }
    ensures accepted { (value : Edn) (names : List (List ℕ)) (cells : Table) (e : EnvTextError)
        → SpellsEnv value names cells → RefusesSpelledEnv value e → e ≡ EnvTextError.OutOfMemory }
    ensures means_one { (value : Edn) (names others : List (List ℕ)) (cells more : Table)
        → SpellsEnv value names cells → SpellsEnv value others more → (others ≡ names)
        × AreSameCells cells more }
{}
