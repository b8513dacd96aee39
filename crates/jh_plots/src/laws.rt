//! What holds of all counts. The law is the clause of a function that does nothing.

ghost use Rattle.std.specs.Prelude.{◌≡◌, ◌<◌, ◌&&◌, ℕ, List, count_by, is_some, sum_by};
ghost use Rattle.jh_ops.specs.Operation.{is_kind};
ghost use Rattle.jh_ops.specs.declared.operation.Kind.{Kind};
ghost use Rattle.jh_plots.specs.CallsInside.{AreCallsWithin};
ghost use Rattle.jh_plots.specs.Rates.{count_in, windows_of};
ghost use Rattle.jh_plots.specs.declared.calls.TimedCall.{TimedCall};

/// The counts of all windows together are those of the calls that ended, of each kind.
pub fn count_laws()
    ensures { (width end : ℕ) (kind : Kind) (calls : List TimedCall) → 0 < width
        → AreCallsWithin end calls
        → sum_by (count_in width calls kind) (windows_of width end)
        ≡ count_by (λ call. is_kind kind call.kind && is_some call.ended) calls }
{}
