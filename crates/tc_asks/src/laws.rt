//! What holds of askers, for callers to cite.
ghost use Rattle.std.specs.Prelude.{◌≡◌, ◌++◌, ◌∷◌, [], List};
ghost use Rattle.tc_model.specs.Scripts.{Lines};
ghost use Rattle.tc_desk.specs.declared.rows.LogResult.TheVariants.{Pending};
ghost use Rattle.tc_desk.specs.declared.rows.LogRow.{LogRow};
ghost use Rattle.tc_asks.specs.Progress.{HasTakenIn, Progress};

/// What an asker has taken in stays taken in when rows come behind, and when a pending row, which
/// it has not taken in, goes.
pub fn asker_stays_fit()
    ensures longer { (scripts : List Lines) (log more : List LogRow) (p : Progress)
        → HasTakenIn scripts log p → HasTakenIn scripts (log ++ more) p }
    ensures settled { (scripts : List Lines) (log : List LogRow) (row : LogRow) (p : Progress)
        → row.result ≡ Pending → HasTakenIn scripts (log ++ row ∷ []) p
        → HasTakenIn scripts log p }
{}
