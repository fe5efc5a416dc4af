//! Whether some agent waits, by the rows.
ghost use Rattle.std.specs.Prelude.{◌≡◌};
ghost use Rattle.tc_desk.specs.Logs.{is_pending};
ghost use Rattle.tc_verify.specs.Verdicts.{any_waits, some_pending};

use tc_desk::LogResult;
use tc_histline::TextRow;
use tc_lists::Seq;

/// Whether some row of these logs is pending.
pub fn any_waits(logs: &[Seq<TextRow>]) -> bool
    ensures { result ≡ any_waits logs.now }
{
    logs.iter().any(|log| some_pending(log.items()))
}

// Whether some row is pending.
fn some_pending(rows: &[TextRow]) -> bool
    ensures { result ≡ some_pending rows.now }
{
    rows.iter().any(|row| is_pending(&row.result))
}

// Whether the ask waits.
fn is_pending(became: &LogResult) -> bool
    ensures { result ≡ is_pending became.now }
{
    match became {
        LogResult::Pending => true,
        LogResult::Replied(_) | LogResult::Refused(_) | LogResult::Polled(_) => false,
    }
}
