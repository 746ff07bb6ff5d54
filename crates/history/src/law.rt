// The law of a session, on a contract.
ghost use Rattle.history.specs.Laws.{Law};

use settings::kind::Setting;
use summaries::kind::Summary;

/// The law holds of every history, for every kind of setting and of summary.
pub fn law_holds<T: Setting, S: Summary>()
    ensures { Law S.Summary.kind T.Setting.kind }
{}
