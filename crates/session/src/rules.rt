// What the rules of a session promise in any memory, on a contract.
ghost use Rattle.session.specs.Promises.{RulesStand};

use settings::kind::Setting;
use summaries::kind::Summary;

/// There is always a spare place, and a ruling is a clash for one reason, for every kind of setting and of summary.
pub fn rules_stand<T: Setting, S: Summary>()
    ensures { RulesStand S.Summary.kind T.Setting.kind }
{}
