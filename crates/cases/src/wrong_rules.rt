// What the law of a session is good for: rules that are wrong in one clause break it.
ghost use Rattle.cases.specs.WrongRules.{WrongRulesBreakTheLaw};

use history::law::law_holds;
use settings::colour::Colour;
use summaries::exact_list::ExactList;

/// Three rule sets that differ from the rules of a session in one clause give histories that are not lawful.
pub fn wrong_rules_break_the_law()
    ensures { WrongRulesBreakTheLaw }
{
    law_holds::<Colour, ExactList>();
}
