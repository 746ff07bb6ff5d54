// Worked examples: facts about the definitions, calls of a line, cases of a session and wrong rules that break its law, as theorems, and
// tests at the limits.
#![tactic(auto)]

ghost use Rattle.cases.specs.Examples.{Examples};
ghost use Rattle.cases.specs.LineExamples.{LineExamples};
ghost use Rattle.cases.specs.RuleExamples.{RuleExamples};
ghost use Rattle.cases.specs.SessionCases.{SessionCases};

pub mod each_kind;
pub mod first_served;
#[cfg(test)]
mod line_tests;
#[cfg(test)]
mod tests;
mod widest;
pub mod wrong_rules;

/// The worked examples hold of the definitions.
pub fn examples_stand() -> u8
    ensures { Examples }
{
    0
}

/// The worked examples of the line hold of the definitions.
pub fn line_examples_stand()
    ensures { LineExamples }
{}

/// The worked cases of a session are histories: the rules answer every call as it is listed.
pub fn session_cases_stand()
    ensures { SessionCases }
{}

/// The worked examples of a session's rules hold of the definitions.
pub fn rule_examples_stand()
    ensures { RuleExamples }
{}
