// The suites of a session, as a round: after suite 8 comes suite 1.
ghost use Rattle.std.specs.Prelude.{◌≡◌, ◌≤◌};
ghost use Rattle.limits.specs.Limits.{most_suites};
ghost use Rattle.lines.specs.Orders.{suite_after, steps_to};

use limits::SUITES;

/// A suite of a session.
#[derive(Clone, Copy)]
pub(crate) struct Suite {
    pub number: usize,
    // there is such a suite
    ghost from_1: { 1 ≤ number },
    ghost up_to_8: { number ≤ most_suites },
}

impl Suite {
    /// The suite after this one.
    pub(crate) fn next(self) -> Suite
        ensures { result.number ≡ suite_after self.number 1 }
    {
        Suite {
            number: if self.number < SUITES {
                self.number + 1
            } else {
                1
            },
        }
    }

    /// How many suites after this one another comes.
    pub(crate) fn steps_to(self, suite: Suite) -> usize
        ensures { result ≡ steps_to self.number suite.number }
    {
        if self.number <= suite.number {
            suite.number - self.number
        } else {
            suite.number + SUITES - self.number
        }
    }
}
