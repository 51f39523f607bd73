// Lines of the program that runs the figures: what was asked, what came and what 01 says, or the work by hand.
//
// What is written no contract can say; how many figures agree is said.
ghost use Rattle.std.specs.Prelude.{◌≡◌};
ghost use Rattle.figures_run.specs.steps.Asked.{with_one, agreeing};

use std::fmt::Display;

// Where the lines are written, and how many figures agree so far.
#[derive(Drop)]
pub(crate) struct Tally<'a, P> {
    pub(crate) to: &'a P,
    pub(crate) agree: u64,
}

impl<'a, P: Print> Tally<'a, P> {
    // One more, where what came is what it should be.
    pub(crate) fn count(&mut self, agrees: bool)
        ensures { self.new.agree ≡ with_one agrees self.old.agree }
    {
        if agrees {
            self.agree = self.agree.wrapping_add(1);
        }
    }

    // The line of a figure, by what was asked and by who says what it should be. What cannot be written is left out.
    fn line(&mut self, asked: impl Display + Drop, came: u64, whose: &str, says: u64)
        ensures { self.new.agree ≡ agreeing self.old.agree came says }
    {
        let _ = println!(self.to; "{asked} came {came}, {whose} {says}");
        self.count(came == says);
    }

    // The line of a figure of 01.
    pub(crate) fn figure(&mut self, asked: impl Display + Drop, came: u64, says: u64)
        ensures { self.new.agree ≡ agreeing self.old.agree came says }
    {
        self.line(asked, came, "01 says", says);
    }

    // The line of a figure of 02, which docs/DECISIONS.md works out by hand.
    pub(crate) fn worked(&mut self, asked: impl Display + Drop, came: u64, says: u64)
        ensures { self.new.agree ≡ agreeing self.old.agree came says }
    {
        self.line(asked, came, "by hand", says);
    }
}
