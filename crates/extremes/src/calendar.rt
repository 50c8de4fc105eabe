// METHOD 5.1 and 5.2: years of so many months, and the months that a group serves. Months and years count from 0, the start month from 1.
ghost use Rattle.std.specs.Prelude.{◌≡◌, ◌≤◌};
ghost use Rattle.extremes.specs.Years.{years, year_start};
ghost use Rattle.extremes.specs.Promises.{Calendar, served_from};

// The calendar years of a series of so many months, from its start month on.
#[derive(Clone, Copy)]
pub struct Years {
    pub start: usize,
    pub period: usize,
    pub months: usize,
    ghost calendar: { Calendar start period months },
}

impl Years {
    // How many the months touch.
    #[tactic(auto, unfolding(crate::specs::Years::years, crate::specs::Years::year_of))]
    pub fn count(self) -> usize
        ensures { result ≡ years self.start self.period self.months }
    {
        (self.start - 1 + (self.months - 1)) / self.period + 1
    }

    // The first month in year y, and the number of months where that year comes after the end.
    #[tactic(auto, using(crate::proofs::YearLaws::starts_few), unfolding(crate::specs::Years::year_start))]
    pub fn first_month(self, y: usize) -> usize
        requires { y ≤ years self.start self.period self.months }
        ensures { result ≡ year_start self.start self.period self.months y }
    {
        if self.period * y < self.start {
            return 0;
        }
        self.months.min(self.period * y - (self.start - 1))
    }

    // The first month that the group of year c serves, and the number of months where c is past the last group.
    // Year 2's group serves the years before it too, the last group the years after it.
    #[tactic(auto, using(std::proofs::lemmas::Bool::Decides::nat_tests), unfolding(crate::specs::Promises::served_from))]
    pub fn served_from(self, last: usize, c: usize) -> usize
        requires { c ≤ years self.start self.period self.months }
        ensures { result ≡ served_from self.start self.period self.months last c }
    {
        if c <= 2 {
            0
        } else if last < c {
            self.months
        } else {
            self.first_month(c)
        }
    }
}
