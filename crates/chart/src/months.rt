// The months of a chart one after the other, in month order.
ghost use Rattle.chart.specs.Promises.{Reached};

use crate::Chart;

// How far it has come: the place in month order, and the month that stands there, while there is one.
#[derive(Clone, Copy)]
pub struct Months {
    pub chart: Chart,
    pub place: usize,
    pub month: usize,
    ghost reached: { Reached chart.period chart.start chart.count place month },
}

impl Iterator for Months {
    ghost use Rattle.std.specs.Prelude.{◌≡◌, ◌+◌, ◌-◌, ◌≤◌, MatchOption};
    ghost use Rattle.std.specs.Iterator.{at_most};
    ghost use Rattle.chart.specs.Promises.{Stands};

    type Item = (usize, usize);

    ghost next_gives = { λ s r t. MatchOption r (s.chart.count ≤ s.place) (λ x. (x.0 ≡ s.place) × Stands s.chart.period s.chart.start s.chart.count x.0 x.1
        × (t.chart ≡ s.chart) × (t.place ≡ s.place + 1)) };

    ghost remaining = { λ s. at_most (s.chart.count - s.place) };

    fn next(&mut self) -> Option<(usize, usize)> {
        if self.chart.count <= self.place {
            return None;
        }
        let here = (self.place, self.month);
        self.place += 1;
        self.month = self.chart.next(self.month);
        Some(here)
    }
}
