ghost use Rattle.std.specs.Prelude.{◌≡◌, ◌<◌, ◌^◌, sum_by, length};
ghost use Rattle.kn_report.specs.Reports.{is_of, count_in, count_of};

use crate::logs::Log;
use kn_graph::{Entry, Event};

/// What the end of a report counts.
#[derive(Clone, Copy)]
pub enum Counted {
    Calls,
    Epochs,
    Released,
    Queued,
    Finalized,
}

impl Counted {
    /// Whether an event is of those counted (`is_of` in `specs/Reports.antt`).
    fn has(self, event: &Event) -> bool
        ensures { result ≡ is_of self event.now }
    {
        match self {
            Counted::Calls => matches!(event, Event::Call(_, _, _)),
            Counted::Epochs => matches!(event, Event::Done(_)),
            Counted::Released => matches!(event, Event::Released(_)),
            Counted::Queued => matches!(event, Event::Queued(_)),
            Counted::Finalized => matches!(event, Event::Finalized(_, _, _)),
        }
    }

    /// How many entries of a log are of those counted.
    fn count(self, log: &[Entry]) -> usize
        ensures { result ≡ count_in self log.now }
    {
        log.iter().filter(|entry| self.has(&entry.what)).count()
    }

    /// How many entries of all the logs are of those counted.
    pub fn count_all(self, logs: &[Log]) -> u64
        requires { sum_by (λ log. length log) logs.now < 2 ^ 32 }
        ensures { result ≡ count_of self logs.now }
    {
        let mut count = 0;
        for log in logs {
            count += self.count(log.as_slice()) as u64;
        }
        count
    }
}
