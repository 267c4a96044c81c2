use crate::Clock;
use std::marker::Model;
use std::rt;

/// The system's clock. Where it can't be read, it gives the last reading again, and 0 at first.
/// Contracts see its last reading, and nothing of those to come.
///
/// Trusted: that the system's clock tells the time.
#[derive(Drop)]
pub struct SystemClock<T: rt::Clock + Copy> {
    system: T,
    last: u64,
}

impl<T: rt::Clock + Copy> Model for SystemClock<T> {
    ghost use Rattle.std.specs.Prelude.{ℕ};

    ghost Value = { ℕ };

    ghost view = { λ c. c.last };
}

impl<T: rt::Clock + Copy> SystemClock<T> {
    ghost use Rattle.std.specs.Prelude.{◌≡◌};

    pub fn new(system: T) -> SystemClock<T>
        ensures { result ≡ 0 }
    {
        SystemClock { system, last: 0 }
    }
}

impl<T: rt::Clock + Copy> Clock for SystemClock<T> {
    ghost use Rattle.std.specs.Prelude.{◌≡◌, None, IfSome};

    ghost readings = { λ _. None };

    fn now(&mut self) -> u64
        ensures { self.new ≡ result }
    {
        if let Ok(since) = self.system.since_1970() {
            if let Ok(reading) = u64::try_from(since.as_millis()) {
                self.last = reading;
            }
        }
        self.last
    }

    fn twin(&self) -> Option<SystemClock<T>>
        ensures { IfSome result (λ twin. twin ≡ self.now) }
    {
        Some(SystemClock {
            system: self.system,
            last: self.last,
        })
    }
}
