ghost use Rattle.std.specs.Prelude.{◌≡◌};
ghost use Rattle.server_hall.specs.StopNews.{unasked, told_so};

use crate::locked::QuestionDesk;
use std::marker::Model;
use std::sync::Wait;

/// What a worker was told of the stop of its service: how often it asked whether the service is stopped, and how often
/// it was told that it is. A count stands still at its last value. No call of it takes memory.
#[derive(Drop)]
pub struct StopNews {
    asks: u64,
    stops: u64,
}

impl Model for StopNews {
    ghost use Rattle.server_hall.specs.StopNews.{StopsTold};

    ghost Value = { StopsTold };

    ghost view = { λ news. record { asks = news.asks; stops = news.stops } };
}

impl StopNews {
    /// Of a worker that has not asked.
    pub fn new() -> StopNews
        ensures { result ≡ unasked }
    {
        StopNews { asks: 0, stops: 0 }
    }

    /// Whether the table was stopped. May wait for the lock.
    pub fn is_stopped<R: Wait>(&mut self, rt: &R, questions: &QuestionDesk) -> bool
        ensures { self.new ≡ told_so result self.old }
    {
        self.asks = self.asks.saturating_add(1);
        if questions.is_stopped(rt) {
            self.stops = self.stops.saturating_add(1);
            return true;
        }
        false
    }

    /// How often it asked.
    pub fn asks(&self) -> u64
        ensures { result ≡ self.now.asks }
    {
        self.asks
    }

    /// How often it was told that the service is stopped.
    pub fn stops(&self) -> u64
        ensures { result ≡ self.now.stops }
    {
        self.stops
    }
}
