// What one thread of a service does beside its workers: it does the task, and wakes all workers once the service is
// stopped.
ghost use Rattle.std.specs.Prelude.{◌≤◌, ℕ};
ghost use Rattle.serve_runs.specs.parts.Administering.{Knocks};

use crate::doors::knock_all;
use crate::musters::Muster;
use crate::tasks::{Task, Turn};
use check_monitor::Alarm;
use link_ports::Net;
use server_hall::QuestionDesk;
use std::sync::Wait;
use std::thread;
use std::time::{Clock, Duration};

/// How long it waits where nothing is to be done, in milliseconds: so soon a stop is noticed that nobody rang for.
const TICK: u64 = 100;

/// How long it lets work gather behind a turn that did some, in milliseconds.
const PAUSE: u64 = 1;

/// Does the task in turns until the service is stopped, and then wakes all workers that wait at their doors, so many
/// of clients among them. Where there is no service it does nothing. It may wait.
pub(crate) fn keep_watch<R: Wait + Clock, N: Net, C: Task>(
    rt: &R,
    clients: u32,
    questions: &QuestionDesk,
    muster: &Muster,
    alarm: &Alarm,
    net: &mut N,
    task: &mut C,
)
    ensures knocks { Knocks N.faults N.closed net.old net.new }
    ensures task { (turns : ℕ) × C.goes task.old turns task.new }
{
    if !muster.begin(rt) {
        return;
    }
    watch_on(rt, questions, alarm, task);
    knock_all(net, clients);
}

// Does the task in turns until the service is stopped.
fn watch_on<R: Wait + Clock, C: Task>(rt: &R, questions: &QuestionDesk, alarm: &Alarm, task: &mut C)
    ensures { (turns : ℕ) × (1 ≤ turns) × C.goes task.old turns task.new }
{
    let mut last = Turn::Idle;
    for _ in rt.forever() {
        if last == Turn::Idle {
            alarm.arm();
        }
        let turn = task.turn(rt);
        if questions.is_stopped(rt) {
            return;
        }
        pause(rt, alarm, last, turn);
        last = turn;
    }
}

// Waits behind a turn, and the one before it. Behind two that found nothing it sleeps until it is rung for.
fn pause<R: Wait + Clock>(rt: &R, alarm: &Alarm, before: Turn, turn: Turn) {
    match turn {
        Turn::Full => {}
        Turn::Done => thread::sleep(rt, Duration::from_millis(PAUSE)),
        Turn::Idle => {
            if before == Turn::Idle {
                alarm.wait(rt, Duration::from_millis(TICK));
            }
        }
    }
}
