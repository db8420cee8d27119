//! What a monitor makes of a list of acts, one by one or as one run.
use crate::closure::Closure;
use crate::expected::expect;
use crate::pairs::MOST_EVENTS;
use crate::rules::Rules;
use event_core::{Act, Call, Done, Event, Limits, Op, OutOfMemory, Outcome, Refusal, Verdict};
use seq_monitor::{Monitor, Race};
use std::alloc::Global;
use std::process::Abort;
use test_logs::add;

/// How the acts are made.
#[derive(Clone, Copy, Debug)]
pub enum Way {
    /// By `step` and `swap`, until the log has so many events.
    Steps(u64),
    /// The calls by `step`, each once `prepare` has made room for it. There are no swaps.
    Prepared,
    /// The calls by `run`. There are no swaps.
    Run,
    /// By `run_acts`.
    RunActs,
}

/// A case, and how it is tried.
#[derive(Clone, Copy, Debug)]
pub struct Trial {
    pub case: &'static str,
    /// Its place among the logs that are drawn.
    pub number: usize,
    pub way: Way,
    /// Where memory is refused the acts that are left are made again, so often in all. A release takes none.
    pub tries: u32,
}

/// What a monitor answered, and what it held then.
#[derive(Drop)]
pub struct Told {
    pub answers: Vec<Done>,
    /// The verdicts of the answers, one for each event.
    pub verdicts: Vec<Verdict>,
    pub log: Vec<Event>,
    pub races: Vec<Race>,
}

/// What becomes of the call.
pub fn step(monitor: &mut Monitor, call: Call) -> Done {
    match monitor.step(call) {
        Ok(reply) => Done::One(reply),
        Err(refusal) => Done::Refused(refusal),
    }
}

fn expect_ready(rt: &impl Abort, monitor: &Monitor, call: Call) {
    expect(rt, &("ready", call), monitor.ready(&call), true);
}

// What becomes of the act, if there is memory. A release is ready, whatever growth was refused before it.
fn take(rt: &impl Abort, monitor: &mut Monitor, act: Act) -> Option<Done> {
    let done = match act {
        Act::One(call) if matches!(call.op, Op::Release(_)) => {
            expect_ready(rt, monitor, call);
            return Some(step(monitor, call));
        }
        Act::One(call) => step(monitor, call),
        Act::Swap {
            thread,
            var,
            site,
            arg,
        } => match monitor.swap(thread, var, arg, site) {
            Ok(reply) => Done::Swap(reply),
            Err(refusal) => Done::Refused(refusal),
        },
    };
    (done != Done::Refused(Refusal::OutOfMemory)).then_some(done)
}

// What becomes of the call, if there is room for it.
fn take_prepared(rt: &impl Abort, monitor: &mut Monitor, act: Act) -> Option<Done> {
    let Act::One(call) = act else {
        return None;
    };
    if monitor.prepare(&call).is_err() {
        return None;
    }
    expect_ready(rt, monitor, call);
    Some(step(monitor, call))
}

// Makes the acts by `run`, which stops where memory is refused.
fn run(alloc: Global, monitor: &mut Monitor, acts: &[Act], answers: &mut Vec<Done>) {
    let mut calls = Vec::new(alloc);
    for act in acts {
        if let Act::One(call) = act {
            add(&mut calls, *call);
        }
    }
    let mut outcomes = Vec::new(alloc);
    let _stopped = monitor.run(&calls, &mut outcomes);
    for outcome in &outcomes {
        match *outcome {
            Outcome::Accepted(reply) => add(answers, Done::One(reply)),
            Outcome::Refused(refusal) => add(answers, Done::Refused(refusal)),
        }
    }
}

// Makes the acts until memory is refused.
fn make(
    rt: &impl Abort,
    alloc: Global,
    monitor: &mut Monitor,
    acts: &[Act],
    way: Way,
    answers: &mut Vec<Done>,
) {
    let most = match way {
        Way::Run => return run(alloc, monitor, acts, answers),
        Way::RunActs => {
            let _stopped = monitor.run_acts(acts, answers);
            return;
        }
        Way::Steps(most) => most,
        Way::Prepared => u64::MAX,
    };
    for act in acts {
        if most <= monitor.log().len() {
            return;
        }
        let done = match way {
            Way::Prepared => take_prepared(rt, monitor, *act),
            _ => take(rt, monitor, *act),
        };
        match done {
            Some(done) => add(answers, done),
            None => return,
        }
    }
}

fn new_monitor(rt: &impl Abort, alloc: Global, limits: Limits, tries: u32) -> Monitor {
    let monitor = match Monitor::new(alloc, limits) {
        Err(OutOfMemory) if 1 < tries => Monitor::new(alloc, limits),
        made => made,
    };
    monitor.expect(rt, "a new monitor has memory")
}

/// What a new monitor makes of the acts.
pub fn tell(rt: &impl Abort, alloc: Global, limits: Limits, acts: &[Act], trial: Trial) -> Told {
    let mut told = Told {
        answers: Vec::new(alloc),
        verdicts: Vec::new(alloc),
        log: Vec::new(alloc),
        races: Vec::new(alloc),
    };
    let mut monitor = new_monitor(rt, alloc, limits, trial.tries);
    expect(rt, &trial, monitor.limits(), limits);
    for _trial in 0..trial.tries {
        let made = told.answers.len();
        if made < acts.len() {
            let left = &acts[made..];
            make(rt, alloc, &mut monitor, left, trial.way, &mut told.answers);
        }
    }
    told.keep(&monitor);
    told.expect_held(rt, &monitor, trial);
    drop(monitor);
    told
}

impl Told {
    // Keeps the verdicts of the answers, the log and the races.
    fn keep(&mut self, monitor: &Monitor) {
        for done in &self.answers {
            match done {
                Done::One(reply) => add(&mut self.verdicts, reply.verdict),
                Done::Swap(reply) => {
                    add(&mut self.verdicts, reply.load);
                    add(&mut self.verdicts, reply.store);
                }
                Done::Refused(_) => {}
            }
        }
        for index in 0..monitor.log().len() {
            if let Some(event) = monitor.log().get(index) {
                add(&mut self.log, event);
            }
        }
        for race in monitor.verdicts().races() {
            add(&mut self.races, *race);
        }
    }

    // The monitor holds the verdicts that it answered, one for each event of the log.
    fn expect_held(&self, rt: &impl Abort, monitor: &Monitor, trial: Trial) {
        let events = monitor.log().len();
        let counts = [
            self.log.len() as u64,
            self.verdicts.len() as u64,
            monitor.verdicts().len(),
        ];
        expect(rt, &(trial, "events"), counts, [events; 3]);
        for (index, verdict) in (0u64..).zip(&self.verdicts) {
            if index < events {
                let held = monitor.verdict_at(index);
                expect(rt, &(trial, "held verdict", index), held, *verdict);
            }
        }
    }

    /// Closes the log. Each verdict that was answered is the closure's.
    pub fn compare(&self, rt: &impl Abort, alloc: Global, trial: Trial) -> Closure {
        let closure = Closure::of(alloc, &self.log, Rules::Whole);
        expect(rt, &trial, self.log.len() <= MOST_EVENTS, true);
        for (index, verdict) in self.verdicts.iter().enumerate() {
            let wanted = closure.verdict(&self.log, index);
            expect(rt, &(trial, "verdict", index), *verdict, wanted);
        }
        closure
    }
}
