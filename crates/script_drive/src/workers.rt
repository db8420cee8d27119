//! What workers are started with. All channels are made before the first line.
ghost use Rattle.std.specs.Prelude.{◌≡◌, ◌∷◌, ◌++◌, [], filter, map, Contains, IfOk, IfSome, OnOk};
ghost use Rattle.std.specs.Option.{ForSome};
ghost use Rattle.log_pass.specs.Passes.{main};
ghost use Rattle.script_text.specs.Scripts.{IsScript};
ghost use Rattle.script_drive.specs.Faults.{IsForkLine};
ghost use Rattle.script_drive.specs.Lines.{lines_by, IsJoined};
ghost use Rattle.script_drive.specs.Workers.{forked, is_link, joined, Serves};

use crate::drive_names::{DriveName, FirstPasses, LastPasses};
use crate::links::Links;
use event_core::ThreadId;
use log_pass::Name;
use pass_channel::{PassReceiver, PassSender, pass_channel};
use script_text::{Script, ScriptLine};
use std::alloc::{AllocError, Global};
use std::marker::{Model, PhantomData};

/// A thread and its links before its first line. Contracts see the thread, and whom the links reach: just
/// those whom the thread's lines fork and join.
#[derive(Drop)]
pub(crate) struct OwnLinks<S: DriveName> {
    pub thread: ThreadId,
    pub links: Links<S>,
}

impl<S: DriveName> Model for OwnLinks<S> {
    ghost use Rattle.script_drive.specs.Lines.{lines_by, IsJoined};
    ghost use Rattle.script_drive.specs.Workers.{OwnReach, Serves};

    ghost Value = { OwnReach };

    ghost view = { λ own. record { thread = own.thread; reach = own.links } };

    ghost invariant = { λ own. Serves own.links (lines_by own.thread S.lines) };
}

/// The number of a line of the script that forks a thread.
#[derive(Drop)]
pub(crate) struct ForkLine<S: DriveName> {
    pub number: u64,
    script: PhantomData<S>,
    ghost forks: { IsForkLine S.lines number },
}

/// Where a worker's first pass comes from, and the line that forks its thread.
#[derive(Drop)]
pub(crate) struct Start<S: DriveName> {
    pub receiver: PassReceiver<S, FirstPasses<S>>,
    pub line: ForkLine<S>,
}

/// A thread that a line of the script joins.
#[derive(Drop)]
pub(crate) struct JoinTarget<S: DriveName> {
    pub thread: ThreadId,
    script: PhantomData<S>,
    ghost joins: { IsJoined S.lines thread },
}

/// Where the last pass of a thread goes that a line joins.
#[derive(Drop)]
pub(crate) struct End<S: DriveName> {
    pub sender: PassSender<S, LastPasses<S>>,
    pub target: JoinTarget<S>,
    ghost same: { sender.to ≡ target.thread },
}

/// A worker that is not started yet. Its last pass goes to the worker that joins it, if one does.
#[derive(Drop)]
pub(crate) struct Worker<S: DriveName> {
    pub own: OwnLinks<S>,
    pub start: Start<S>,
    pub end: Option<End<S>>,
    ghost begins: { start.receiver.to ≡ own.thread },
    ghost ends: { ForSome end (λ end. end.sender.to ≡ own.thread) },
}

// The lines of the script that fork or join a thread, in order. No thread is forked or joined twice.
fn link_lines(alloc: Global, script: &Script) -> Result<Vec<ScriptLine>, AllocError>
    ensures lines { IfOk result (λ lines. lines.items ≡ filter is_link script.now.lines) }
    ensures script { IsScript script.now }
{
    let mut lines = Vec::with_capacity(alloc, 2 * script.threads() as usize)?;
    for line in script.lines() {
        let line = line.get();
        if line.fork().is_some() || line.join().is_some() {
            lines.push(line)?;
        }
    }
    Ok(lines)
}

// The ends of channels that no worker has yet.
#[derive(Drop)]
struct UnclaimedEnds<S: DriveName> {
    forks: Vec<PassSender<S, FirstPasses<S>>>,
    ends: Vec<End<S>>,
}

impl<S: DriveName> UnclaimedEnds<S> {
    // Makes the channel for the thread that the line forks, if it forks one.
    fn add_start(
        &mut self,
        alloc: Global,
        line: &ScriptLine,
        starts: &mut Vec<Start<S>>,
    ) -> Result<(), AllocError>
        requires { Contains S.lines line.now }
        ensures { OnOk result (map (λ start. start.receiver.to) starts.new.items
            ≡ map (λ start. start.receiver.to) starts.old.items ++ forked (line.now ∷ [])) }
    {
        if let Some(child) = line.fork() {
            let (sender, receiver) = pass_channel::<S, FirstPasses<S>>(alloc, child)?;
            self.forks.push(sender)?;
            let line = ForkLine {
                number: line.line,
                script: PhantomData,
            };
            starts.push(Start { receiver, line })?;
        }
        Ok(())
    }

    // A start for each line that forks a thread, among the lines of the script that fork or join one.
    fn make_starts(
        &mut self,
        alloc: Global,
        lines: &[ScriptLine],
    ) -> Result<Vec<Start<S>>, AllocError>
        requires { lines.now ≡ filter is_link S.lines }
        ensures { IfOk result
            (λ starts. map (λ start. start.receiver.to) starts.items ≡ forked lines.now) }
    {
        let mut starts = Vec::new(alloc);
        for line in lines {
            self.add_start(alloc, line, &mut starts)?;
        }
        Ok(starts)
    }

    fn take_fork(&mut self, thread: ThreadId) -> Option<PassSender<S, FirstPasses<S>>>
        ensures { IfSome result (λ sender. sender.to ≡ thread) }
    {
        for at in 0..self.forks.len() {
            if self.forks[at].to == thread {
                return Some(self.forks.swap_remove(at));
            }
        }
        None
    }

    fn take_end(&mut self, thread: ThreadId) -> Option<End<S>>
        ensures { IfSome result (λ end. end.sender.to ≡ thread) }
    {
        for at in 0..self.ends.len() {
            if self.ends[at].sender.to == thread {
                return Some(self.ends.swap_remove(at));
            }
        }
        None
    }

    // Adds the end for the thread that the line forks, if it forks one.
    fn add_fork(
        &mut self,
        alloc: Global,
        line: &ScriptLine,
        links: &mut Links<S>,
    ) -> Result<(), AllocError>
        ensures forks { OnOk result (links.new.forks ≡ links.old.forks ++ forked (line.now ∷ [])) }
        ensures joins { links.new.joins ≡ links.old.joins }
    {
        if let Some(child) = line.fork() {
            let sender = match self.take_fork(child) {
                Some(sender) => sender,
                // No thread is forked twice, so this does not occur. No clause tells so.
                None => {
                    let (sender, _) = pass_channel::<S, FirstPasses<S>>(alloc, child)?;
                    sender
                }
            };
            links.add_fork(sender)?;
        }
        Ok(())
    }

    // Makes the channel for the thread that the line joins, if it joins one.
    fn add_join(
        &mut self,
        alloc: Global,
        line: &ScriptLine,
        links: &mut Links<S>,
    ) -> Result<(), AllocError>
        requires { Contains S.lines line.now }
        ensures forks { links.new.forks ≡ links.old.forks }
        ensures joins { OnOk result (links.new.joins ≡ links.old.joins ++ joined (line.now ∷ [])) }
    {
        if let Some(child) = line.join() {
            let (sender, receiver) = pass_channel::<S, LastPasses<S>>(alloc, child)?;
            links.add_join(receiver)?;
            let target = JoinTarget {
                thread: child,
                script: PhantomData,
            };
            self.ends.push(End { sender, target })?;
        }
        Ok(())
    }

    // The links of the thread, with a channel for each thread that its lines fork or join, among the lines of
    // the script that do.
    fn connect(
        &mut self,
        alloc: Global,
        lines: &[ScriptLine],
        thread: ThreadId,
    ) -> Result<Links<S>, AllocError>
        requires { lines.now ≡ filter is_link S.lines }
        ensures { IfOk result (λ links. Serves links (lines_by thread S.lines)) }
    {
        let mut links = Links::new(alloc);
        for line in lines {
            if !line.is_of(thread) {
                continue;
            }
            self.add_fork(alloc, line, &mut links)?;
            self.add_join(alloc, line, &mut links)?;
        }
        Ok(links)
    }

    // A worker for each start. None has its end yet.
    fn connect_all(
        &mut self,
        alloc: Global,
        lines: &[ScriptLine],
        starts: Vec<Start<S>>,
    ) -> Result<Vec<Worker<S>>, AllocError>
        requires { lines.now ≡ filter is_link S.lines }
        ensures { IfOk result (λ workers. map (λ worker. worker.own.thread) workers.items
            ≡ map (λ start. start.receiver.to) starts.items) }
    {
        let mut workers = Vec::new(alloc);
        for start in starts {
            let thread = start.receiver.to;
            let links = self.connect(alloc, lines, thread)?;
            workers.push(Worker {
                own: OwnLinks { thread, links },
                start,
                end: None,
            })?;
        }
        Ok(workers)
    }

    // The same workers with their ends. No clause tells that each has one that a line joins.
    fn with_ends(
        mut self,
        alloc: Global,
        workers: Vec<Worker<S>>,
    ) -> Result<Vec<Worker<S>>, AllocError>
        ensures { IfOk result (λ ended. map (λ worker. worker.own.thread) ended.items
            ≡ map (λ worker. worker.own.thread) workers.items) }
    {
        let mut ended = Vec::new(alloc);
        for worker in workers {
            let Worker { own, start, end: _ } = worker;
            let end = self.take_end(own.thread);
            ended.push(Worker { own, start, end })?;
        }
        Ok(ended)
    }
}

/// Thread 0's links, and a worker for each thread that a line forks.
pub(crate) fn all_workers<S: DriveName>(
    alloc: Global,
    script: &Script,
) -> Result<(Links<S>, Vec<Worker<S>>), AllocError>
    requires lines { script.now.lines ≡ S.lines }
    ensures main { IfOk result (λ made. Serves made.0 (lines_by main S.lines)) }
    ensures all { IfOk result
        (λ made. map (λ worker. worker.own.thread) made.1.items ≡ forked S.lines) }
    ensures script { IsScript script.now }
{
    let mut unclaimed = UnclaimedEnds {
        forks: Vec::new(alloc),
        ends: Vec::new(alloc),
    };
    let lines = link_lines(alloc, script)?;
    let lines = lines.as_slice();
    let starts = unclaimed.make_starts(alloc, lines)?;
    let main_links = unclaimed.connect(alloc, lines, ThreadId(0))?;
    let workers = unclaimed.connect_all(alloc, lines, starts)?;
    let workers = unclaimed.with_ends(alloc, workers)?;
    Ok((main_links, workers))
}
