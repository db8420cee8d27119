//! Critical sections.
use event_core::{Event, LockId, Op, ThreadId};
use std::alloc::Global;
use test_logs::add;

/// A critical section: what its thread does from an outer acquire of the lock to the outer release that
/// matches it, or to the end of the log where there is none yet.
#[derive(Clone, Copy)]
pub struct Section {
    pub thread: ThreadId,
    pub lock: LockId,
    pub acquire: usize,
    pub release: Option<usize>,
}

impl Section {
    /// Whether an event of the thread at that index is inside.
    pub fn has(&self, thread: ThreadId, index: usize) -> bool {
        let is_after_release = matches!(self.release, Some(release) if release < index);
        thread == self.thread && self.acquire <= index && !is_after_release
    }
}

// How many acquires of the lock by the thread have no release yet.
fn depth(log: &[Event], thread: ThreadId, lock: LockId) -> usize {
    let mut depth: usize = 0;
    for event in log {
        if event.thread == thread && event.op == Op::Acquire(lock) {
            depth = depth.saturating_add(1);
        } else if event.thread == thread && event.op == Op::Release(lock) {
            depth = depth.saturating_sub(1);
        }
    }
    depth
}

/// Whether the event acquires a lock that its thread holds already after the log.
pub fn is_inner_acquire(log: &[Event], event: &Event) -> bool {
    match event.op {
        Op::Acquire(lock) => depth(log, event.thread, lock) > 0,
        _ => false,
    }
}

// Ends the thread's open section on the lock.
fn end(sections: &mut [Section], thread: ThreadId, lock: LockId, index: usize) {
    for section in sections.iter_mut() {
        if section.thread == thread && section.lock == lock && section.release.is_none() {
            section.release = Some(index);
        }
    }
}

/// All sections of the log, in the order of their acquires.
pub fn sections(alloc: Global, log: &[Event]) -> Vec<Section> {
    let mut sections = Vec::new(alloc);
    for (index, event) in log.iter().enumerate() {
        let thread = event.thread;
        match event.op {
            Op::Acquire(lock) if depth(&log[..index], thread, lock) == 0 => {
                let section = Section {
                    thread,
                    lock,
                    acquire: index,
                    release: None,
                };
                add(&mut sections, section);
            }
            Op::Release(lock) if depth(&log[..index], thread, lock) == 1 => {
                end(&mut sections, thread, lock, index);
            }
            _ => {}
        }
    }
    sections
}
