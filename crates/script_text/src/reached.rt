//! Which threads forks lead to from thread 0.
//!
//! Thread 0 is marked, and then, until none is new, each thread that a line of a marked thread forks.
ghost use Rattle.std.specs.Prelude.{◌≡◌, ℕ, ◌<◌, length, Some, IfOk, IfSome, IfNone, IsTrue, true, false};
ghost use Rattle.std.specs.List.{slice_set};
ghost use Rattle.event_core.specs.declared.ids.ThreadId.{ThreadId};
ghost use Rattle.script_text.specs.Scripts.{Reached, names_thread};
ghost use Rattle.script_text.specs.Marks.{is_marked, unmarked, AreBelow, MarksLine, MarksReached, IsClosed};
ghost use Rattle.script_text.specs.Marks.{Keeps, none_or_marked, names_marked, AllMarked, IsFirstUnmarked};

use crate::lines::ScriptLine;
use crate::stored_lines::StoredLine;
use event_core::{OutOfMemory, ThreadId};
use std::alloc::Global;

/// Marks the thread that the line forks, where its own thread is marked, and says whether it is new.
fn mark(line: &ScriptLine, marks: &mut [bool]) -> bool
    requires { (u : ℕ) → names_thread u line.now ≡ true → u < length marks.old }
    ensures { MarksLine line.now marks.old marks.new result }
{
    let Some(child) = line.fork() else {
        return false;
    };
    if !marks[line.thread().0 as usize] {
        return false;
    }
    if marks[child.0 as usize] {
        return false;
    }
    marks[child.0 as usize] = true;
    true
}

/// Marks what the lines fork, one after another, and says whether one is new.
fn spread(lines: &[StoredLine], marks: &mut [bool]) -> bool
    requires below { AreBelow lines.now (length marks.old) }
    requires sound { MarksReached lines.now marks.old }
    ensures sound { MarksReached lines.now marks.new }
    ensures keeps { Keeps marks.old marks.new }
    ensures fewer { result ≡ true → unmarked marks.new < unmarked marks.old }
    ensures closed { result ≡ false → IsClosed lines.now marks.new }
{
    let mut changed = false;
    'lines: for line in lines {
        changed = mark(&line.get(), marks) || changed;
    }
    changed
}

/// Marks thread 0, if there is one.
fn mark_main(marks: &mut [bool])
    ensures { marks.new ≡ slice_set marks.old 0 true }
{
    if marks.is_empty() {
        return;
    }
    marks[0] = true;
}

/// A mark for each thread, which says whether forks lead to it from thread 0.
pub fn reached_threads(
    alloc: Global,
    lines: &[StoredLine],
    threads: u32,
) -> Result<Vec<bool>, OutOfMemory>
    requires { AreBelow lines.now threads }
    ensures len { IfOk result (λ v. length v.items ≡ threads) }
    ensures reached { IfOk result (λ v. MarksReached lines.now v.items) }
    ensures all { 0 < threads → IfOk result (λ v.
        (u : ℕ) → Reached lines.now u → is_marked v.items u ≡ true) }
{
    let Ok(mut marks) = vec![in alloc; false; threads as usize] else {
        return Err(OutOfMemory);
    };
    mark_main(marks.as_mut_slice());
    'spreads: while spread(lines, marks.as_mut_slice()) {}
    Ok(marks)
}

fn is_marked_or_none(thread: Option<ThreadId>, marks: &[bool]) -> bool
    requires { (u : ThreadId) → thread ≡ Some u → u.0 < length marks.now }
    ensures { result ≡ none_or_marked marks.now thread }
{
    match thread {
        Some(u) => marks[u.0 as usize],
        None => true,
    }
}

/// Whether each thread that the line names is marked.
fn are_marked(line: &ScriptLine, marks: &[bool]) -> bool
    requires { (u : ℕ) → names_thread u line.now ≡ true → u < length marks.now }
    ensures { result ≡ names_marked marks.now line.now }
{
    if !marks[line.thread().0 as usize] {
        return false;
    }
    if !is_marked_or_none(line.fork(), marks) {
        return false;
    }
    is_marked_or_none(line.join(), marks)
}

/// The number of the first line that names a thread without a mark.
pub fn first_unmarked(lines: &[StoredLine], marks: &[bool]) -> Option<u64>
    requires { AreBelow lines.now (length marks.now) }
    ensures found { IfSome result (λ n. IsFirstUnmarked lines.now marks.now n) }
    ensures none { IfNone result (AllMarked lines.now marks.now) }
{
    'lines: for line in lines {
        let line = line.get();
        if !are_marked(&line, marks) {
            return Some(line.line);
        }
    }
    None
}
