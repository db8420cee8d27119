//! A worker that cannot be started, since there are no addresses for its stack.
use crate::gates::Shut;
use crate::runs::two_hundred;
use crate::scripts::{EVENTS, limits, read};
use script_drive::{DriveFault, Script, drive};
use std::alloc::{AllocError, Global};
use std::process::Abort;
use std::sync::Wait;
use std::sync::atomic::{AtomicU64, Ordering};
use std::test::*;
use std::thread::Threads;

/// Addresses that are left at first, and how often they are doubled: up to 3 GB, which are enough for the
/// stacks of 199 threads.
const ADDRESSES: usize = 12 << 20;

const DOUBLINGS: u32 = 8;

/// A block of this size. Nothing is written to it, so it takes addresses and next to no memory.
fn block_of(alloc: Global, size: usize) -> Result<Vec<u8>, AllocError> {
    let mut block = Vec::new(alloc);
    block.reserve(size)?;
    Ok(block)
}

/// Takes blocks of this size until one is refused.
fn take_blocks(alloc: Global, blocks: &mut Vec<Vec<u8>>, size: usize) -> Result<(), AllocError> {
    for _ in 0..100_000 {
        blocks.push(block_of(alloc, size)?)?;
    }
    Ok(())
}

/// Takes all addresses, in blocks of 64 GB to 1 MB. No stack of a thread fits into what is left.
fn take_all(alloc: Global, blocks: &mut Vec<Vec<u8>>) {
    let mut size = 1 << 36;
    for _ in 0..17 {
        let _refused = take_blocks(alloc, blocks, size);
        size /= 2;
    }
}

/// What comes of a drive with few addresses: whether they were there, since tools may keep what is freed, and
/// the fault.
#[derive(Clone, Copy)]
struct Shortage {
    addresses: bool,
    fault: Option<DriveFault>,
}

impl Shortage {
    /// Whether there were addresses, but too few for one worker.
    fn is_too_great(&self) -> bool {
        let fault = self.fault;
        self.addresses
            && matches!(
                fault,
                Some(DriveFault::NoWorker { line: 1 } | DriveFault::OutOfMemory)
            )
    }

    /// Whether no worker could be started for this line, one of 199, or a later one.
    fn is_from(&self, first: u64) -> bool {
        matches!(self.fault, Some(DriveFault::NoWorker { line }) if first <= line && line <= 199)
    }
}

/// Runs the script where there are these addresses alone.
fn run_with<R: AllocGlobal + Threads + Wait + Abort + Sync>(
    rt: &R,
    script: &Script,
    gate: &Shut,
    addresses: usize,
) -> Result<Shortage, Fail> {
    let left = block_of(rt.alloc(), addresses)?;
    let mut blocks = Vec::new(rt.alloc());
    take_all(rt.alloc(), &mut blocks);
    drop(left);
    let addresses = block_of(rt.alloc(), addresses).is_ok();
    let answer = drive(rt, rt.alloc(), script, limits(rt, EVENTS), gate, 1);
    drop(blocks);
    Ok(Shortage {
        addresses,
        fault: answer.err(),
    })
}

/// Runs it with the least of these addresses with which the worker of the first line is started.
fn run_with_few<R: AllocGlobal + Threads + Wait + Abort + Sync>(
    rt: &R,
    script: &Script,
    gate: &Shut,
) -> Result<Shortage, Fail> {
    let mut addresses = ADDRESSES;
    let mut shortage = run_with(rt, script, gate, addresses)?;
    for _ in 0..DOUBLINGS {
        if !shortage.is_too_great() {
            break;
        }
        addresses = addresses.saturating_mul(2);
        shortage = run_with(rt, script, gate, addresses)?;
    }
    Ok(shortage)
}

/// The worker of the first line is started, where there are addresses, and waits for its fork. No line is
/// asked for: a call is made only once all workers are started.
#[test]
fn a_worker_that_cannot_be_started_is_told_with_its_fork(rt: HostRuntime) -> Result<(), Fail> {
    let text = two_hundred(rt.alloc())?;
    let script = read(rt.alloc(), text.as_str(), limits(&rt, EVENTS))?;
    let gate = Shut {
        asked: AtomicU64::new(0),
    };
    let shortage = run_with_few(&rt, &script, &gate)?;
    drop(script);
    let first = if shortage.addresses { 2 } else { 1 };
    assert!(&rt;
        shortage.is_from(first),
        "from line {first} on: {:?}",
        shortage.fault
    );
    assert_eq!(&rt;
        gate.asked.load(Ordering::SeqCst),
        0,
        "so many lines were asked for"
    );
    Ok(())
}
