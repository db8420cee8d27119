//! Passes of threads that run beside each other.
ghost use Rattle.std.specs.Prelude.{◌≡◌, [], None};
ghost use Rattle.event_core.specs.Steps.{log_of};
ghost use Rattle.traced_mem.specs.Standing.{StandsFor};

use super::logged::{limits, memory, perform, perform_fork};
use super::passes::expect_found;
use crate::expected::expect;
use event_core::{Op, ThreadId, VarId};
use log_pass::{Blank, Keeper, Name, Pass, Published};
use std::alloc::{AllocError, Global};
use std::marker::Brand;
use std::process::Abort;
use std::test::Fail;
use std::thread::{Threads, join, map_vec};
use traced_mem::Memory;

/// Forks threads 1 to 8.
fn children<N: Name, R: Abort>(
    rt: &R,
    published: &Published<N>,
    keeper: &mut Keeper<N>,
    memory: &mut Memory,
    pass: Pass<N>,
    children: &mut Vec<Pass<N>>,
) -> Result<Pass<N>, AllocError>
    requires holds_none { keeper.old.held ≡ None }
    requires limits { memory.old.limits ≡ N.limits }
    requires stands { StandsFor (log_of keeper.old.steps) memory.old }
    ensures holds_none { keeper.new.held ≡ None }
    ensures limits { memory.new.limits ≡ N.limits }
    ensures stands { StandsFor (log_of keeper.new.steps) memory.new }
{
    let mut pass = pass;
    for child in 1..9 {
        let (parent, child) = perform_fork(rt, published, keeper, memory, pass, ThreadId(child));
        if children.push(child).is_err() {
            drop(parent);
            return Err(AllocError);
        }
        pass = parent;
    }
    Ok(pass)
}

/// Stores 100 times.
fn stores<N: Name, R: Abort>(
    rt: &R,
    published: &Published<N>,
    keeper: &mut Keeper<N>,
    memory: &mut Memory,
    pass: Pass<N>,
) -> Pass<N>
    requires holds_none { keeper.old.held ≡ None }
    requires limits { memory.old.limits ≡ N.limits }
    requires stands { StandsFor (log_of keeper.old.steps) memory.old }
{
    let mut pass = pass;
    for value in 0..100 {
        pass = perform(
            rt,
            published,
            keeper,
            memory,
            pass,
            Op::Store(VarId(0)),
            value,
        );
    }
    pass
}

/// Two numbers that a pass found one after the other, of which the second is less.
type Fall = (u64, u64);

/// The pass after 100 looks, and the last fall, if there was one.
fn looks<N: Name>(published: &Published<N>, pass: Pass<N>) -> (Pass<N>, Option<Fall>) {
    let mut pass = pass;
    let mut last = 0;
    let mut fall = None;
    for _ in 0..100 {
        let (next, found) = published.look(pass);
        if found < last {
            fall = Some((last, found));
        }
        last = found;
        pass = next;
    }
    (pass, fall)
}

/// The pass after it met each of the others, and the last fall that one of those found.
fn meets<N: Name>(
    published: &Published<N>,
    pass: Pass<N>,
    others: Vec<(Pass<N>, Option<Fall>)>,
) -> (Pass<N>, Option<Fall>) {
    let mut pass = pass;
    let mut fall = None;
    for (other, fell) in others {
        let (first, second) = published.meet(pass, other);
        drop(second);
        pass = first;
        fall = fell.or(fall);
    }
    (pass, fall)
}

/// Eight threads look while the first one stores, and no number that they find goes back.
fn look_beside_stores<N: Name + Send + Sync, R: Threads + Abort + Sync>(
    rt: &R,
    alloc: Global,
    published: &Published<N>,
    keeper: &mut Keeper<N>,
    memory: &mut Memory,
    pass: Pass<N>,
) -> Result<(), AllocError>
    requires holds_none { keeper.old.held ≡ None }
    requires limits { memory.old.limits ≡ N.limits }
    requires stands { StandsFor (log_of keeper.old.steps) memory.old }
{
    let mut others = Vec::new(alloc);
    let Ok(pass) = children(rt, published, keeper, memory, pass, &mut others) else {
        drop(others);
        return Err(AllocError);
    };
    let (pass, looked) = join(
        rt,
        || stores(rt, published, keeper, memory, pass),
        || map_vec(rt, others, &|child| looks(published, child)),
    );
    let Ok(looked) = looked else {
        drop(pass);
        return Err(AllocError);
    };
    expect(rt, &"threads that looked", looked.len(), 8);
    let (pass, fall) = meets(published, pass, looked);
    expect(rt, &"a number that goes back", fall, None);
    let pass = expect_found(rt, published, pass, "a look after the stores", 108);
    drop(pass);
    Ok(())
}

fn eight_threads_look<N: Name + Send + Sync, R: Threads + Abort + Sync>(
    rt: &R,
    alloc: Global,
    blank: Blank,
    memory: Memory,
) -> Result<(), AllocError>
    requires table { blank.table ≡ N.table }
    requires limits { blank.limits ≡ N.limits }
    requires memory_limits { memory.limits ≡ N.limits }
    requires stands { StandsFor [] memory }
{
    let mut memory = memory;
    let (published, mut keeper, pass) = blank.open::<N>();
    let looked = look_beside_stores(rt, alloc, &published, &mut keeper, &mut memory, pass);
    drop(keeper);
    drop(memory);
    drop(published);
    looked
}

#[test]
fn looks_never_go_back(rt: HostRuntime) -> Result<(), Fail> {
    let limits = limits();
    let alloc = rt.alloc();
    let blank = Blank::new(alloc, limits)?;
    eight_threads_look::<Brand, _>(&rt, alloc, blank, memory(alloc, limits))?;
    Ok(())
}
