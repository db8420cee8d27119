//! A bank, monitored while it runs: three tellers move money between accounts, each under its own lock, and
//! the manager looks at one without. The report, of one schedule, goes to standard error.
#![tactic(auto)]

ghost use Rattle.std.specs.Prelude.{◌≡◌};

use closed_report::{Device, NameLists, names_of, report_closed};
use event_core::{Limits, LockId, Refusal, Roots, SiteId, ThreadId, VarId};
use live_monitor::{Closed, Tries, Unnamed, start};
use log_pass::Name;
use std::marker::Brand;
use std::process::ExitCode;
use std::sync::Wait;
use std::thread::{Threads, for_each_mut};
use traced_thread::TracedThread;

const ACCOUNTS: u32 = 4;

/// How often a teller tries to acquire a lock.
const TRIES: u32 = 1_000_000;

const DESK: SiteId = SiteId(0);

const MOVE: SiteId = SiteId(1);

const LOOK: SiteId = SiteId(2);

/// What the report calls the numbers.
const NAMES: NameLists<'static> = NameLists {
    threads: &["manager", "first", "second", "third"],
    locks: &["key0", "key1", "key2", "key3"],
    variables: &["account0", "account1", "account2", "account3"],
    sites: &["desk", "move", "look"],
};

/// A teller's day: transfers, each under both locks, to the account that lies so many further on.
fn work<N: Name, R: Wait>(rt: &R, teller: &mut TracedThread<N>, step: u32) -> Result<(), Refusal> {
    for round in 0..50 {
        let from = round % ACCOUNTS;
        let to = (from + step % ACCOUNTS) % ACCOUNTS;
        // The lesser lock is acquired first. Both are released at the end of the round, and by `?`.
        let mut one = teller.lock_within(rt, LockId(from.min(to)), MOVE, &mut Tries::of(TRIES))?;
        let mut both = one.lock_within(LockId(from.max(to)), MOVE, &mut Tries::of(TRIES))?;
        let balance = both.load(VarId(from), MOVE)?.value;
        let amount = balance.min(10);
        both.store(VarId(from), balance - amount, MOVE)?;
        let balance = both.load(VarId(to), MOVE)?.value;
        both.store(VarId(to), balance.saturating_add(amount), MOVE)?;
    }
    Ok(())
}

/// Opens the accounts, lets the tellers work, looks at an account, and counts the money.
fn day<N: Name + Send + Sync, R: Threads + Wait + Sync>(
    rt: &R,
    manager: &mut TracedThread<N>,
) -> Result<u64, Refusal> {
    for account in 0..ACCOUNTS {
        manager.store(rt, VarId(account), 100, DESK)?;
    }
    let mut crew = [
        (1, manager.fork(rt, ThreadId(1), DESK)?.0, Ok(())),
        (2, manager.fork(rt, ThreadId(2), DESK)?.0, Ok(())),
        (3, manager.fork(rt, ThreadId(3), DESK)?.0, Ok(())),
    ];
    for_each_mut(rt, &mut crew, 3, &|_, it| it.2 = work(rt, &mut it.1, it.0));
    manager.load(rt, VarId(0), LOOK)?;
    for (_, teller, day) in crew {
        day?;
        manager.join(rt, teller, DESK)?;
    }
    let mut money = 0u64;
    for account in 0..ACCOUNTS {
        money = money.saturating_add(manager.load(rt, VarId(account), DESK)?.value);
    }
    Ok(money)
}

/// A day under the monitor, which is then closed.
fn run<N: Name + Send + Sync, R: Threads + Wait + Sync>(
    rt: &R,
    unnamed: Unnamed,
) -> (Closed, Result<u64, Refusal>)
    requires table { unnamed.table ≡ N.table }
    requires limits { unnamed.limits ≡ N.limits }
{
    let (shared, pass) = start::<N>(unnamed);
    let mut manager = TracedThread::new(&shared, pass);
    let money = day(rt, &mut manager);
    let pass = manager.into_pass();
    (shared.close(pass), money)
}

fn main(rt: HostRuntime) -> anyhow::Result<ExitCode> {
    let limits = Limits::new(4, ACCOUNTS, ACCOUNTS, 4096, Roots::OnlyMain)?;
    let names = names_of(rt.alloc(), limits, &NAMES)?;
    let unnamed = Unnamed::new(rt.alloc(), limits)?;
    let (closed, money) = run::<Brand, _>(&rt, unnamed);
    let summary = report_closed(&mut Device::new(rt.stderr()), &closed, &names)?;
    let found = if summary.races > 0 { "yes" } else { "no" };
    println!(rt; "all money: {}\na race was found: {found}", money?)?;
    Ok(ExitCode::from(u8::from(summary.races > 0)))
}
