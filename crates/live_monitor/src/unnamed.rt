//! The start: a monitor before it has a name, and then the one that threads share.
ghost use Rattle.std.specs.Prelude.{◌≡◌, ◌↔◌, [], IfOk, IfErr};
ghost use Rattle.event_core.specs.declared.bounds.Roots.TheVariants.{Free, OnlyMain};
ghost use Rattle.log_pass.specs.Passes.{main, new_pass};

use crate::book::Book;
use crate::rule::{AnyLog, LogRule};
use crate::shared::Shared;
use event_core::{Limits, Roots};
use log_pass::{Blank, Name, Pass};
use seq_monitor::Monitor;
use std::alloc::Global;
use std::marker::{Model, PhantomData};
use std::sync::Mutex;
use thiserror::Error;

/// Why there is no monitor to start.
#[derive(Clone, Copy, Debug, PartialEq, Eq, Error)]
pub enum StartFault {
    /// The limits let more threads than thread 0 run from the beginning.
    #[error("only thread 0 may run from the beginning")]
    RootsFree,
    /// There was no memory for it.
    #[error("out of memory")]
    NoRoom,
}

/// A monitor with an empty log, before any pass is handed out. Contracts see which `table` it is, and the
/// `limits`.
#[derive(Drop)]
pub struct Unnamed {
    blank: Blank,
    monitor: Monitor,
}

impl Model for Unnamed {
    ghost use Rattle.std.specs.Prelude.{◌≡◌, []};
    ghost use Rattle.log_pass.specs.Names.{LimitedTable, limited_table_code};

    ghost Value = { LimitedTable };

    ghost coded = { limited_table_code };

    ghost view = { λ u. u.blank };

    ghost invariant = { λ u. (u.monitor.log ≡ []) × (u.monitor.limits ≡ u.blank.limits) };
}

impl Unnamed {
    /// A monitor with an empty log. The fault is `RootsFree` where more threads than thread 0 run from the
    /// beginning, and `NoRoom` where a growth was refused.
    pub fn new(alloc: Global, limits: Limits) -> Result<Unnamed, StartFault>
        ensures limits { IfOk result (λ unnamed. unnamed.limits ≡ limits) }
        ensures only_main { IfOk result (λ _. limits.roots ≡ OnlyMain) }
        ensures roots { IfErr result (λ fault. (fault ≡ StartFault.RootsFree) ↔ (limits.roots ≡ Free)) }
    {
        if limits.roots() == Roots::Free {
            return Err(StartFault::RootsFree);
        }
        let Ok(blank) = Blank::new(alloc, limits) else {
            return Err(StartFault::NoRoom);
        };
        let Ok(monitor) = Monitor::new(alloc, limits) else {
            return Err(StartFault::NoRoom);
        };
        Ok(Unnamed { blank, monitor })
    }
}

/// The monitor under the name `N`, which names this one, with the pass of thread 0. It takes no memory.
pub fn start<N: Name>(unnamed: Unnamed) -> (Shared<N>, Pass<N>)
    requires table { unnamed.table ≡ N.table }
    requires limits { unnamed.limits ≡ N.limits }
    ensures main_pass { result.1 ≡ new_pass main [] }
{
    start_under::<N, AnyLog>(unnamed)
}

/// The same under the rule `K`, which the empty log keeps.
pub fn start_under<N: Name, K: LogRule>(unnamed: Unnamed) -> (Shared<N, K>, Pass<N>)
    requires table { unnamed.table ≡ N.table }
    requires limits { unnamed.limits ≡ N.limits }
    requires keeps { K.keeps [] }
    ensures main_pass { result.1 ≡ new_pass main [] }
{
    let Unnamed { blank, monitor } = unnamed;
    let (published, keeper, pass) = blank.open::<N>();
    let book = Mutex::new(Book {
        monitor,
        keeper,
        rule: PhantomData,
    });
    (Shared { book, published }, pass)
}
