//! The releases that an access meets under one lock, one after another.
ghost use Rattle.lock_queues.specs.Queues.{closed_of};
ghost use Rattle.section_sum.specs.Sources.{left};
ghost use Rattle.wcp_clocks.specs.Met.{AreClosed};

use event_core::LockId;
use hb_clocks::ReleaseClock;
use lock_queues::Queues;
use section_sum::Sources;

/// The clocks of at most two releases, which are looked up as they are asked for.
#[derive(Drop)]
pub struct SourceClocks<'a> {
    queues: &'a Queues,
    lock: LockId,
    numbers: Sources,
    ghost closed: { AreClosed (closed_of queues.now lock.0) (left numbers) },
}

impl<'a> SourceClocks<'a> {
    ghost use Rattle.std.specs.Prelude.{◌≡◌, map};
    ghost use Rattle.lock_queues.specs.Queues.{closed_of};
    ghost use Rattle.section_sum.specs.Sources.{left};
    ghost use Rattle.wcp_clocks.specs.Met.{AreClosed};
    ghost use Rattle.wcp_clocks.specs.MetReleases.{rest, most_threads, released_at};

    // The clocks of the releases of the lock's sections with the numbers.
    #[tactic(auto, unfolding(crate::specs::MetReleases::rest, crate::specs::MetReleases::most_threads))]
    #[inline(always)]
    pub(crate) fn new(queues: &'a Queues, lock: LockId, numbers: Sources) -> SourceClocks<'a>
        requires { AreClosed (closed_of queues.now lock.0) (left numbers) }
        ensures rest { rest result ≡ map (released_at (closed_of queues.now lock.0)) (left numbers) }
        ensures threads { most_threads result ≡ queues.now.limits.threads }
    {
        SourceClocks {
            queues,
            lock,
            numbers,
        }
    }
}

impl<'a> Iterator for SourceClocks<'a> {
    ghost use Rattle.std.specs.Iterator.{item_count};
    ghost use Rattle.wcp_clocks.specs.MetReleases.{rest, Yields};

    type Item = ReleaseClock<'a>;

    ghost next_gives = { Yields };

    ghost remaining = { item_count rest };

    #[tactic(auto, unfolding(crate::specs::MetReleases::rest, crate::specs::MetReleases::most_threads))]
    #[inline(always)]
    fn next(&mut self) -> Option<ReleaseClock<'a>> {
        let number = self.numbers.next()?;
        Some(self.queues.section(self.lock, number))
    }
}
