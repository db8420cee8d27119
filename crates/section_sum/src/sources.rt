//! The sections that an access meets under one lock, one after another.
ghost use Rattle.std.specs.Prelude.{◌≡◌, []};
ghost use Rattle.std.specs.Iterator.{YieldsFirst, item_count};
ghost use Rattle.section_sum.specs.Sources.{left};

/// At most two section numbers, none of them 0.
#[derive(Drop)]
pub struct Sources {
    pub(crate) first: Option<u32>,
    pub(crate) second: Option<u32>,
}

impl Sources {
    // No sections.
    #[tactic(auto, unfolding(crate::specs::Sources::left))]
    pub(crate) fn none() -> Sources
        ensures { left result ≡ [] }
    {
        Sources {
            first: None,
            second: None,
        }
    }
}

impl Iterator for Sources {
    type Item = u32;

    ghost next_gives = { YieldsFirst left };

    ghost remaining = { item_count left };

    #[tactic(auto, unfolding(crate::specs::Sources::left))]
    fn next(&mut self) -> Option<u32> {
        match self.first.take() {
            Some(number) => Some(number),
            None => self.second.take(),
        }
    }
}
