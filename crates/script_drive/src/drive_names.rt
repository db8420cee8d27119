//! Which drive it is, for contracts; the rule of its log, and the terms of the passes between its workers.
use live_monitor::LogRule;
use log_pass::Name;
use pass_channel::Terms;
use std::marker::{Brand, PhantomData};

/// Names one drive: the lines of its script, the table of its monitor, and the patience with its lines. Each
/// drive picks them.
pub(crate) trait DriveName: Name {
    ghost use Rattle.std.specs.Prelude.{ℕ, Bool, List};
    ghost use Rattle.script_text.specs.declared.lines.ScriptLine.{ScriptLine};

    ghost lines: { List ScriptLine };

    ghost patience: { ℕ };

    // Whether each line is let go ahead at its first try.
    ghost ahead: { Bool };
}

impl DriveName for Brand {
    ghost use Rattle.std.specs.Prelude.{[], false};

    ghost lines = { [] };

    ghost patience = { 0 };

    ghost ahead = { false };
}

/// The log is one that the threads of the script can have made.
pub(crate) struct RunsScript<S: DriveName> {
    drive: PhantomData<S>,
}

impl<S: DriveName> LogRule for RunsScript<S> {
    ghost use Rattle.script_drive.specs.Runs.{IsRunOf};

    ghost keeps = { IsRunOf S.lines };
}

/// The first pass of a thread, which its fork gives.
pub(crate) struct FirstPasses<S: DriveName> {
    drive: PhantomData<S>,
}

impl<S: DriveName> Terms for FirstPasses<S> {
    ghost use Rattle.script_drive.specs.Workers.{IsFirst};

    ghost good = { IsFirst S.lines };
}

/// The last pass of a thread, which has made the calls of its lines.
pub(crate) struct LastPasses<S: DriveName> {
    drive: PhantomData<S>,
}

impl<S: DriveName> Terms for LastPasses<S> {
    ghost use Rattle.script_drive.specs.Workers.{Done};

    ghost good = { Done S.lines };
}
