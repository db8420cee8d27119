//! The files that scripts stand in.
ghost use Rattle.std.specs.Prelude.{◌≡◌, List, ℕ, Option, IfSome, false, ⊤};

use rapid_text::{Device, Input};
use std::fs;
use std::fs::Files;

/// Opens files of scripts. Contracts see what opening a path may give: the reader of a script, or none. Of
/// the system's files nothing is known.
pub trait ScriptFiles {
    type Script: Input + Drop;

    ghost open_gives: { Self → List ℕ → Option Self.Script → Type 0 };

    /// A reader of the script in the file at this path, or none where it could not be opened.
    fn open_script(&self, path: &str) -> Option<Self::Script>
        ensures gives { open_gives self.now path.now result }
        ensures works { IfSome result (λ s. Self.Script.failed s ≡ false) };
}

impl<R: Files> ScriptFiles for R {
    type Script = Device<R::File>;

    ghost open_gives = { λ _ _ _. ⊤ };

    fn open_script(&self, path: &str) -> Option<Device<R::File>> {
        match fs::open(self, path) {
            Ok(file) => Some(Device::new(file)),
            Err(_) => None,
        }
    }
}
