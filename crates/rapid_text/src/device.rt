//! Any reader or writer of std as an input or an output.
ghost use Rattle.std.specs.Prelude.{◌≡◌, Some, false};
ghost use Rattle.rapid_text.specs.Devices.{DeviceView};

use crate::input::{Input, ReadFailed};
use crate::output::{Output, WriteFailed};
use std::io::{Read, Write};
use std::marker::Model;

/// A reader as an input, or a writer as an output. Each pull is one `read`, and each put one `write`.
#[derive(Drop)]
pub struct Device<T> {
    inner: T,
    failed: bool,
    // Contracts alone see this number.
    pulls: u64,
}

impl<T> Model for Device<T> {
    ghost Value = { DeviceView T };

    ghost view = { λ d. record { inner = d.inner; failed = d.failed; pulls = d.pulls } };
}

impl<T> Device<T> {
    /// The device of a reader or a writer, which has not failed and was not pulled.
    pub fn new(inner: T) -> Device<T>
        ensures inner { result.inner ≡ inner }
        ensures failed { result.failed ≡ false }
        ensures pulls { result.pulls ≡ 0 }
    {
        Device {
            inner,
            failed: false,
            pulls: 0,
        }
    }
}

impl<T: Read> Input for Device<T> {
    ghost left = { λ d. T.remaining d.inner };

    ghost failed = { λ d. d.failed };

    ghost pulls = { λ d. Some d.pulls };

    fn pull(&mut self, buf: &mut [u8]) -> Result<usize, ReadFailed> {
        self.pulls = self.pulls.saturating_add(1);
        match self.inner.read(buf) {
            Ok(n) => Ok(n),
            Err(_) => {
                self.failed = true;
                Err(ReadFailed)
            }
        }
    }
}

impl<T: Write> Output for Device<T> {
    ghost written = { λ d. T.contents d.inner };

    ghost failed = { λ d. d.failed };

    fn put(&mut self, bytes: &[u8]) -> Result<usize, WriteFailed> {
        match self.inner.write(bytes) {
            Ok(n) if n > 0 || bytes.is_empty() => Ok(n),
            _ => {
                self.failed = true;
                Err(WriteFailed)
            }
        }
    }
}
