//! The program `wcp`: `wcp_tool` over standard input, standard output and standard error.
#![tactic(auto)]

use rapid_text::Device;
use std::process::ExitCode;
use wcp_tool::program;

fn main(rt: HostRuntime) -> ExitCode {
    let mut reader = Device::new(rt.stdin());
    let mut writer = Device::new(rt.stdout());
    let mut errors = Device::new(rt.stderr());
    ExitCode::from(program(&rt, &mut reader, &mut writer, &mut errors))
}
