//! Carries out scripts of cases on a machine in memory by the engine's top call, and compares what was written with the
//! expected texts.
#![tactic(auto)]

mod base;
mod device;
mod entry_line;
mod entry_read;
mod found;
mod held;
mod ill;
mod lies;
mod machine;
mod orders;
mod printed;
mod record;
mod room;
mod runs;
mod script;
mod source;
mod table;
mod told;
mod trial;
mod waiting;

use mi_lines::run_scripts;
use script::Script;
use std::process::ExitCode;

fn carried(rt: HostRuntime, script: &mut Script) -> ExitCode {
    run_scripts(&rt, script)
}

fn main(rt: HostRuntime) -> ExitCode {
    let Ok(mut script) = Script::new(rt) else {
        return ExitCode::FAILURE;
    };
    let status = carried(rt, &mut script);
    drop(script);
    status
}
