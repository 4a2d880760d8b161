//! The executable hplan: calls `hplan::start` and exits with the status that it returns.
//!
//! Nothing but safety is proved of it. The crate has one run: arguments (`args`), files
//! (`data/`) and expected output (`stdout`).
//! Start at `src/program.rt` of the crate hplan.
#![tactic(auto)]

use std::io::IsTerminal;
use std::process::ExitCode;

fn main(rt: HostRuntime) -> ExitCode {
    let mut err = rt.stderr();
    let to_person = err.is_terminal();
    ExitCode::from(hplan::start(&rt, to_person, &mut rt.stdout(), &mut err))
}
