// The program `coils` on a second input: a map one byte too long, and a record cut short. As `coils` it has a `main` of
// its own, above the same function.

#![tactic(auto)]

use std::process::ExitCode;

fn main(rt: HostRuntime) -> ExitCode {
    coils_io::exit_code(&rt)
}
