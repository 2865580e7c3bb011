// The program `coils`. Each program has a `main` of its own; what this one and `coils_test` do is one function below
// them.

#![tactic(auto)]

use std::process::ExitCode;

fn main(rt: HostRuntime) -> ExitCode {
    coils_io::exit_code(&rt)
}
