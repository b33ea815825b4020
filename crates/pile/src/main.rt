// Lists what the current folder holds: the layer `top.lay` on the manifest `base.mtree`. A refusal is one line
// on standard output and ends the program with status 1; what fails outside is told on standard error.

#![tactic(auto)]

use folder::read_file;
use reports::report::report_pile;
use std::io::Write;
use std::process::ExitCode;

fn main(rt: HostRuntime) -> anyhow::Result<ExitCode> {
    let base = read_file(&rt, "base.mtree")?.unwrap_or_else(|| Vec::new(rt.alloc()));
    let top = read_file(&rt, "top.lay")?;
    match report_pile(rt.alloc(), base.as_slice(), top.as_deref())? {
        Ok(listing) => {
            rt.stdout().write_all(listing.as_slice())?;
            Ok(ExitCode::SUCCESS)
        }
        Err(line) => {
            rt.print(line.as_str())?;
            Ok(ExitCode::FAILURE)
        }
    }
}
