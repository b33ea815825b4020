// Makes a refit in the current folder: the calls of the script on standard input, on a session over the layers that lie there on
// the manifest `base.mtree`. It prints what `report_refit` says, and writes the layer that is made and the squash of all layers.
// A refusal of what it is given is one line on standard output and ends the program with status 1; what fails outside is told on
// standard error.

#![tactic(auto)]

mod files;

use files::{read_layers, write_file};
use folder::read_file;
use refits::report::{Refit, report_refit};
use std::io::{self, Read, Write};
use std::process::ExitCode;

// Writes the files of a refit, and prints what it says. Without a squash of all layers the status is 1.
fn keep(rt: &HostRuntime, refit: &Refit) -> io::Result<ExitCode> {
    write_file(rt, "new.lay", &refit.layer)?;
    if let Some(whole) = &refit.whole {
        write_file(rt, "whole.lay", whole)?;
    }
    rt.stdout().write_all(refit.text.as_slice())?;
    Ok(match refit.whole {
        Some(_) => ExitCode::SUCCESS,
        None => ExitCode::FAILURE,
    })
}

fn main(rt: HostRuntime) -> anyhow::Result<ExitCode> {
    let heap = rt.alloc();
    let base = read_file(&rt, "base.mtree")?.unwrap_or_else(|| Vec::new(heap));
    let layers = read_layers(&rt)?;
    let mut script = Vec::new(heap);
    let _ = rt.stdin().read_to_end(&mut script)?;
    match report_refit(heap, base.as_slice(), layers.as_slice(), script.as_slice())? {
        Ok(refit) => Ok(keep(&rt, &refit)?),
        Err(line) => {
            rt.print(line.as_str())?;
            Ok(ExitCode::FAILURE)
        }
    }
}
