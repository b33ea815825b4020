// Runs the cases of the file `cases` through the public calls, and prints each line of it with what
// became of it.

#![tactic(auto)]

mod asking;
mod faults;
mod indexing;
mod outcomes;
mod spelling;

use asking::{Question, ask_base};
use faults::{print_faults, print_layer_faults};
use indexing::{print_index, print_load};
use outcomes::{print_outcome, print_report};
use reports::report::report_pile;
use spelling::{add_rows, spelled};
use std::{fs, io};

// Runs a line: a kind, a number and two words. A base stands for the lines behind it.
fn run_line(rt: &HostRuntime, base: &mut Vec<u8>, line: &str) -> io::Result<()> {
    let mut fields = line.split('\t');
    let kind = fields.next().unwrap_or("");
    let number = fields.next().unwrap_or("").parse::<usize>().unwrap_or(0);
    let first = spelled(rt.alloc(), fields.next().unwrap_or(""))?;
    let second = spelled(rt.alloc(), fields.next().unwrap_or(""))?;
    let (first, second) = (first.as_slice(), second.as_slice());
    let text = [base.as_slice(), first].concat(rt.alloc())?;
    let text = text.as_slice();
    // The words stand in the file, so one `match` on them is needed.
    match kind {
        "base" => {
            *base = first.to_vec(rt.alloc())?;
            Ok(())
        }
        "rows" => add_rows(base, number, first, second),
        "text" => print_outcome(rt, text, number),
        "index" => print_index(rt, text, number),
        "report" => print_report(rt, report_pile(rt.alloc(), text, None)?),
        "load" => print_load(rt, base.as_slice(), first, second),
        "look" => ask_base(rt, base.as_slice(), number, Question::Look(first)),
        "next" => ask_base(rt, base.as_slice(), number, Question::Next(first, second)),
        "list" => ask_base(rt, base.as_slice(), number, Question::List),
        "faults" => print_faults(rt),
        "layer_faults" => print_layer_faults(rt),
        _ => Ok(()),
    }
}

fn main(rt: HostRuntime) -> io::Result<()> {
    let lines = fs::read_to_string(&rt, "cases")?;
    let mut base = Vec::new(rt.alloc());
    for line in lines.lines() {
        rt.println(line)?;
        run_line(&rt, &mut base, line)?;
    }
    Ok(())
}
