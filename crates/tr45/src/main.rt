// A calculator for TR45.0.A. Each line of standard input asks for one calculation, a name and its fields, and is printed with
// ` -> ` and the answer, or ` -> error: ` and why there is none. A line that is empty or begins with `#` is passed over.
#![tactic(auto)]

mod request;

use calculations::Shown;
use request::read_line;
use std::alloc::Global;
use std::io;
use std::io::{BufRead, BufReader};

fn answer(rt: &impl Print, heap: Global, line: &str) -> io::Result<()> {
    let request = match read_line(line.as_bytes()) {
        Ok(request) => request,
        Err(fault) => return println!(rt; "{line} -> error: {fault}"),
    };
    let mut body = Vec::from_elem(heap, 0, request.body.length())?;
    match request.answer(&mut body) {
        Ok(answer) => {
            let shown = Shown {
                answer,
                body: &body,
            };
            println!(rt; "{line} -> {shown}")
        }
        Err(fault) => println!(rt; "{line} -> error: {fault}"),
    }
}

// The loop stands in both programs: shared over a closure it would ask that this may be called, and over a trait be longer.
fn main(rt: HostRuntime) -> io::Result<()> {
    for line in BufReader::new(rt.alloc(), rt.stdin())?.lines(rt.alloc()) {
        let line = line?;
        if !line.is_empty() && !line.as_str().starts_with('#') {
            answer(&rt, rt.alloc(), line.as_str())?;
        }
    }
    Ok(())
}
