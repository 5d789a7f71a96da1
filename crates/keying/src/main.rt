// Keys terminals from beginning to end. Each line of standard input is one terminal: ESN, the digits as the fitter types them,
// RANDSSD, RAND and AUTH_DATA. Printed is whether the digits are accepted, and then the A-key, SSD, the signature of the opening,
// and the CMEA key and voice mask of the call. A line that is empty or begins with `#` is passed over.
#![tactic(auto)]

mod report;
mod request;
mod terminal;

use report::Explained;
use request::read_request;
use std::io;
use std::io::{BufRead, BufReader};
use terminal::key_terminal;

fn answer(rt: &impl Print, line: &str) -> io::Result<()> {
    match read_request(line.as_bytes()) {
        Ok(request) => match key_terminal(&request) {
            Ok(keyed) => println!(rt; "{line} -> {keyed}"),
            Err(refusal) => println!(rt; "{line} -> {}", Explained(refusal)),
        },
        Err(fault) => println!(rt; "{line} -> error: {fault}"),
    }
}

// The loop stands in both programs: shared over a closure it would ask that this may be called, and over a trait be longer.
fn main(rt: HostRuntime) -> io::Result<()> {
    for line in BufReader::new(rt.alloc(), rt.stdin())?.lines(rt.alloc()) {
        let line = line?;
        if !line.is_empty() && !line.as_str().starts_with('#') {
            answer(&rt, line.as_str())?;
        }
    }
    Ok(())
}
