// Reads a hall's script from standard input, carries out each line, and prints what came of it and an account.
#![tactic(auto)]

mod hall;
mod play;

use hall::Hall;
use std::io;
use std::io::{BufRead, BufReader, BufWriter, Write};

fn main(rt: HostRuntime) -> io::Result<()> {
    let mut input = BufReader::new(rt.alloc(), rt.stdin())?;
    let mut output = BufWriter::new(rt.alloc(), rt.stdout())?;
    let mut hall = Hall::new(rt);
    let mut line = Vec::new(rt.alloc());
    // A loop is proved to end, so the lines are counted by a range; no script has as many.
    for number in 1..u64::MAX {
        line.clear();
        if input.read_until(b'\n', &mut line)? == 0 {
            break;
        }
        hall.hear(number, line.as_slice(), &mut output)?;
    }
    hall.account(&mut output)?;
    output.flush()
}
