//! What sockets do, tried by hand: each line of standard input is one call, whose answer is a line of standard output.
//! Nets, doors, links and ends stand in numbered places. Its functions promise nothing but safety.
#![tactic(auto)]

mod files;
mod places;
mod rows;
mod words;

use places::Places;
use std::io;
use words::Words;

fn main(rt: HostRuntime) -> io::Result<()> {
    let mut places = Places::new(rt.alloc())?;
    for line in rt.lines(rt.alloc()) {
        let line = line?;
        let words = Words::of(line.as_str());
        if words.call == "#" {
            println!(&rt; "{line}")?;
        } else if !places.obey(&rt, &words)?
            && !files::obey(&rt, &words)?
            && !rows::obey(&rt, &rt, &mut places, &words)?
        {
            println!(&rt; "no such call: {line}")?;
        }
    }
    Ok(())
}
