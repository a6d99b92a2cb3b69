// Prints the line for case.bin and plan.bin of the folder that it is run in.
#![tactic(auto)]

ghost use Rattle.std.specs.Counts.{IsPrefixLen};

use line::files::{CASE_BYTES, LINE_BYTES, PLAN_BYTES, line_of};
use std::io::{Print, Read};
use std::rt::Files;
use std::{fs, io};

// Reads the file until its end or the buffer's. A file that is missing counts as empty.
fn contents(rt: &impl Files, path: &str, buf: &mut [u8]) -> usize
    ensures { IsPrefixLen result buf.new }
{
    match fs::open(rt, path) {
        Ok(mut file) => read_full(&mut file, buf),
        Err(_) => 0,
    }
}

// A read that fails ends the file, as a read of nothing does. The loop is no `for`: each read says how far it went; and without a heap no library's
// method reads a file to its end.
fn read_full(file: &mut impl Read, buf: &mut [u8]) -> usize
    ensures { IsPrefixLen result buf.new }
{
    let mut done = 0;
    while done < buf.len() {
        match file.read(&mut buf[done..]) {
            Ok(0) | Err(_) => break,
            Ok(n) => done += n,
        }
    }
    done
}

fn main(rt: HostRuntime) -> io::Result<()> {
    // a byte more than the limit, which is enough to tell that a file is longer
    let mut case = [0u8; CASE_BYTES + 1];
    let mut plan = [0u8; PLAN_BYTES + 1];
    let m = contents(&rt, "case.bin", &mut case);
    let n = contents(&rt, "plan.bin", &mut plan);
    let mut line = [0u8; LINE_BYTES];
    let k = line_of(&case[..m], &plan[..n], &mut line);
    rt.write_all(&line[..k])
}
