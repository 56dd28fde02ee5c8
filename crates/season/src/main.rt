//! Reads a stream of entries from standard input and prints a line for each.

#![tactic(auto)]

use desk::{Desk, Progress};
use judge::Sort;
use register::Register;
use rows::Row;
use std::io::{BufWriter, Read, Write};
use stream::LineBuffer;
use survey::{First, Standings};

/// How much of standard input is read, in bytes.
const MOST_INPUT: u64 = 65536;

/// An element of the working list before it is used.
// Written out: the library makes no blank elements, since it reads none.
const UNUSED: Sort<u32> = Sort {
    standings: Standings { old: 0, new: 0 },
    cost: 0,
    length: 0,
    first: First::Nothing,
    content: 0,
    rest: 0,
};

fn main(rt: HostRuntime) -> anyhow::Result<()> {
    let heap = rt.alloc();
    let mut input = Vec::new(heap);
    rt.stdin().take(MOST_INPUT).read_to_end(&mut input)?;
    let mut out = BufWriter::new(heap, rt.stdout())?;
    let mut register = Register::new(vec![in heap; Row::Empty; 2048]?, vec![in heap; 0; 65536]?);
    let mut desk = Desk {
        register: &mut register,
        list: &mut [UNUSED; 1024],
        show: &mut [0; 4096],
        line: &mut LineBuffer::new(),
    };
    let mut rest = input.as_slice();
    // An entry takes some of the input, so there are turns enough for all of them.
    for earlier in 0..input.len() {
        match desk.handle(earlier + 1, rest) {
            Progress::Done => break,
            Progress::Stopped => {
                out.write_all(desk.line.text())?;
                rest = &[];
                break;
            }
            Progress::More(next) => {
                out.write_all(desk.line.text())?;
                rest = next;
            }
        }
    }
    let is_over = rest.is_empty();
    prove!(is_over);
    out.flush()?;
    Ok(())
}
