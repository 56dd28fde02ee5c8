//! Runs sheets through reading and checking, each refusal at each place it can occur, and records through belonging.

#![tactic(auto)]

use forest::Fault;
use sheet::read::ReadSheet;
use sheet::sound::SoundSheet;
use std::io;

/// Reads and checks a body; what was held is told where it is refused.
fn hold(held: &mut SoundSheet, body: &[u8]) -> Result<(), Fault> {
    let read = ReadSheet::read(body)?;
    held.check(&read)?;
    Ok(())
}

fn show(rt: &impl Print, body: &[u8]) -> io::Result<()> {
    let mut held = SoundSheet::empty();
    match hold(&mut held, body) {
        Ok(()) => {
            let rows = held.len();
            let places = held.places();
            println!(rt; "sound {rows} {places}")
        }
        Err(fault) => {
            let rows = held.len();
            println!(rt; "refused {fault}, held {rows} rows")
        }
    }
}

fn show_record(rt: &impl Print, sheet: &[u8], body: &[u8]) -> io::Result<()> {
    let mut held = SoundSheet::empty();
    let _ = hold(&mut held, sheet);
    match held.belongs(body) {
        Ok(yes) => println!(rt; "belongs {yes}"),
        Err(fault) => println!(rt; "refused {fault}"),
    }
}

fn sizes(rt: &impl Print) -> io::Result<()> {
    println!(rt; "9: sizes")?;
    show(rt, &[])?;
    show(rt, &[0, 0, 0])?;
    show(rt, &[0, 0, 0, 0, 7])?;
    show(rt, &[0; 516])?;
    show(rt, &[0; 512])
}

fn fixed_bytes(rt: &impl Print) -> io::Result<()> {
    println!(rt; "10: fixed bytes")?;
    show(rt, &[0, 1, 0, 0])?;
    show(rt, &[0, 0, 1, 0])?;
    show(rt, &[0, 0, 0, 1])?;
    show(rt, &[1, 1, 0, 0])?;
    show(rt, &[1, 0, 1, 0])?;
    show(rt, &[1, 0, 0, 1])?;
    show(rt, &[3, 1, 0, 0])?;
    show(rt, &[3, 0, 1, 0])?;
    show(rt, &[1, 0, 0, 0, 1, 0, 0, 0, 4, 0, 1, 1])?;
    show(rt, &[1, 0, 0, 0, 1, 0, 0, 0, 5, 0, 1, 1])?;
    show(rt, &[1, 0, 0, 0, 6, 0, 1, 0])?;
    show(rt, &[1, 0, 0, 0, 6, 0, 0, 1])?;
    show(rt, &[1, 0, 0, 0, 7, 0, 1, 0])?;
    show(rt, &[1, 0, 0, 0, 7, 0, 0, 1])
}

fn kinds_and_labels(rt: &impl Print) -> io::Result<()> {
    println!(rt; "10: kinds and labels")?;
    show(rt, &[8, 0, 0, 0])?;
    show(rt, &[255, 0, 0, 0])?;
    show(rt, &[2, 0, 0, 0, 7, 0, 0, 0])?;
    show(rt, &[2, 0, 1, 0, 7, 0, 0, 0])?;
    show(rt, &[2, 1, 0, 0, 7, 0, 0, 0])?;
    println!(rt; "10 before 11 in a row, 11 in a lower row before 10")?;
    show(rt, &[4, 9, 9, 1])?;
    show(rt, &[6, 9, 0, 0, 8, 0, 0, 0])
}

fn parts(rt: &impl Print) -> io::Result<()> {
    println!(rt; "11: parts")?;
    show(rt, &[1, 0, 0, 0, 4, 1, 0, 0])?;
    show(rt, &[1, 0, 0, 0, 4, 0, 1, 0])?;
    show(rt, &[1, 0, 0, 0, 5, 2, 0, 0])?;
    show(rt, &[1, 0, 0, 0, 5, 0, 2, 0])?;
    show(rt, &[6, 0, 0, 0])?;
    show(rt, &[7, 0, 0, 0])?;
    show(rt, &[1, 0, 0, 0, 7, 0, 0, 0, 1, 0, 0, 0, 4, 1, 2, 0])?;
    show(rt, &[1, 0, 0, 0, 7, 0, 0, 0, 1, 0, 0, 0, 5, 2, 1, 0])?;
    show(rt, &[1, 0, 0, 0, 7, 0, 0, 0, 6, 1, 0, 0])?;
    show(rt, &[1, 0, 0, 0, 7, 0, 0, 0, 7, 1, 0, 0])
}

fn whole(rt: &impl Print) -> io::Result<()> {
    println!(rt; "12: not once a part")?;
    show(rt, &[1, 0, 0, 0])?;
    show(rt, &[1, 0, 0, 0, 1, 0, 0, 0, 7, 1, 0, 0])?;
    show(rt, &[1, 0, 0, 0, 4, 0, 0, 0, 7, 1, 0, 0])?;
    show(rt, &[1, 0, 0, 0, 7, 0, 0, 0, 7, 0, 0, 0])?;
    show(rt, &[1, 0, 0, 0, 6, 0, 0, 0])?;
    println!(rt; "13: missing definitions, 11 and 12 before it")?;
    show(rt, &[2, 0, 1, 1, 7, 0, 0, 0])?;
    show(rt, &[3, 0, 0, 1, 7, 0, 0, 0])?;
    show(
        rt,
        &[
            3, 0, 0, 0, 7, 0, 0, 0, 2, 0, 1, 9, 3, 0, 0, 9, 5, 2, 3, 0, 7, 4, 0, 0,
        ],
    )?;
    show(rt, &[3, 0, 0, 1, 7, 1, 0, 0])?;
    show(rt, &[3, 0, 0, 1, 3, 0, 0, 0, 7, 1, 0, 0])
}

/// `count` definitions, each of one text; if a definition is to miss its content, its text becomes a node with a content that is missing.
fn many(rt: &impl Print, count: u8, missing: Option<u8>) -> io::Result<()> {
    let mut body = [0u8; 512];
    let count = count.min(64);
    // By index: in a walk of `(0..count).zip(body.chunks_exact_mut(8))` a proof lacks that `2 * i` fits a byte.
    for i in 0..count {
        let at = 8 * usize::from(i);
        body[at] = 1;
        body[at + 4] = 7;
        body[at + 5] = 2 * i;
    }
    if let Some(i) = missing {
        if i < count {
            let at = 8 * usize::from(i);
            body[at] = 3;
            body[at + 3] = 200;
        }
    }
    show(rt, &body[..8 * usize::from(count)])
}

fn places(rt: &impl Print) -> io::Result<()> {
    println!(rt; "14: places, 13 before it")?;
    many(rt, 32, None)?;
    many(rt, 33, None)?;
    many(rt, 64, None)?;
    many(rt, 33, Some(32))?;
    many(rt, 33, Some(0))
}

fn records(rt: &impl Print) -> io::Result<()> {
    println!(rt; "records")?;
    let text = [1, 0, 0, 0, 7, 0, 0, 0];
    show_record(rt, &text, &[])?;
    show_record(rt, &text, &[3, 0])?;
    show_record(rt, &text, &[3, 0, 3, 0])?;
    show_record(rt, &text, &[3])?;
    show_record(rt, &text, &[4])?;
    show_record(rt, &text, &[1, 0, 0])?;
    show_record(rt, &text, &[3, 0, 2])?;
    show_record(rt, &text, &[1, 0, 1])
}

fn main(rt: HostRuntime) -> io::Result<()> {
    sizes(&rt)?;
    fixed_bytes(&rt)?;
    kinds_and_labels(&rt)?;
    parts(&rt)?;
    whole(&rt)?;
    places(&rt)?;
    records(&rt)
}
