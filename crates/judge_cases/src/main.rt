//! Judges sheets against sheets, case by case, and prints a line for each.

#![tactic(auto)]

ghost use Rattle.std.specs.Prelude.{◌≤◌, length};

mod print;
mod sheets;

use judge::{Sort, judge};
use measure::{Either, Filling, Flat, Length};
use print::{Printed, print_judged};
use rows::ReadSheet;
use sheet::sound::SoundSheet;
use std::io;
use survey::{First, Standings};

/// The largest working list and the largest show buffer of the cases, one element above what either may use.
const LIST: usize = 1025;

const SHOW: usize = 65536;

/// What is in the show buffer before.
pub const UNTOUCHED: u8 = 0xEE;

/// A sheet that is read and checked, or the one that admits the empty forest alone.
fn sheet(body: &[u8]) -> SoundSheet {
    let mut held = SoundSheet::empty();
    if let Ok(read) = ReadSheet::read(body) {
        let _ = held.check(&read);
    }
    held
}

/// An element of a working list that says nothing.
// Written out: the library makes no blank elements, since it reads none.
fn blank<C>(cost: C) -> Sort<C> {
    Sort {
        standings: Standings { old: 0, new: 0 },
        cost,
        length: 0,
        first: First::Nothing,
        content: 0,
        rest: 0,
    }
}

/// A new sheet that is judged against an old one, over so many elements of a list and bytes of a buffer.
#[derive(Clone, Copy)]
struct Case<'a> {
    name: &'a str,
    old: &'a [u8],
    new: &'a [u8],
    list: usize,
    show: usize,
    ghost list_fits: { list ≤ 1025 },
    ghost show_fits: { show ≤ 65536 },
}

impl<'a> Case<'a> {
    fn new(name: &'a str, old: &'a [u8], new: &'a [u8]) -> Self {
        Case {
            name,
            old,
            new,
            list: 1024,
            show: 4096,
        }
    }

    fn with_list(mut self, list: usize) -> Self
        requires { list ≤ 1025 }
    {
        self.list = list;
        self
    }

    fn with_show(mut self, show: usize) -> Self
        requires { show ≤ 65536 }
    {
        self.show = show;
        self
    }

    /// Judges by the measure, and prints the case's line.
    fn judge_by<M: Printed>(
        &self,
        rt: &HostRuntime,
        measure: &M,
        elements: &mut [Sort<M::Cost>],
    ) -> io::Result<()>
        requires { 1025 ≤ length elements.old }
    {
        let mut buffer = [UNTOUCHED; SHOW];
        let name = self.name;
        let kind = measure.name();
        print!(rt; "{name}{kind}: ")?;
        let show = &mut buffer[..self.show];
        let judged = judge(
            &sheet(self.old),
            &sheet(self.new),
            measure,
            &mut elements[..self.list],
            show,
        );
        print_judged(rt, measure, judged, show)
    }
}

/// Judges each case by length.
fn by_length(rt: &HostRuntime, cases: &[Case]) -> io::Result<()> {
    for case in cases {
        case.judge_by(rt, &Length, &mut [blank(0); LIST])?;
    }
    Ok(())
}

/// The list's bounds, and losses told and shown.
fn first_cases(rt: &HostRuntime) -> io::Result<()> {
    by_length(
        rt,
        &[
            Case::new("N against E", sheets::N, sheets::E),
            Case::new("E against E, a list of 0", sheets::E, sheets::E).with_list(0),
            Case::new("E against E, a list of 1", sheets::E, sheets::E).with_list(1),
            Case::new("E against E, a list of 2", sheets::E, sheets::E).with_list(2),
            Case::new("E against E, a list of 1025", sheets::E, sheets::E).with_list(1025),
            Case::new("S2 against S1", sheets::S2, sheets::S1),
            Case::new("S2 against S1, a buffer of 16", sheets::S2, sheets::S1).with_show(16),
            Case::new("S2 against S1, a buffer of 15", sheets::S2, sheets::S1).with_show(15),
            Case::new("S1 against S2", sheets::S1, sheets::S2),
            Case::new("S2 against S3", sheets::S2, sheets::S3),
            Case::new(
                "W against V, a label that neither names",
                sheets::W,
                sheets::V,
            ),
        ],
    )
}

/// Sorts, repetitions and measures.
fn more_cases(rt: &HostRuntime) -> io::Result<()> {
    by_length(
        rt,
        &[
            Case::new(
                "10[11 or 12] against 10[11] or 10[12]",
                sheets::ONE,
                sheets::TWO,
            ),
            Case::new(
                "10[11] or 10[12] against 10[11 or 12]",
                sheets::TWO,
                sheets::ONE,
            ),
            Case::new("10[11 or 12] against 10[11]", sheets::ONE, sheets::HALF),
            Case::new(
                "texts or nothing, repeated, against texts",
                sheets::LOOSE,
                sheets::TEXTS,
            ),
            Case::new(
                "texts against texts or nothing, repeated",
                sheets::TEXTS,
                sheets::LOOSE,
            ),
            Case::new(
                "texts or nothing against one text, a buffer of 0",
                sheets::LOOSE,
                sheets::T,
            )
            .with_show(0),
            Case::new("10[text] or 11[12[13]] against N", sheets::MIXED, sheets::N),
        ],
    )?;
    let mixed = Case::new("10[text] or 11[12[13]] against N", sheets::MIXED, sheets::N);
    let less = Case::new("S1 against S2", sheets::S1, sheets::S2);
    let more = Case::new("S2 against S1", sheets::S2, sheets::S1);
    let one: Either<Length, Filling> = Either::One(Length);
    let other: Either<Length, Filling> = Either::Other(Filling);
    mixed.judge_by(rt, &Filling, &mut [blank((0, 0)); LIST])?;
    mixed.judge_by(rt, &Flat { only: 7 }, &mut [blank(0); LIST])?;
    less.judge_by(rt, &Flat { only: 7 }, &mut [blank(0); LIST])?;
    more.judge_by(rt, &one, &mut [blank(Either::One(0)); LIST])?;
    more.judge_by(rt, &other, &mut [blank(Either::One(0)); LIST])
}

/// Deep and long losses.
fn large_cases(rt: &HostRuntime) -> io::Result<()> {
    by_length(
        rt,
        &[
            Case::new("76 nested nodes", sheets::FOURS, sheets::NINETEEN),
            Case::new("65,528 bytes", sheets::TWICE13, sheets::N).with_show(SHOW),
            Case::new(
                "65,528 bytes, a buffer of 65,527",
                sheets::TWICE13,
                sheets::N,
            )
            .with_show(65527),
            Case::new("131,064 bytes", sheets::TWICE14, sheets::N).with_show(SHOW),
            Case::new("at the ceiling", sheets::TOWER, sheets::CHAIN).with_show(SHOW),
        ],
    )
}

fn main(rt: HostRuntime) -> io::Result<()> {
    first_cases(&rt)?;
    more_cases(&rt)?;
    large_cases(&rt)
}
