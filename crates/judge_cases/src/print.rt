// Printing what a judgement tells.
use crate::UNTOUCHED;
use forest::Fault;
use judge::{Loss, Verdict};
use measure::{Either, Filling, Flat, Length, Measure};
use std::io;

/// A measure, and how a loss by it is printed.
pub trait Printed: Measure {
    /// What follows a case's name.
    fn name(&self) -> &str;

    fn print_loss(&self, rt: &HostRuntime, loss: Loss<Self::Cost>, show: &[u8]) -> io::Result<()>;
}

impl Printed for Length {
    fn name(&self) -> &str {
        ""
    }

    fn print_loss(&self, rt: &HostRuntime, loss: Loss<u32>, show: &[u8]) -> io::Result<()> {
        let cost = loss.cost;
        print!(rt; "lost, cost {cost},")?;
        print_shown(rt, loss.length, loss.shown, show)
    }
}

impl Printed for Filling {
    fn name(&self) -> &str {
        ", by filling"
    }

    fn print_loss(&self, rt: &HostRuntime, loss: Loss<(u32, u32)>, show: &[u8]) -> io::Result<()> {
        let (texts, bytes) = loss.cost;
        print!(rt; "lost, cost ({texts}, {bytes}),")?;
        print_shown(rt, loss.length, loss.shown, show)
    }
}

/// By one cost for everything: that something is lost, and not what.
impl Printed for Flat {
    fn name(&self) -> &str {
        ", by one cost for everything"
    }

    fn print_loss(&self, rt: &HostRuntime, loss: Loss<u32>, show: &[u8]) -> io::Result<()> {
        let cost = loss.cost;
        println!(rt; "lost, cost {cost}")
    }
}

impl Printed for Either<Length, Filling> {
    fn name(&self) -> &str {
        ", by one of two"
    }

    fn print_loss(
        &self,
        rt: &HostRuntime,
        loss: Loss<Either<u32, (u32, u32)>>,
        show: &[u8],
    ) -> io::Result<()> {
        let length = loss.length;
        let shown = loss.shown;
        match loss.cost {
            Either::One(cost) => Length.print_loss(
                rt,
                Loss {
                    cost,
                    length,
                    shown,
                },
                show,
            ),
            Either::Other(cost) => Filling.print_loss(
                rt,
                Loss {
                    cost,
                    length,
                    shown,
                },
                show,
            ),
        }
    }
}

/// Prints the rest of a case's line.
pub fn print_judged<M: Printed>(
    rt: &HostRuntime,
    measure: &M,
    judged: Result<Verdict<M::Cost>, Fault>,
    show: &[u8],
) -> io::Result<()> {
    match judged {
        Ok(Verdict::AllAdmitted) => println!(rt; "all admitted"),
        Ok(Verdict::Lost(loss)) => measure.print_loss(rt, loss, show),
        Err(fault) => println!(rt; "refused {fault}"),
    }
}

// How many bytes there are up to the last that changed.
fn touched(show: &[u8]) -> usize {
    show.iter()
        .rposition(|b| *b != UNTOUCHED)
        .map_or(0, |last| last + 1)
}

// Prints the length of a loss, and its bytes if they are shown and few.
fn print_shown(rt: &HostRuntime, length: u32, shown: bool, show: &[u8]) -> io::Result<()> {
    print!(rt; " length {length}")?;
    let last = touched(show);
    if !shown {
        println!(rt; ", not shown, {last} bytes written")
    } else if length > 400 {
        println!(rt; ", shown, {last} bytes written")
    } else {
        print!(rt; ", {last} bytes written: ")?;
        // By `as`: there is no `From` between the two.
        for b in show.iter().take(length as usize) {
            print!(rt; "{b:02X}")?;
        }
        println!(rt; "")
    }
}
