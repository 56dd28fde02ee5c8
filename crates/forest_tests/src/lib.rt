//! Tests of reading: the worked examples, each refusal at each place that it can have, damaged bodies.

#![tactic(auto)]

ghost use Rattle.std.specs.Prelude.{◌≤◌};

#[cfg(test)]
mod tests {
    use forest::{Event, Fault, Record, Refusal};
    use std::test::Fail;

    // Whether a test goes on. The other crate of tests has such a function too: a library for one would be no plainer.
    fn check(holds: bool) -> Result<(), Fail> {
        holds
            .then_some(())
            .ok_or_else(|| Fail::new("a check does not hold"))
    }

    // The body is refused, at this place.
    fn refused(body: &[u8], refusal: Refusal, place: usize) -> Result<(), Fail> {
        check(Record::read(body) == Err(Fault { refusal, place }))
    }

    // The body is read, and hands out this many events.
    fn read(body: &[u8], count: usize) -> Result<(), Fail> {
        check(Record::read(body)?.events().count() == count)
    }

    #[test]
    fn numbers() -> Result<(), Fail> {
        check(Refusal::RecordTooLong.number() == 3)?;
        check(Refusal::TreeCutShort.number() == 4)?;
        check(Refusal::NoTree.number() == 5)?;
        check(Refusal::LabelZero.number() == 6)?;
        check(Refusal::Unbalanced.number() == 7)?;
        check(Refusal::NestedTooDeep.number() == 8)
    }

    #[test]
    fn bodies_that_are_records() -> Result<(), Fail> {
        check(Record::empty().events().count() == 0)?;
        read(&[], 0)?;
        read(&[0x03, 0x00], 1)?;
        read(&[0x03, 0x00, 0x03, 0x00], 2)?;
        read(&[0x03, 0x01, 0x02], 1)?;
        read(&[0x01, 0x00, 0x01, 0x02], 2)?;
        read(&[0x01, 0x00, 0x0b, 0x02], 2)?;
        read(&[0x01, 0xff, 0xff, 0x02, 0x01, 0x01, 0x00, 0x02], 4)?;
        read(
            &[
                0x01, 0x00, 0x0a, 0x01, 0x00, 0x0b, 0x03, 0x01, 0x4e, 0x02, 0x02,
            ],
            5,
        )?;
        read(
            &[
                0x01, 0x00, 0x0a, 0x01, 0x00, 0x0b, 0x03, 0x00, 0x02, 0x01, 0x00, 0x0c, 0x03, 0x00,
                0x02, 0x02,
            ],
            8,
        )
    }

    #[test]
    fn cut_short() -> Result<(), Fail> {
        refused(&[0x01], Refusal::TreeCutShort, 0)?;
        refused(&[0x01, 0x00], Refusal::TreeCutShort, 0)?;
        refused(&[0x01, 0x05], Refusal::TreeCutShort, 0)?;
        refused(&[0x03], Refusal::TreeCutShort, 0)?;
        refused(&[0x03, 0x01], Refusal::TreeCutShort, 0)?;
        refused(&[0x03, 0x02, 0x41], Refusal::TreeCutShort, 0)?;
        refused(&[0x03, 0x00, 0x03, 0x01], Refusal::TreeCutShort, 2)?;
        refused(&[0x01, 0x00, 0x01, 0x01, 0x00], Refusal::TreeCutShort, 3)?;
        refused(
            &[0x01, 0x00, 0x01, 0x03, 0xff, 0x02],
            Refusal::TreeCutShort,
            3,
        )
    }

    #[test]
    fn no_mark() -> Result<(), Fail> {
        refused(&[0x00], Refusal::NoTree, 0)?;
        refused(&[0x04, 0x00], Refusal::NoTree, 0)?;
        refused(&[0x03, 0x00, 0xff], Refusal::NoTree, 2)?;
        refused(&[0x01, 0x00, 0x01, 0x00], Refusal::NoTree, 3)?;
        refused(&[0x01, 0x00, 0x01, 0x02, 0x10], Refusal::NoTree, 4)
    }

    #[test]
    fn label_zero() -> Result<(), Fail> {
        refused(&[0x01, 0x00, 0x00], Refusal::LabelZero, 0)?;
        refused(&[0x01, 0x00, 0x00, 0x02], Refusal::LabelZero, 0)?;
        refused(&[0x03, 0x00, 0x01, 0x00, 0x00, 0x02], Refusal::LabelZero, 2)?;
        refused(
            &[0x01, 0x00, 0x01, 0x01, 0x00, 0x00, 0x02, 0x02],
            Refusal::LabelZero,
            3,
        )
    }

    #[test]
    fn closings() -> Result<(), Fail> {
        refused(&[0x02], Refusal::Unbalanced, 0)?;
        refused(&[0x03, 0x00, 0x02], Refusal::Unbalanced, 2)?;
        refused(&[0x01, 0x00, 0x01, 0x02, 0x02], Refusal::Unbalanced, 4)?;
        refused(&[0x01, 0x00, 0x01], Refusal::Unbalanced, 3)?;
        refused(&[0x01, 0x00, 0x01, 0x03, 0x00], Refusal::Unbalanced, 5)?;
        refused(
            &[0x01, 0x00, 0x01, 0x01, 0x00, 0x02, 0x02],
            Refusal::Unbalanced,
            7,
        )
    }

    // `deep` nodes one inside the other, closed again.
    fn nest(body: &mut [u8; 260], deep: usize)
        requires { deep ≤ 65 }
    {
        let (openings, rest) = body.split_at_mut(3 * deep);
        for opening in openings.chunks_exact_mut(3) {
            opening.copy_from_slice(&[0x01, 0x00, 0x07]);
        }
        rest[..deep].fill(0x02);
    }

    #[test]
    fn nesting() -> Result<(), Fail> {
        let mut body = [0; 260];
        nest(&mut body, 64);
        read(&body[0..256], 128)?;
        refused(&body[0..255], Refusal::Unbalanced, 255)?;
        nest(&mut body, 65);
        refused(&body[0..260], Refusal::NestedTooDeep, 192)?;
        refused(&body[0..195], Refusal::NestedTooDeep, 192)?;
        refused(&body[0..194], Refusal::TreeCutShort, 192)?;
        refused(&body[0..193], Refusal::TreeCutShort, 192)?;
        refused(&body[0..192], Refusal::Unbalanced, 192)?;
        body[194] = 0x00;
        refused(&body[0..260], Refusal::LabelZero, 192)
    }

    // Empty texts side by side.
    fn fill(body: &mut [u8; 4096]) {
        for mark in body.iter_mut().step_by(2) {
            *mark = 0x03;
        }
    }

    #[test]
    fn length() -> Result<(), Fail> {
        let body = [0x03; 4097];
        refused(&body, Refusal::RecordTooLong, 0)?;
        let mut texts = [0x00; 4096];
        fill(&mut texts);
        read(&texts, 2048)?;
        refused(&texts[0..4095], Refusal::TreeCutShort, 4094)
    }

    #[test]
    fn events_in_order() -> Result<(), Fail> {
        let body = [0x01, 0x01, 0x0a, 0x03, 0x02, 0x41, 0x42, 0x02];
        let mut events = Record::read(&body)?.events();
        check(events.next() == Some(Event::Opening { label: 266 }))?;
        let text = Event::Text {
            bytes: &[0x41, 0x42],
            offset: 5,
        };
        check(events.next() == Some(text))?;
        check(events.next() == Some(Event::Closing))?;
        check(events.next().is_none())
    }
}
