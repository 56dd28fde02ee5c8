//! Tests of whole seasons in small memories.

#![tactic(auto)]

#[cfg(test)]
mod tests {
    use forest::Fault;
    use law::Declined;
    use measure::Length;
    use register::Register;
    use rows::{ReadSheet, Row};
    use sheet::sound::SoundSheet;
    use std::alloc::Global;
    use std::test::Fail;
    use survey::{First, Sort, Standings};

    // The empty forest; one text; any number of texts.
    const EMPTY: [u8; 8] = [0, 0, 0, 0, 7, 0, 0, 0];

    const TEXT: [u8; 8] = [1, 0, 0, 0, 7, 0, 0, 0];

    const TEXTS: [u8; 12] = [1, 0, 0, 0, 6, 0, 0, 0, 7, 1, 0, 0];

    // Whether a test goes on. The other crate of tests has such a function too: a library for one would be no plainer.
    fn check(holds: bool) -> Result<(), Fail> {
        if holds {
            Ok(())
        } else {
            Err(Fail::new("a check does not hold"))
        }
    }

    // By number, as lines tell refusals: so the numbers are tested too.
    fn tells(fault: Fault, number: u8, place: usize) -> Result<(), Fail> {
        check((fault.refusal.number(), fault.place) == (number, place))
    }

    fn new_register(heap: Global, rows: usize, bytes: usize) -> Result<Register, Fail> {
        Ok(Register::new(
            vec![in heap; Row::Empty; rows]?,
            vec![in heap; 0xee; bytes]?,
        ))
    }

    fn sound(body: &[u8]) -> Result<SoundSheet, Fail> {
        let mut sheet = SoundSheet::empty();
        sheet.check(&ReadSheet::read(body)?)?;
        Ok(sheet)
    }

    // Proposes the sheet, with a list of so many elements.
    fn propose(
        register: &mut Register,
        body: &[u8],
        sorts: usize,
    ) -> Result<Result<usize, Declined<u32>>, Fail> {
        let sheet = sound(body)?;
        // Written out: the library makes no blank elements, since it reads none.
        let mut list = [Sort {
            standings: Standings { old: 0, new: 0 },
            cost: 0u32,
            length: 0,
            first: First::Nothing,
            content: 0,
            rest: 0,
        }; 32];
        let mut show = [0; 4];
        let list = list.get_mut(..sorts).ok_or("the list is shorter")?;
        Ok(register.propose(&sheet, &Length, list, &mut show))
    }

    fn becomes(register: &mut Register, body: &[u8], edition: usize) -> Result<(), Fail> {
        let number = propose(register, body, 32)?
            .ok()
            .ok_or("the proposal was declined")?;
        check(number == edition)
    }

    fn declined(
        register: &mut Register,
        body: &[u8],
        sorts: usize,
        number: u8,
    ) -> Result<(), Fail> {
        match propose(register, body, sorts)? {
            Ok(_) => Err(Fail::new("the proposal was accepted")),
            Err(Declined::Refused(fault)) => tells(fault, number, 0),
            Err(Declined::Loses(_)) => check(number == 36),
        }
    }

    fn kept(register: &mut Register, body: &[u8], record: usize) -> Result<(), Fail> {
        check(register.file(body)? == record)
    }

    fn refused(register: &mut Register, body: &[u8], number: u8, place: usize) -> Result<(), Fail> {
        let fault = register.file(body).err().ok_or("the record was kept")?;
        tells(fault, number, place)
    }

    // Fetches into a buffer of so many bytes: the record, and the rest of the buffer as it was.
    fn fetched(
        register: &Register,
        number: usize,
        room: usize,
        body: &[u8],
        edition: usize,
    ) -> Result<(), Fail> {
        let mut buffer = [0xaa; 8];
        let front = buffer.get_mut(..room).ok_or("the buffer is shorter")?;
        check(register.fetch(number, front)? == (body.len(), edition))?;
        check(buffer.starts_with(body))?;
        check(buffer.iter().skip(body.len()).all(|&byte| byte == 0xaa))
    }

    fn unfetched(register: &Register, number: usize, room: usize, refusal: u8) -> Result<(), Fail> {
        let mut buffer = [0xaa; 8];
        let front = buffer.get_mut(..room).ok_or("the buffer is shorter")?;
        let fault = register
            .fetch(number, front)
            .err()
            .ok_or("a record was given")?;
        tells(fault, refusal, 0)?;
        check(buffer == [0xaa; 8])
    }

    #[test]
    fn no_memory(rt: HostRuntime) -> Result<(), Fail> {
        let mut register = new_register(rt.alloc(), 0, 0)?;
        refused(&mut register, &[], 31, 0)?;
        declined(&mut register, &EMPTY, 0, 20)?;
        declined(&mut register, &EMPTY, 32, 30)?;
        unfetched(&register, 0, 8, 34)?;
        unfetched(&register, 1, 8, 34)
    }

    // Sixteen editions, and rows left for one more.
    #[test]
    fn sixteen_editions(rt: HostRuntime) -> Result<(), Fail> {
        let mut register = new_register(rt.alloc(), 34, 0)?;
        for k in 1..=16 {
            becomes(&mut register, &EMPTY, k)?;
        }
        declined(&mut register, &EMPTY, 0, 20)?;
        declined(&mut register, &EMPTY, 32, 30)?;
        kept(&mut register, &[], 1)?;
        fetched(&register, 1, 0, &[], 16)
    }

    #[test]
    fn rows_run_out(rt: HostRuntime) -> Result<(), Fail> {
        let mut exact = new_register(rt.alloc(), 4, 0)?;
        becomes(&mut exact, &EMPTY, 1)?;
        becomes(&mut exact, &EMPTY, 2)?;
        declined(&mut exact, &EMPTY, 32, 30)?;
        let mut short = new_register(rt.alloc(), 3, 0)?;
        becomes(&mut short, &EMPTY, 1)?;
        declined(&mut short, &EMPTY, 32, 30)?;
        kept(&mut short, &[], 1)
    }

    // Empty records take no bytes, but count.
    #[test]
    fn many_records(rt: HostRuntime) -> Result<(), Fail> {
        let mut register = new_register(rt.alloc(), 2, 0)?;
        becomes(&mut register, &EMPTY, 1)?;
        for k in 1..=256 {
            kept(&mut register, &[], k)?;
        }
        refused(&mut register, &[], 33, 0)?;
        fetched(&register, 256, 3, &[], 1)?;
        unfetched(&register, 257, 8, 34)
    }

    #[test]
    fn bytes_run_out(rt: HostRuntime) -> Result<(), Fail> {
        let mut register = new_register(rt.alloc(), 3, 5)?;
        becomes(&mut register, &TEXTS, 1)?;
        kept(&mut register, &[3, 1, 7], 1)?;
        refused(&mut register, &[3, 1, 8], 33, 0)?;
        kept(&mut register, &[3, 0], 2)?;
        refused(&mut register, &[3, 0], 33, 0)?;
        kept(&mut register, &[], 3)?;
        fetched(&register, 1, 3, &[3, 1, 7], 1)?;
        fetched(&register, 2, 8, &[3, 0], 1)?;
        fetched(&register, 3, 0, &[], 1)
    }

    // Refusals between accepted calls leave what was accepted.
    #[test]
    fn refused_between(rt: HostRuntime) -> Result<(), Fail> {
        let mut register = new_register(rt.alloc(), 9, 8)?;
        refused(&mut register, &[], 31, 0)?;
        becomes(&mut register, &EMPTY, 1)?;
        kept(&mut register, &[], 1)?;
        refused(&mut register, &[3, 0], 32, 0)?;
        refused(&mut register, &[3, 0, 3], 4, 2)?;
        declined(&mut register, &TEXT, 32, 36)?;
        declined(&mut register, &TEXTS, 1, 21)?;
        becomes(&mut register, &TEXTS, 2)?;
        kept(&mut register, &[3, 1, 9, 3, 0], 2)?;
        declined(&mut register, &EMPTY, 32, 36)?;
        unfetched(&register, 0, 8, 34)?;
        unfetched(&register, 3, 8, 34)?;
        unfetched(&register, 2, 4, 35)?;
        fetched(&register, 2, 5, &[3, 1, 9, 3, 0], 2)?;
        fetched(&register, 1, 0, &[], 1)?;
        kept(&mut register, &[3, 1, 1], 3)?;
        fetched(&register, 2, 6, &[3, 1, 9, 3, 0], 2)
    }
}
