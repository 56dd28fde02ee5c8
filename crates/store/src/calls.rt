// The calls of a store.
ghost use Rattle.std.specs.Prelude.{◌≡◌, ◌+◌, ◌≤◌, [], ◌++◌, length, take, drop};
ghost use Rattle.store.specs.Stores.{lists, free, Takes, Appended, Appends, Found};

use super::{Full, Span, Store};

impl<T: Copy, const N: usize> Store<T, N> {
    /// An empty store over the memory, of which at most `limit` items are used.
    pub fn new(memory: Vec<T>, limit: usize) -> Store<T, N>
        ensures lists { lists result ≡ [] }
        ensures free { free result ≡ memory.items }
        ensures limit { result.limit ≡ limit }
    {
        Store {
            memory,
            limit,
            spans: [Span { start: 0, end: 0 }; N],
            count: 0,
            used: 0,
        }
    }

    /// One more list, where there is room for it. Tells its index.
    pub fn append(&mut self, body: &[T]) -> Result<usize, Full>
        ensures { Appends self.old body.now result self.new }
    {
        if !self.takes(body.len()) {
            return Err(Full);
        }
        Ok(self.push(body))
    }

    /// One more list, for which there is room. Tells its index.
    pub fn push(&mut self, body: &[T]) -> usize
        requires { Takes self.old (length body.now) }
        ensures index { result ≡ length (lists self.old) }
        ensures appended { Appended self.old body.now self.new }
    {
        let index = self.count;
        let start = self.used;
        let end = start + body.len();
        self.memory[start..end].copy_from_slice(body);
        self.spans[index] = Span { start, end };
        self.count = index + 1;
        self.used = end;
        index
    }

    /// The list of an index, where there is one.
    pub fn get(&self, index: usize) -> Option<&[T]>
        ensures { Found (lists self.now) index result }
    {
        let span = self.spans[..self.count].get(index)?;
        Some(&self.memory[span.start..span.end])
    }
}
