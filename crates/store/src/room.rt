// How much a store holds, and whether there is room for more.
ghost use Rattle.std.specs.Prelude.{◌≡◌, ◌↔◌, length};
ghost use Rattle.std.specs.Bool.{IsTrue};
ghost use Rattle.store.specs.Stores.{lists, Takes};

use super::Store;

impl<T: Copy, const N: usize> Store<T, N> {
    /// How many lists there are.
    pub fn count(&self) -> usize
        ensures { result ≡ length (lists self.now) }
    {
        self.count
    }

    /// Is there room for one more list of `n` items?
    pub fn takes(&self, n: usize) -> bool
        ensures { IsTrue result ↔ Takes self.now n }
    {
        let end = self.limit.min(self.memory.len());
        n <= end - self.used && self.count < N
    }
}
