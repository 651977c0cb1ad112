ghost use Rattle.std.specs.Prelude.{◌≡◌, ℕ, List, length};

/// A value that keeps its history: a list of entries that grows at its end. Some of the entries may count, and
/// then they use up what a pass may make. Others, as marks that a value keeps beside its entries, don't.
pub trait Storied {
    type Entry;

    /// The entries, oldest first.
    ghost history: { Self → List Self.Entry };

    /// How many of them count.
    ghost count: { Self → ℕ };

    /// How many entries the history has. Takes no memory.
    fn entries(&self) -> u64
        ensures { result ≡ length (history self.now) };

    /// How many of them count. Takes no memory.
    fn counted(&self) -> u64
        ensures { result ≡ count self.now };
}
