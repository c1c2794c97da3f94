ghost use Rattle.std.specs.Prelude.{◌≡◌};

/// A line of a book, which goes by its key. A search goes by whether keys are equal; the largest key by the order of their type,
/// which `Ord` says is total.
pub trait Line: Copy {
    type Key: Ord + Copy;

    // The key of a line.
    ghost keyed: { Self → Self.Key };

    // The line's key.
    fn key(&self) -> Self::Key
        ensures { result ≡ keyed self.now };
}
