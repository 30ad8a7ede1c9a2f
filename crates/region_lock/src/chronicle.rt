// What a value under the lock has to be.

ghost use Rattle.std.specs.Prelude.{ℕ, List};

/// A value with a history: a list of entries, each of which names a number. Only contracts see them, so
/// nothing has to be kept for the lock.
pub trait Chronicle: Drop {
    type Entry;

    ghost entries: { Self → List Self.Entry };

    ghost number: { Self.Entry → ℕ };
}
