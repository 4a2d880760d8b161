//! What a lock holds.
ghost use Rattle.std.specs.Prelude.{List};

/// A value that is of a task, and has a log that only grows while threads share it.
pub trait Locked: Drop {
    /// What the value is of.
    type Task;

    /// What its log is made of.
    type Item;

    /// The task that the value is of.
    ghost task: { Self → Self.Task };

    /// The log that the value has.
    ghost log: { Self → List Self.Item };
}
