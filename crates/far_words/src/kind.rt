/// What a name stands for.
#[derive(Clone, Copy, PartialEq, Eq, Debug)]
pub enum Kind {
    /// Names under it.
    Dir,
    /// Bytes that grow at their end.
    File,
    /// Items, first in, first out.
    Queue,
    /// Values by keys.
    Table,
}
