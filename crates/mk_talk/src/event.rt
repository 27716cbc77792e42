// What a talk tells.
use mk_outside::Bytes;

/// A piece was read or put, or that failed.
#[derive(Debug, Drop)]
pub enum Event {
    /// This piece was read, which is empty at the end of the input.
    Got(Bytes),
    /// A read failed.
    NotGot,
    /// This piece was put.
    Put(Bytes),
    /// A put failed, and this part of its piece was put.
    PutPart(Bytes),
}
