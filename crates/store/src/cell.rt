use base::Stamp;

/// A cell is one value, -32,768 to 32,767, with the stamps of its last writer and its last reader, 0 to TOP.
#[derive(Clone, Copy, PartialEq, Eq, Debug)]
pub struct Cell {
    pub value: i16,
    pub write: Stamp,
    pub read: Stamp,
}
