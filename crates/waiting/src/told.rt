// What is told of a waiting line.

// How many users stand in the line, the first counted, and whether the last one waits behind one who stands in it.
#[derive(Clone, Copy, Debug, PartialEq, Eq)]
pub struct WaitingLine {
    pub length: usize,
    pub ring: bool,
}
