// The messages between mat and pad, and what they carry.

// A message in the air. `life` is the ticks that are left to it.
#[derive(Clone, Copy, Debug, PartialEq, Eq)]
pub struct Message<B> {
    pub body: B,
    pub life: u16,
}

// A row under its number (a data packet).
#[derive(Clone, Copy, Debug, PartialEq, Eq)]
pub struct Data {
    pub number: usize,
    pub row: [u16; 16],
}

// The numbers from first to last (a block acknowledgment).
#[derive(Clone, Copy, Debug, PartialEq, Eq)]
pub struct Reply {
    pub first: usize,
    pub last: usize,
}
