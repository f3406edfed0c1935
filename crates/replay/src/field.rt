// A request's line, and the byte strings of its fields.
ghost use Rattle.std.specs.Prelude.{◌≤◌, length};
ghost use Rattle.replay.specs.Rooms.{Fits};

use super::{BYTES, LINE};

// A line that is no longer than the longest.
#[derive(Clone, Copy)]
pub struct Request<'a> {
    line: &'a [u8],
    ghost short: { length line.now ≤ 65536 },
}

impl<'a> Request<'a> {
    // The request that a line is, if it is short enough.
    pub fn admit(line: &'a [u8]) -> Option<Self> {
        if LINE < line.len() {
            return None;
        }
        Some(Request { line })
    }

    // How many pieces its line has: its word, and its fields.
    pub fn count_pieces(self) -> usize {
        protocol::count_pieces(self.line)
    }

    // Its word.
    pub fn word(self) -> &'a [u8] {
        protocol::piece(self.line, 0)
    }

    // Puts the byte string of the field by its number into `field`; None where it is no byte string.
    pub fn read(self, number: usize, field: &mut Field) -> Option<()> {
        field.len = protocol::decode(protocol::piece(self.line, number), &mut field.room)?;
        Some(())
    }
}

// A byte string, in room for the longest. No `line::Line`, which grows by one byte: this is decoded at once, and lent as memory to write.
#[derive(Drop)]
pub struct Field {
    pub room: [u8; BYTES],
    pub len: usize,
    ghost fits: { len ≤ 32768 },
}

impl Field {
    pub fn new() -> Field {
        Field {
            room: [0; BYTES],
            len: 0,
        }
    }

    // The byte string.
    pub fn bytes(&self) -> &[u8]
        ensures { Fits result.now }
    {
        &self.room[..self.len]
    }
}
