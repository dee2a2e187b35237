//! A frame that several owners have, of which no byte is copied.
ghost use Rattle.std.specs.Prelude.{◌≡◌, IfOk};

use spb_types::NoMemory;
use std::marker::Model;
use std::rc::Rc;

/// The bytes of a frame, which all its owners share. Contracts see the list of the bytes.
#[derive(Debug, Drop)]
pub struct Frame {
    bytes: Rc<Vec<u8>>,
}

impl Model for Frame {
    ghost use Rattle.std.specs.Prelude.{List, ℕ};

    ghost Value = { List ℕ };

    ghost view = { λ frame. frame.bytes.value.items };
}

impl Frame {
    /// The frame of these bytes, which aren't copied.
    pub fn from_vec(bytes: Vec<u8>) -> Result<Self, NoMemory>
        ensures { IfOk result (λ frame. frame ≡ bytes.items) }
    {
        let bytes = Rc::new(*bytes.allocator(), bytes)?;
        Ok(Frame { bytes })
    }

    /// The same frame for one owner more. Only where a count of owners is full is there `NoMemory`.
    pub fn share(&self) -> Result<Self, NoMemory>
        ensures { IfOk result (λ frame. frame ≡ self.now) }
    {
        let bytes = self.bytes.clone()?;
        Ok(Frame { bytes })
    }

    /// The bytes of the frame.
    pub fn as_slice(&self) -> &[u8]
        ensures { result.now ≡ self.now }
    {
        self.bytes.as_slice()
    }
}
