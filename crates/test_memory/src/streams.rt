//! A stream that takes bytes one by one, and no memory.
use std::io::{Result, Write};

/// The first bytes that were written, and how many were.
#[derive(Drop)]
pub struct Page {
    bytes: [u8; 256],
    len: usize,
}

impl Page {
    pub fn new() -> Page {
        Page {
            bytes: [0; 256],
            len: 0,
        }
    }

    /// Whether these bytes were written, and no other.
    pub fn holds(&self, bytes: &[u8]) -> bool {
        match self.bytes.get(..self.len) {
            Some(written) => written == bytes,
            None => false,
        }
    }
}

impl Write for Page {
    fn write(&mut self, bytes: &[u8]) -> Result<usize> {
        let Some(byte) = bytes.first() else {
            return Ok(0);
        };
        if let Some(place) = self.bytes.get_mut(self.len) {
            *place = *byte;
        }
        self.len = self.len.saturating_add(1);
        Ok(1)
    }

    fn flush(&mut self) -> Result<()> {
        Ok(())
    }
}
