//! What an item brings.

/// A value that is made of an item's number, and read when it is handed over.
pub trait Payload: Drop + Send {
    fn of(item: u32) -> Self;

    fn read(&self) -> u64;
}

/// 8 bytes.
#[derive(Clone, Copy, Drop)]
pub struct Word {
    word: u64,
}

impl Payload for Word {
    fn of(item: u32) -> Word {
        Word {
            word: u64::from(item),
        }
    }

    fn read(&self) -> u64 {
        self.word
    }
}

/// 64 bytes.
#[derive(Clone, Copy, Drop)]
pub struct Wide {
    words: [u64; 8],
}

impl Payload for Wide {
    fn of(item: u32) -> Wide {
        Wide {
            words: [u64::from(item); 8],
        }
    }

    fn read(&self) -> u64 {
        self.words[0].wrapping_add(self.words[7])
    }
}
