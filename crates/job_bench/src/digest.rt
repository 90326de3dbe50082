/// A sum of words that depends on their order.
#[derive(Clone, Copy)]
pub struct Digest {
    sum: u64,
}

impl Digest {
    pub fn new() -> Digest {
        Digest { sum: 0 }
    }

    pub fn sum(&self) -> u64 {
        self.sum
    }

    /// Takes in a word.
    #[inline(always)]
    pub fn add(&mut self, word: u64) {
        let mixed = (self.sum ^ word).wrapping_mul(0x9e37_79b9_7f4a_7c15);
        self.sum = mixed ^ (mixed >> 29);
    }

    /// Takes in a number that may be below 0.
    #[inline(always)]
    pub fn add_signed(&mut self, number: i64) {
        self.add(number.unsigned_abs());
        self.add(u64::from(number < 0));
    }

    /// Takes in words, one after the other.
    #[inline(always)]
    pub fn add_words(&mut self, words: &[u64]) {
        for word in words {
            self.add(*word);
        }
    }

    /// Takes in bytes, eight at a time.
    pub fn add_bytes(&mut self, bytes: &[u8]) {
        self.add(bytes.len() as u64);
        let (words, rest) = bytes.as_chunks::<8>();
        for word in words {
            self.add(u64::from_le_bytes(*word));
        }
        for byte in rest {
            self.add(u64::from(*byte));
        }
    }
}
