/// A sum of words that depends on their order.
#[derive(Clone, Copy)]
pub struct Checksum {
    sum: u64,
}

impl Checksum {
    pub fn new() -> Checksum {
        Checksum { sum: 0 }
    }

    #[inline(always)]
    pub fn add(&mut self, word: u32) {
        self.sum = self.sum.wrapping_mul(31).wrapping_add(u64::from(word));
    }

    pub fn sum(&self) -> u64 {
        self.sum
    }
}
