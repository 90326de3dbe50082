ghost use Rattle.std.specs.Prelude.{◌≡◌, ◌+◌, ◌≤◌, [], ◌++◌, length, decimal};
ghost use Rattle.std.specs.Fmt.{signed_decimal};
ghost use Rattle.eevdf_report.specs.BlockText.{block_room};

use itoa::write_digits;
use std::marker::Model;

/// The text of a block of lines, which is written from its end to its beginning: a number's digits come in this order,
/// so they are written where they stay.
///
/// A block is pushed onto a vector as a whole, so that the vector is seldom asked whether it has room.
#[derive(Drop)]
pub(crate) struct BlockText {
    bytes: [u8; BlockText::ROOM],
    start: usize,
}

impl Model for BlockText {
    ghost use Rattle.std.specs.Prelude.{ℕ, List, ◌≤◌, drop};
    ghost use Rattle.eevdf_report.specs.BlockText.{block_room};

    ghost Value = { List ℕ };

    ghost view = { λ t. drop t.start t.bytes };

    ghost invariant = { λ t. t.start ≤ block_room };
}

impl BlockText {
    /// How many lines a block has at most.
    pub(crate) const LINES: usize = 27;

    /// As many bytes as so many lines of the history may have, each of 112 at most.
    const ROOM: usize = BlockText::LINES * 112;

    pub(crate) fn new() -> BlockText
        ensures { result ≡ [] }
    {
        BlockText {
            bytes: [0; BlockText::ROOM],
            start: BlockText::ROOM,
        }
    }

    pub(crate) fn clear(&mut self)
        ensures { self.new ≡ [] }
    {
        self.start = BlockText::ROOM;
    }

    pub(crate) fn as_bytes(&self) -> &[u8]
        ensures { result.now ≡ self.now }
    {
        &self.bytes[self.start..]
    }

    /// Writes a word before the text.
    #[inline(always)]
    pub(crate) fn prepend<const N: usize>(&mut self, word: &[u8; N])
        requires { N + length self.old ≤ block_room }
        ensures text { self.new ≡ word.now ++ self.old }
        ensures len { length self.new ≡ N + length self.old }
    {
        let end = self.start;
        self.start -= N;
        set_chunk(&mut self.bytes[self.start..end], word);
    }

    /// Writes a number before the text, in decimal.
    #[inline]
    pub(crate) fn prepend_number(&mut self, number: u64)
        requires { 20 + length self.old ≤ block_room }
        ensures text { self.new ≡ decimal number ++ self.old }
        ensures len { length self.new ≤ 20 + length self.old }
    {
        self.start = write_digits(number, &mut self.bytes, self.start);
    }

    /// Writes a number before the text, in decimal, a negative one with `-` before it.
    #[inline]
    pub(crate) fn prepend_signed(&mut self, signed: i64)
        requires { 21 + length self.old ≤ block_room }
        ensures text { self.new ≡ signed_decimal signed ++ self.old }
        ensures len { length self.new ≤ 21 + length self.old }
    {
        self.prepend_number(signed.unsigned_abs());
        if signed < 0 {
            self.prepend(b"-");
        }
    }
}

/// Sets all of the bytes. As the word is an array, its length is known where this is compiled, and no loop is left.
#[inline(always)]
fn set_chunk<const N: usize>(bytes: &mut [u8], word: &[u8; N])
    requires { length bytes.old ≡ N }
    ensures { bytes.new ≡ word.now }
{
    match bytes.as_mut_array::<N>() {
        Some(place) => *place = *word,
        None => unreachable!(),
    }
}
