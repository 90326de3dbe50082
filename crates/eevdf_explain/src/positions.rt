ghost use Rattle.std.specs.Prelude.{◌≡◌};
ghost use Rattle.eevdf_explain.specs.Places.{begins_character, position};

/// The line and the column, both from 1, of the place behind a text. A column counts characters.
#[tactic(auto, unfolding(crate::specs::Places::position))]
pub(crate) fn position(before: &[u8]) -> (usize, usize)
    ensures { result ≡ position before.now }
{
    let mut line = 1;
    let mut column = 1;
    let mut left = before;
    'bytes: while let [byte, after @ ..] = left {
        if *byte == b'\n' {
            line += 1;
            column = 1;
        } else if begins_character(*byte) {
            column += 1;
        }
        left = after;
    }
    (line, column)
}

/// Whether a byte of a text in UTF-8 begins a character, and doesn't go on with one.
pub fn begins_character(byte: u8) -> bool
    ensures { result ≡ begins_character byte }
{
    byte < 128 || byte >= 192
}
