ghost use Rattle.std.specs.Prelude.{◌≡◌, ◌++◌, OnOk, OnErr, decimal};
ghost use Rattle.std.specs.Fmt.{signed_decimal};
ghost use Rattle.eevdf_report.specs.Text.{task_text};

use itoa::Buffer;
use std::alloc::AllocError;

/// Writes a number in decimal. When out of memory the text is as it was.
pub(crate) fn push_number(text: &mut Vec<u8>, number: u64) -> Result<(), AllocError>
    ensures written { OnOk result (text.new.items ≡ text.old.items ++ decimal number) }
    ensures kept { OnErr result (text.new.items ≡ text.old.items) }
{
    text.extend_from_slice(Buffer::new().format(number).as_bytes())
}

/// Writes a number in decimal, a negative one with `-` before it.
pub(crate) fn push_signed(text: &mut Vec<u8>, signed: i64) -> Result<(), AllocError>
    ensures { OnOk result (text.new.items ≡ text.old.items ++ signed_decimal signed) }
{
    text.extend_from_slice(Buffer::new().format(signed).as_bytes())
}

/// The same of a number of up to 128 bits.
pub(crate) fn push_wide(text: &mut Vec<u8>, signed: i128) -> Result<(), AllocError>
    ensures { OnOk result (text.new.items ≡ text.old.items ++ signed_decimal signed) }
{
    text.extend_from_slice(Buffer::new().format(signed).as_bytes())
}

/// Writes a task's number with its noun. When out of memory the text is as it was.
#[tactic(auto, unfolding(crate::specs::Text::task_text))]
pub(crate) fn push_task(text: &mut Vec<u8>, task: u64) -> Result<(), AllocError>
    ensures written { OnOk result (text.new.items ≡ text.old.items ++ task_text task) }
    ensures kept { OnErr result (text.new.items ≡ text.old.items) }
{
    let before = text.len();
    text.extend_from_slice(b"task ")?;
    let result = push_number(text, task);
    if result.is_err() {
        text.truncate(before);
    }
    result
}
