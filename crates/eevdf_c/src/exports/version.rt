//! Which library this is.

ghost use Rattle.std.specs.Prelude.{◌≡◌};
ghost use Rattle.eevdf_c.specs.Codes.{version};

/// 0.8.0, as major * 1000000 + minor * 1000 + patch.
const VERSION: i64 = 8_000;

/// The version of the library, as `EEVDF_VERSION` of its header has it.
#[unsafe(no_mangle)]
pub extern "C" fn eevdf_version() -> i64
    ensures { result ≡ version }
{
    VERSION
}
