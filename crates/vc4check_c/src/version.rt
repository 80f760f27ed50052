//! The library's version.
ghost use Rattle.std.specs.Prelude.{◌≡◌};

/// The version of this interface. It rises where a status, a struct or a call changes.
const VERSION: u32 = 6;

/// The version of this interface.
#[unsafe(no_mangle)]
pub extern "C" fn vc4check_version() -> u32
    ensures { result ≡ 6 }
{
    VERSION
}
