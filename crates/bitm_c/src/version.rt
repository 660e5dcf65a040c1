//! The version of the library.
ghost use Rattle.std.specs.Prelude.{◌≡◌};

/// The version as one number: 10000 * major + 100 * minor + patch, as `BITM_VERSION_NUMBER` of the header has it.
const VERSION_NUMBER: u32 = 300;

/// The version of the library, which a language binding compares with the version of the header that it was compiled
/// with.
#[unsafe(no_mangle)]
pub extern "C" fn bitm_version() -> u32
    ensures { result ≡ 300 }
{
    VERSION_NUMBER
}
