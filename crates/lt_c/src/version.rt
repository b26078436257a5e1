//! Which version of the library is this?
ghost use Rattle.std.specs.Prelude.{◌≡◌};

/// The version: its first number times 1,000,000, its second one times 1,000, and its third one. `LT_VERSION` of
/// `bindings/c/locktable.h` is the same number, and `bindings/rust/Cargo.toml` has the version in words.
pub const VERSION: u32 = 1_000;

/// The version of the library.
#[unsafe(no_mangle)]
pub extern "C" fn lt_version() -> u32
    ensures { result ≡ VERSION }
{
    VERSION
}
