// Which library this is, for C.
ghost use Rattle.std.specs.Prelude.{◌≡◌};
ghost use Rattle.wurzsige.specs.Told.{version};

// 65,536 times the first number of the version, 256 times the second, and the third. The header has the same number, which is raised whenever a
// declaration, a size or a meaning changes. Constant time.
#[unsafe(no_mangle)]
pub extern "C" fn wurzsige_version() -> u32
    ensures { result ≡ version }
{
    wurzsige::wurzsige_version()
}
