// Which library this is: a program that was compiled with another header is told so before it lends any memory.
ghost use Rattle.std.specs.Prelude.{◌≡◌};
ghost use Rattle.wurzsige.specs.Told.{version};

// 65,536 times the first number of the version, 256 times the second, and the third. The header has the same number, which is raised whenever a
// declaration, a size or a meaning changes. Constant time.
pub fn wurzsige_version() -> u32
    ensures { result ≡ version }
{
    512
}
