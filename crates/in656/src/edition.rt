// The library's version, and which programs may use it.
ghost use Rattle.std.specs.Prelude.{◌≡◌, cond};
ghost use Rattle.in656.specs.Edition.{version, same_edition};

// The edition, which the soname carries.
const MAJOR: u32 = 1;

// Raised where calls are added, or a field is filled that was 0 before.
const MINOR: u32 = 0;

// Raised by any other change.
const PATCH: u32 = 0;

#[unsafe(no_mangle)]
pub extern "C" fn in656_version() -> u32
    ensures { result ≡ version }
{
    MAJOR * 65536 + MINOR * 256 + PATCH
}

#[tactic(auto, unfolding(crate::specs::Edition::same_edition))]
#[unsafe(no_mangle)]
pub extern "C" fn in656_same_edition(version: u32) -> u32
    ensures { result ≡ cond (same_edition version) 1 0 }
{
    u32::from(version / 65536 == MAJOR && version % 65536 / 256 <= MINOR)
}
