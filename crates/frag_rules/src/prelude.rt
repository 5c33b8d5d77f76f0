ghost use Rattle.std.specs.Prelude.{◌≡◌, not};
ghost use Rattle.frag_sem.specs.CrateTyping.{is_free};
ghost use Rattle.frag_sem.specs.PreludeCalls.{is_prelude_name};

use frag_tree::Version;

/// Whether the prelude of version 1 takes the name.
fn is_taken_in_one(name: &[u8]) -> bool
    ensures { result ≡ is_prelude_name Version.One name.now }
{
    name != b"at_bit".as_slice() && rust_names::is_prelude_name(name)
}

/// Whether the prelude of version 2 takes the name.
fn is_taken_in_two(name: &[u8]) -> bool
    ensures { result ≡ is_prelude_name Version.Two name.now }
{
    rust_names::is_prelude_name(name)
}

/// Whether the prelude of a version leaves the name to others.
pub(crate) fn is_free(version: Version, name: &[u8]) -> bool
    ensures { result ≡ is_free version name.now }
{
    match version {
        Version::One => !is_taken_in_one(name),
        Version::Two => !is_taken_in_two(name),
    }
}
