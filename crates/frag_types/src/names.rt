ghost use Rattle.std.specs.Prelude.{◌≡◌, option_map};
ghost use Rattle.std.specs.Str.{bytes_eq};
ghost use Rattle.frag_sem.specs.ScriptTyping.{name_of, reader_name, writer_name};
ghost use Rattle.frag_sem.specs.TextSurface.{register_calls};
ghost use Rattle.frag_types.specs.Telling.{names_and, names_in};

use frag_index::Unit;
use frag_rules::Named;

/// The names that a value may use: those that are bound, and `r` within a `modify` that names what it read.
#[derive(Clone, Copy)]
pub(crate) struct Names<'n, 's, 'i, 'a> {
    pub bound: &'n Named<'s, &'i Unit<'a>>,
    pub read: Option<&'i Unit<'a>>,
}

/// Whether the name is that of the reader of a `modify`.
pub(crate) fn is_reader(name: &[u8]) -> bool
    ensures { result ≡ bytes_eq name.now reader_name }
{
    name == b"r".as_slice()
}

/// Whether the name is that of the writer of a closure.
pub(crate) fn is_writer(name: &[u8]) -> bool
    ensures { result ≡ bytes_eq name.now writer_name }
{
    name == b"w".as_slice()
}

/// The register that is bound to a name.
fn bound_to<'i, 'a>(bound: &Named<'_, &'i Unit<'a>>, name: &[u8]) -> Option<&'i Unit<'a>>
    ensures { option_map (λ unit. register_calls unit.now) result ≡ name_of (names_in bound.now) name.now }
{
    bound.get(name).copied()
}

impl<'n, 's, 'i, 'a> Names<'n, 's, 'i, 'a> {
    /// The register of which the name is a reader.
    pub(crate) fn get(&self, name: &[u8]) -> Option<&'i Unit<'a>>
        ensures { option_map (λ unit. register_calls unit.now) result ≡ name_of (names_and self.now.read self.now.bound.now) name.now }
    {
        match self.read {
            Some(unit) => {
                if is_reader(name) {
                    Some(unit)
                } else {
                    bound_to(self.bound, name)
                }
            }
            None => bound_to(self.bound, name),
        }
    }
}
