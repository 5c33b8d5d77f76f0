ghost use Rattle.std.specs.Prelude.{◌≡◌};
ghost use Rattle.std.specs.Map.{lookup};
ghost use Rattle.std.specs.Str.{bytes_eq};
ghost use Rattle.frag_sem.specs.ScriptTyping.{reader_name};
ghost use Rattle.frag_eval.specs.Lowering.{finds};

use frag_index::Unit;
use frag_rules::Named;

/// A word that was read: the register that it was read from, and its number among the words.
#[derive(Clone, Copy)]
pub(crate) struct Reading<'i, 'a> {
    pub unit: &'i Unit<'a>,
    pub read: usize,
}

/// What names are bound to.
pub(crate) type Bound<'s, 'i, 'a> = Named<'s, Reading<'i, 'a>>;

/// The names that a value may use: those that are bound, and `r` within a `modify` that names what it read.
#[derive(Clone, Copy)]
pub(crate) struct Names<'n, 's, 'i, 'a> {
    pub bound: &'n Bound<'s, 'i, 'a>,
    pub reader: Option<Reading<'i, 'a>>,
}

/// Whether the name is that of the reader of a `modify`.
fn is_reader(name: &[u8]) -> bool
    ensures { result ≡ bytes_eq name.now reader_name }
{
    name == b"r".as_slice()
}

/// What a name is bound to among these.
fn bound_to<'i, 'a>(bound: &Bound<'_, 'i, 'a>, name: &[u8]) -> Option<Reading<'i, 'a>>
    ensures { result ≡ lookup (bytes_eq name.now) bound.now }
{
    bound.get(name).copied()
}

impl<'n, 's, 'i, 'a> Names<'n, 's, 'i, 'a> {
    /// What the name is bound to.
    pub(crate) fn get(&self, name: &[u8]) -> Option<Reading<'i, 'a>>
        ensures { result ≡ finds self.now name.now }
    {
        match self.reader {
            Some(reading) => {
                if is_reader(name) {
                    Some(reading)
                } else {
                    bound_to(self.bound, name)
                }
            }
            None => bound_to(self.bound, name),
        }
    }
}
