ghost use Rattle.std.specs.Prelude.{◌≡◌};
ghost use Rattle.frag_sem.specs.ProxyTypes.{reader_type, writer_type};
ghost use Rattle.frag_types.specs.Proxies.{on_type};

use frag_index::Unit;
use frag_tree::{Reader, Writer};

/// Whether a call of the name stands on the type of a reader.
pub(crate) fn on_reader(reader: &Reader, unit: &Unit<'_>, name: &[u8]) -> bool
    ensures { result ≡ on_type (reader_type reader.now) name.now unit.now.values }
{
    unit.read_truth(reader, name).is_some() || unit.read_number(reader, name).is_some()
}

/// Whether a call of the name stands on the type of a writer.
pub(crate) fn on_writer(writer: &Writer, unit: &Unit<'_>, name: &[u8]) -> bool
    ensures { result ≡ on_type (writer_type writer.now) name.now unit.now.values }
{
    unit.write_truth(writer, name).is_some() || unit.write_number(writer, name).is_some()
}
