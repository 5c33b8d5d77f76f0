ghost use Rattle.std.specs.Prelude.{◌≡◌, ◌<◌, ◌≤◌, length, IfOk};
ghost use Rattle.xml_text.specs.Views.{part_of};
ghost use Rattle.xml_text.specs.Reading.{part_at};
ghost use Rattle.svd_text.specs.Reading.{Gives, read_or, NamesWithin};

use crate::fault::TextFault;
use crate::place::place;
use std::alloc::Global;
use xml_text::{Part, XmlFault, split_part};

/// The part at the front of what is left of a text of so many bytes, and what follows it.
pub fn next_part(alloc: Global, total: u32, text: &[u8]) -> Result<(Part, &[u8]), TextFault>
    requires { length text.now ≤ 67_108_864 }
    ensures read { Gives (λ x. (part_of x.0, x.1.now)) result (read_or (part_at text.now)) }
    ensures shorter { IfOk result (λ x. length x.1.now < length text.now) }
    ensures named { IfOk result (λ x. NamesWithin 67108864 (part_of x.0)) }
{
    match split_part(alloc, text) {
        Ok((part, rest)) => Ok((part, rest)),
        Err(XmlFault::Syntax) => Err(TextFault::Syntax {
            at: place(total, text.len()),
        }),
        Err(XmlFault::Memory) => Err(TextFault::Memory),
    }
}
