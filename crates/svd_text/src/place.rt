ghost use Rattle.std.specs.Prelude.{◌≡◌, ◌≤◌, ◌+◌, ◌-◌, length};

use pac_base::Span;

/// The place, in a text of so many bytes, of the byte from which on so many are left.
pub fn place(total: u32, left: usize) -> u32
    ensures { result ≡ total - left }
{
    (total as usize).saturating_sub(left) as u32
}

/// Where a name stands that follows the first byte of what is left.
pub fn name_place(total: u32, from: &[u8]) -> u32
    requires { total ≤ 67_108_864 }
    ensures { result ≡ total - length from.now + 1 }
{
    place(total, from.len()) + 1
}

/// The bytes of a name that follows the first byte of what is left.
pub fn name_span(total: u32, from: &[u8], name: &[u8]) -> Span
    requires total { total ≤ 67_108_864 }
    requires name { length name.now ≤ 67_108_864 }
    ensures start { result.start ≡ total - length from.now + 1 }
    ensures end { result.end ≡ total - length from.now + 1 + length name.now }
{
    let start = name_place(total, from);
    Span {
        start,
        end: start + name.len() as u32,
    }
}
