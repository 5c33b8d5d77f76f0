ghost use Rattle.std.specs.Prelude.{◌≡◌, ◌<◌, ◌≤◌, false, drop};
ghost use Rattle.std.specs.Fmt.{digits, digit_glyph};

/// Writes the lower-case hexadecimal digits of a number to the end of `text`, and answers where they begin.
pub(crate) fn write_hexadecimal(number: u64, text: &mut [u8; 64]) -> usize
    ensures within { result ≤ 64 }
    ensures digits { drop result text.new ≡ digits 16 false number }
{
    let mut at = 64;
    let mut rest = number;
    while at > 0 {
        at -= 1;
        text[at] = hexadecimal_digit(rest % 16);
        rest /= 16;
        if rest == 0 {
            break;
        }
    }
    at
}

fn hexadecimal_digit(value: u64) -> u8
    ensures { value < 16 → result ≡ digit_glyph false value }
{
    let low = (value % 16) as u8;
    if low < 10 {
        b'0' + low
    } else {
        b'a' + (low - 10)
    }
}
