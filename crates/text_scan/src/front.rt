ghost use Rattle.std.specs.Prelude.{◌≡◌, option_map};
ghost use Rattle.std.specs.List.{list_all};
ghost use Rattle.text_scan.specs.declared.class.Class.TheVariants.{Blank};
ghost use Rattle.text_scan.specs.Classes.{has};
ghost use Rattle.text_scan.specs.Fronts.{front_of, rest_of, stripped_of};

use crate::class::Class;

/// What follows the longest front of the text that is of the class.
#[tactic(auto, unfolding(crate::specs::Fronts::rest_of))]
fn rest_after(text: &[u8], class: Class) -> &[u8]
    ensures { result.now ≡ rest_of (has class) text.now }
{
    let mut rest = text;
    while let [first, after @ ..] = rest {
        if !class.has(*first) {
            break;
        }
        rest = after;
    }
    rest
}

/// The longest front of the text whose bytes are all of the class, and what follows it.
pub fn split_front(text: &[u8], class: Class) -> (&[u8], &[u8])
    ensures front { result.0.now ≡ front_of (has class) text.now }
    ensures rest { result.1.now ≡ rest_of (has class) text.now }
{
    let rest = rest_after(text, class);
    text.split_at(text.len() - rest.len())
}

/// Whether each byte of the text is of the class.
pub fn is_all(text: &[u8], class: Class) -> bool
    ensures { result ≡ list_all (has class) text.now }
{
    text.iter().all(|byte| class.has(*byte))
}

/// The text without the white space at its front.
pub fn after_blanks(text: &[u8]) -> &[u8]
    ensures { result.now ≡ rest_of (has Blank) text.now }
{
    rest_after(text, Class::Blank)
}

/// What follows the fixed text, where the text begins with it.
pub fn stripped<'a>(text: &'a [u8], fixed: &[u8]) -> Option<&'a [u8]>
    ensures { option_map (λ rest. rest.now) result ≡ stripped_of fixed.now text.now }
{
    text.strip_prefix(fixed)
}
