ghost use Rattle.std.specs.Prelude.{◌≡◌, ◌++◌, codes, decimal, OnOk};
ghost use Rattle.pac_sample.specs.Elements.{element, end_tag, start_tag};

use pac_base::NoMemory;
use pac_io::Page;

/// Appends the start tag of an element.
#[tactic(auto, unfolding(crate::specs::Elements::start_tag))]
pub(crate) fn push_start(page: &mut Page, tag: &[u8]) -> Result<(), NoMemory>
    ensures { OnOk result (page.new ≡ page.old ++ start_tag tag.now) }
{
    page.push(b"<")?;
    page.push(tag)?;
    page.push(b">")
}

/// Appends the end tag of an element.
#[tactic(auto, unfolding(crate::specs::Elements::end_tag))]
pub(crate) fn push_end(page: &mut Page, tag: &[u8]) -> Result<(), NoMemory>
    ensures { OnOk result (page.new ≡ page.old ++ end_tag tag.now) }
{
    page.push(b"</")?;
    page.push(tag)?;
    page.push(b">")
}

/// Appends an element that holds a word.
pub(crate) fn push_word(page: &mut Page, tag: &[u8], word: &[u8]) -> Result<(), NoMemory>
    ensures { OnOk result (page.new ≡ page.old ++ element tag.now word.now) }
{
    push_start(page, tag)?;
    page.push(word)?;
    push_end(page, tag)
}

/// Appends an element that holds a number in decimal.
pub(crate) fn push_number(page: &mut Page, tag: &[u8], number: u64) -> Result<(), NoMemory>
    ensures { OnOk result (page.new ≡ page.old ++ element tag.now (decimal number)) }
{
    push_start(page, tag)?;
    page.decimal(number)?;
    push_end(page, tag)
}

/// Appends a name: a letter and a number in decimal.
pub(crate) fn push_name(page: &mut Page, letter: &[u8], number: u64) -> Result<(), NoMemory>
    ensures { OnOk result (page.new ≡ page.old ++ element (codes "name") (letter.now ++ decimal number)) }
{
    push_start(page, b"name")?;
    page.push(letter)?;
    page.decimal(number)?;
    push_end(page, b"name")
}
