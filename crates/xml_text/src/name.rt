ghost use Rattle.std.specs.Prelude.{◌≡◌, option_map};
ghost use Rattle.xml_text.specs.Names.{begins_name};
ghost use Rattle.xml_text.specs.Reading.{name_at};

use crate::run::{Run, is_name_start, split_run};

/// Whether a name begins the text.
#[tactic(auto, unfolding(crate::specs::Names::begins_name))]
pub fn begins_name(text: &[u8]) -> bool
    ensures { result ≡ begins_name text.now }
{
    match text {
        [] => false,
        [first, ..] => is_name_start(*first),
    }
}

/// The name that begins the text, and what follows it.
#[tactic(auto, unfolding(crate::specs::Reading::name_at))]
pub fn split_name(text: &[u8]) -> Option<(&[u8], &[u8])>
    ensures { option_map (λ x. (x.0.now, x.1.now)) result ≡ name_at text.now }
{
    if !begins_name(text) {
        return None;
    }
    Some(split_run(text, Run::Name))
}
