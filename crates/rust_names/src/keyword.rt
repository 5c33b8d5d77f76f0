ghost use Rattle.std.specs.Prelude.{◌≡◌};
ghost use Rattle.rust_names.specs.Keywords.{is_keyword};

use crate::table::is_among;
use case_table::CaseRow;

/// Whether the word is a keyword of Rust 2024, strict or reserved, or `Self`.
#[tactic(auto, unfolding(crate::specs::Keywords::is_keyword))]
pub fn is_keyword(word: &[u8]) -> bool
    ensures { result ≡ is_keyword word.now }
{
    let rows = rows![
        "Self", "abstract", "as", "async", "await", "become", "box", "break", "const", "continue",
        "crate", "do", "dyn", "else", "enum", "extern", "false", "final", "fn", "for", "gen", "if",
        "impl", "in", "let", "loop", "macro", "match", "mod", "move", "mut", "override", "priv",
        "pub", "ref", "return", "self", "static", "struct", "super", "trait", "true", "try",
        "type", "typeof", "unsafe", "unsized", "use", "virtual", "where", "while", "yield",
    ];
    is_among::<52>(&rows, word)
}
