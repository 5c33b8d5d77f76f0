use glob_select::{Pattern, PatternFault};
use std::alloc::Global;
use std::test::Fail;

// Patterns, with names that each matches and others that it doesn't.
const MATCHES: &[(&str, &[&str], &[&str])] = &[
    (
        "TIM[1-3]*, USART? ",
        &["TIM1", "TIM10", "TIM3A", "USART1"],
        &["TIM4", "TIM", "USART10", "USART", "tim1", ""],
    ),
    // the mark of an array stands for itself
    (
        "CH[%s],[%s_]",
        &["CH[%s]", "%", "s", "_"],
        &["CH%", "CHs", "CH[%s", "[%s]"],
    ),
    ("*a*a*a*a*a*a*b", &["caaaaaab"], &["aaaaaa"]),
];

fn has_all(pattern: &Pattern, names: &[&str], wanted: bool) -> bool {
    for name in names {
        if pattern.matches(name.as_bytes()) != wanted {
            return false;
        }
    }
    true
}

fn matches_so(
    alloc: Global,
    text: &str,
    names: &[&str],
    others: &[&str],
) -> Result<bool, PatternFault> {
    let pattern = Pattern::new(alloc, text.as_bytes())?;
    Ok(has_all(&pattern, names, true) && has_all(&pattern, others, false))
}

#[test]
fn patterns_match_whole_names(rt: HostRuntime) -> Result<(), Fail> {
    for &(text, names, others) in MATCHES {
        assert!(rt; matches_so(rt.alloc(), text, names, others)?, "{text}");
    }
    Ok(())
}

#[test]
fn many_stars_answer_at_once(rt: HostRuntime) -> Result<(), Fail> {
    let pattern = Pattern::new(rt.alloc(), b"*a*a*a*a*a*a*b")?;
    let name = vec![in rt.alloc(); b'a'; 4096]?;
    assert!(rt; !pattern.matches(name.as_slice()));
    Ok(())
}

// Texts that are no pattern, with the place at which each stops being one.
const BAD: &[(&str, usize)] = &[
    ("A:B", 1),
    ("", 0),
    (" ", 1),
    ("A,,B", 2),
    ("A,", 2),
    ("A B", 2),
    ("[a-a]", 0),
    ("[]", 0),
    ("A[1-", 1),
    ("[%s-]", 0),
];

fn bad_at(alloc: Global, text: &str) -> Option<usize> {
    match Pattern::new(alloc, text.as_bytes()) {
        Err(PatternFault::BadPattern { at }) => Some(at),
        _ => None,
    }
}

#[test]
fn other_texts_are_bad_patterns(rt: HostRuntime) -> Result<(), Fail> {
    for &(text, place) in BAD {
        assert!(rt; bad_at(rt.alloc(), text) == Some(place), "{text}");
    }
    Ok(())
}

/// Whether the copy of a pattern matches this name.
fn copy_matches(alloc: Global, text: &str, name: &str) -> Result<bool, PatternFault> {
    let pattern = Pattern::new(alloc, text.as_bytes())?;
    Ok(pattern.copy()?.matches(name.as_bytes()))
}

/// Whether a pattern of one open item is this text without it.
fn is_without(alloc: Global, text: &str, plain: Option<&str>) -> Result<bool, PatternFault> {
    let pattern = Pattern::new(alloc, text.as_bytes())?;
    match (pattern.without_open(alloc)?, plain) {
        (Some(found), Some(plain)) => Ok(found.as_slice() == plain.as_bytes()),
        (None, None) => Ok(true),
        _ => Ok(false),
    }
}

#[test]
fn copied_and_without_the_open_item(rt: HostRuntime) -> Result<(), Fail> {
    assert!(rt; copy_matches(rt.alloc(), " C[1-4]R", "C3R")?);
    assert!(rt; is_without(rt.alloc(), " C[1-4]R", Some("CR"))?);
    assert!(rt; is_without(rt.alloc(), "C*R?", None)?);
    Ok(())
}
