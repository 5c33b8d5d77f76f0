use pac_base::Name;

/// The key of a peripheral or register among its siblings.
#[derive(PartialEq, Eq, Hash, Drop)]
pub struct Sibling {
    /// The written name.
    pub name: Name,
    /// How many siblings before it have the same written name.
    pub number: u32,
}
