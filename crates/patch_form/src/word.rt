/// The commands, in the order in which those of one mapping are carried out.
#[derive(Clone, Copy, PartialEq, Eq)]
pub enum Word {
    /// `_delete`
    Delete,
    /// `_copy`
    Copy,
    /// `_modify`
    Modify,
    /// `_add`
    Add,
    /// `_strip`
    Strip,
    /// `_array`
    Array,
}

/// The commands whose values are texts, alone or in a list.
#[derive(Clone, Copy, PartialEq, Eq)]
pub enum TextWord {
    /// `_delete`
    Delete,
    /// `_strip`
    Strip,
}

/// What a key of a mapping is.
#[derive(Clone, Copy, PartialEq, Eq)]
pub enum KeyWord {
    /// A command.
    Command(Word),
    /// `_svd`, which is not used.
    Ignored,
    /// Another key that begins with `_`.
    Unknown,
    /// A pattern.
    Pattern,
}

/// What keys are for. `name` is a key of renaming alone; `from` is none of the keys that are set.
#[derive(Clone, Copy, PartialEq, Eq)]
pub enum Purpose {
    /// `_copy`
    Copying,
    /// `_modify`
    Modifying,
    /// `_add`
    Adding,
}
