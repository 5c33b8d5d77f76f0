ghost use Rattle.std.specs.Prelude.{◌≡◌};
ghost use Rattle.frag_rules.specs.Rules.{all_rules};

/// The typing rules of crate texts, in their order. Where a rule has two kinds of
/// faults, each is a rule here.
#[derive(Clone, Copy, Debug, PartialEq, Eq)]
pub enum Rule {
    /// Names are distinct: of slots, of the modules of one parent, of struct fields, accessors, markers, readers
    /// and writers, and of the calls of all values of one type.
    DistinctNames,
    /// A slot's module is a block module at the top.
    SlotModules,
    /// An element names a module directly inside the same module.
    ModulePaths,
    /// An accessor's body names a field of the struct.
    BodyFields,
    /// That field holds one of the accessor's element where the body names it alone, and an array of them where the
    /// body takes a member; and the accessor takes an index exactly where its body uses one.
    BodyTypes,
    /// A count is at least 1.
    Counts,
    /// The constants' type is that of the register.
    ConstantTypes,
    /// Each constant fits its type.
    ConstantValues,
    /// A reader's marker is declared.
    ReaderMarkers,
    /// A reader's shift is below the bits of the register, and its mask fits them.
    ReaderPlaces,
    /// A writer's marker is declared.
    WriterMarkers,
    /// A writer's field ends within the register, and its width is 1 to the bits of its value type.
    WriterPlaces,
    /// A block of values stands on the type of a reader or a writer of the same module.
    ValueTypes,
    /// The literals of a block of values fit the value type.
    ValueLiterals,
    /// No accessor, reader, writer or call of a value has a name of the prelude.
    PreludeNames,
    /// Readers stand exactly where the register is readable, and writers exactly where it is writable.
    Directions,
    /// Every block's size is at most 2^64, and so is the end of each register.
    AddressRange,
}

/// All rules in their order.
#[tactic(auto, unfolding(crate::specs::Rules::all_rules))]
pub(crate) fn all_rules() -> [Rule; 17]
    ensures { result ≡ all_rules }
{
    [
        Rule::DistinctNames,
        Rule::SlotModules,
        Rule::ModulePaths,
        Rule::BodyFields,
        Rule::BodyTypes,
        Rule::Counts,
        Rule::ConstantTypes,
        Rule::ConstantValues,
        Rule::ReaderMarkers,
        Rule::ReaderPlaces,
        Rule::WriterMarkers,
        Rule::WriterPlaces,
        Rule::ValueTypes,
        Rule::ValueLiterals,
        Rule::PreludeNames,
        Rule::Directions,
        Rule::AddressRange,
    ]
}

/// The rules that speak of one block module, its fields and its accessors.
#[derive(Clone, Copy)]
pub(crate) enum BlockRule {
    DistinctNames,
    ModulePaths,
    BodyFields,
    BodyTypes,
    Counts,
    PreludeNames,
}

/// The rules that speak of one register module.
#[derive(Clone, Copy)]
pub(crate) enum RegisterRule {
    DistinctNames,
    Counts,
    ConstantTypes,
    ConstantValues,
    ReaderMarkers,
    ReaderPlaces,
    WriterMarkers,
    WriterPlaces,
    ValueTypes,
    ValueLiterals,
    PreludeNames,
    Directions,
}
