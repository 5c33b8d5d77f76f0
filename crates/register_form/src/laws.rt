ghost use Rattle.register_form.specs.Laws.{FieldsGive, FieldsPut, FieldsWrite, RulesHold, StartsAre};

/// The module of a register does with words what the places of its fields and its masks say.
pub fn words_law()
    ensures given { FieldsGive }
    ensures write { FieldsWrite }
    ensures put { FieldsPut }
    ensures start { StartsAre }
{}

/// The rules of typing that speak of one register module hold of it.
pub fn rules_law()
    ensures { RulesHold }
{}
