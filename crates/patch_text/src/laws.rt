ghost use Rattle.glob_select.specs.Items.{Item};
ghost use Rattle.glob_select.specs.Reading.{alternatives_of};
ghost use Rattle.glob_select.specs.Refusals.{IsPattern};
ghost use Rattle.glob_select.specs.Spelling.{SpellsPattern};
ghost use Rattle.std.specs.Prelude.{◌≡◌, ◌↔◌, ℕ, Bool, List, [], Some, codes};
ghost use Rattle.patch_text.specs.Contents.{IsContent, IsLastValue, IsReadLast};
ghost use Rattle.patch_text.specs.CutLines.{AreLines};
ghost use Rattle.patch_text.specs.FlowCollections.{IsFlowList, IsFlowMapping};
ghost use Rattle.patch_text.specs.Lines.{Says};
ghost use Rattle.patch_text.specs.Parts.{BeginsWith};
ghost use Rattle.patch_text.specs.PlainScalars.{BeginsWithPlain, IsPlain};
ghost use Rattle.patch_text.specs.SpokenPatterns.{CommandsSpeakAsSpelled, TextsSpeakAsSpelled};
ghost use Rattle.text_scan.specs.Fronts.{rest_of};
ghost use Rattle.yaml_block.specs.Contents.{content_at};
ghost use Rattle.yaml_block.specs.Lines.{raw_lines, said_at};
ghost use Rattle.yaml_block.specs.Scalars.{plain_at};
ghost use Rattle.yaml_block.specs.Spaces.{is_space};
ghost use Rattle.yaml_block.specs.Values.{mapping_at, sequence_at};
ghost use Rattle.yaml_block.specs.declared.content.Content.{Content};
ghost use Rattle.yaml_block.specs.declared.line.Said.{Said};
ghost use Rattle.yaml_block.specs.declared.scalar.Place.{Place};
ghost use Rattle.yaml_block.specs.declared.value.Value.{Value};

/// A text that doesn't begin with a space is read whole as a plain scalar exactly where it is plain.
/// Behind spaces a plain scalar is read, and this rest is left, exactly where the text is spaces, a
/// text that is plain, spaces, and a rest that the scalar doesn't go on into.
pub fn plain_law()
    ensures whole { (place : Place) (text : List ℕ) →
        (¬ BeginsWith (codes " ") text) → (plain_at place text ≡ Some (text, [])) ↔ IsPlain place text }
    ensures front { (place : Place) (text scalar rest : List ℕ) →
        (plain_at place (rest_of is_space text) ≡ Some (scalar, rest)) ↔ BeginsWithPlain place scalar text rest }
{}

/// Behind `[` these scalars are read exactly where they stand there with commas between them, up to
/// `]` and this rest.
pub fn flow_list_law()
    ensures { (text rest : List ℕ) (scalars : List (List ℕ)) →
        (sequence_at text ≡ Some (scalars, rest)) ↔ IsFlowList scalars text rest }
{}

/// Behind `{` these keys are read with their values exactly where they stand there with commas
/// between them, up to `}` and this rest.
pub fn flow_mapping_law()
    ensures { (text rest : List ℕ) (pairs : List (List ℕ × List ℕ)) →
        (mapping_at text ≡ Some (pairs, rest)) ↔ IsFlowMapping pairs text rest }
{}

/// Behind spaces a value is read, and nothing that counts is left, exactly where the text is spaces,
/// the value, spaces, and nothing or a comment.
pub fn value_law()
    ensures { (text : List ℕ) (value : Value) → IsReadLast value text ↔ IsLastValue value text }
{}

/// A text that doesn't begin with a space is read as this content of a line exactly where it is that
/// content: `- value`, `key:` or `key: value`.
pub fn content_law()
    ensures { (text : List ℕ) (content : Content) →
        (¬ BeginsWith (codes " ") text) → (content_at text ≡ Some content) ↔ IsContent content text }
{}

/// A text is cut into these lines exactly where it is these lines, with a line feed behind each but
/// the last; a carriage return before a line feed is no part of a line.
pub fn cut_law()
    ensures { (text : List ℕ) (lines : List (List ℕ)) → (raw_lines text ≡ lines) ↔ AreLines lines text }
{}

/// A line is read as saying this exactly where it says it: nothing, the mark `---` before all other
/// lines, or its content behind as many spaces as its indent.
pub fn line_law()
    ensures { (first : Bool) (number : ℕ) (raw : List ℕ) (said : Said) →
        (said_at first number raw ≡ Some said) ↔ Says first number raw said }
{}

/// A text spells these alternatives exactly where it is a pattern and they are those that commands
/// have of it: it spells no others.
pub fn pattern_law()
    ensures { (text : List ℕ) (alternatives : List (List Item)) →
        SpellsPattern alternatives text ↔ (IsPattern text × (alternatives ≡ alternatives_of text)) }
{}

/// Each command of a patch speaks of the patterns that texts of the patch spell: its parents are
/// spelled by the keys that lead to its mapping, and the pattern of what it does by a text of that
/// mapping, on the line of the command. So do the commands to which the bytes of a patch come.
pub fn spoken_law()
    ensures commands { CommandsSpeakAsSpelled }
    ensures bytes { TextsSpeakAsSpelled }
{}
