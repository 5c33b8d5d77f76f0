// The laws that join a tree and its flat list of rows, for steps of a type `S` and keys of a type `K`.
ghost use Rattle.svd_rows.specs.Laws.{RowsOfSiblings, RowsOfElement, RowsSpellTree, EqualRowsEqualTrees, CountIsElementRows, RowsOfFound, PathsOfFound, KeysOfRows, ChildrenOfRows, DeletionIsFilter, RenamingIsMap, PathNamesOne, RowsInside, NoneInside, AdditionIsBehind, ReplacementIsExchange, SettingIsReplacement, PlacedIsRanked, PuttingIsSetting, EditOfEach, DeletionOfEach, ReplacementOfEach, RenamingOfEach, AdditionOfEach};

/// The rows of a tree are those of its elements in document order, and they say all that the tree says.
pub fn rows_law<S, K>()
    ensures siblings { RowsOfSiblings S K }
    ensures element { RowsOfElement S K }
    ensures spelling { RowsSpellTree S K }
    ensures equality { EqualRowsEqualTrees S K }
    ensures counting { CountIsElementRows S K }
{}

/// What the rows tell of the elements to which a chain of tests leads, of keys and of children.
pub fn look_ups_law<S, K>()
    ensures found { RowsOfFound S K }
    ensures paths { PathsOfFound S K }
    ensures keys { KeysOfRows S K }
    ensures children { ChildrenOfRows S K }
{}

/// What an edit of a tree does to its rows, wherever a chain of tests leads.
pub fn edits_law<S, K>()
    ensures deletion { DeletionIsFilter S K }
    ensures renaming { RenamingIsMap S K }
{}

/// Where no two siblings have one step, a path names one element: what its rows are, and what an edit of it
/// does to the rows of the whole tree.
pub fn paths_law<S, K>()
    ensures names_one { PathNamesOne S K }
    ensures inside { RowsInside S K }
    ensures none_inside { NoneInside S K }
    ensures addition { AdditionIsBehind S K }
    ensures replacement { ReplacementIsExchange S K }
    ensures setting { SettingIsReplacement S K }
{}

/// The keys of an element stand in one order by rank, and setting one keeps it.
pub fn ranks_law<K>()
    ensures ranked { PlacedIsRanked K }
    ensures setting { PuttingIsSetting K }
{}

/// Where siblings stand in a list, what is done to the list is done to them.
pub fn lists_law<S, K>()
    ensures edit { EditOfEach S K }
    ensures deletion { DeletionOfEach S K }
    ensures replacement { ReplacementOfEach S K }
    ensures renaming { RenamingOfEach S K }
    ensures addition { AdditionOfEach S K }
{}
