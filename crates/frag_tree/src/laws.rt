ghost use Rattle.frag_words.specs.Readings.{IsExact, OneTree};
ghost use Rattle.frag_tree.specs.declared.access.Access.{Access};
ghost use Rattle.frag_tree.specs.declared.block.Element.{Element};
ghost use Rattle.frag_tree.specs.declared.block.FieldType.{FieldType};
ghost use Rattle.frag_tree.specs.declared.block.StructField.{StructField};
ghost use Rattle.frag_tree.specs.declared.krate.Slot.{Slot};
ghost use Rattle.frag_tree.specs.declared.krate.Version.{Version};
ghost use Rattle.frag_tree.specs.declared.register.Reader.{Reader};
ghost use Rattle.frag_tree.specs.declared.register.RegisterModule.{RegisterModule};
ghost use Rattle.frag_tree.specs.declared.register.Values.{Values};
ghost use Rattle.frag_tree.specs.declared.register.Writer.{Writer};
ghost use Rattle.frag_tree.specs.Laws.{OneCrate, ParsesRead, PartsArePrinted, ReadsParsed, WordsOfPrinted};
ghost use Rattle.frag_tree.specs.ModuleProductions.{block_reading, block_words, module_reading, module_words, modules_reading, modules_words, valid_module};
ghost use Rattle.frag_tree.specs.Productions.{access_reading, access_words, element_reading, element_words, field_reading, field_words, slot_reading, slot_words, type_reading, type_words};
ghost use Rattle.frag_tree.specs.RegisterProductions.{reader_reading, reader_words, register_reading, register_words, values_reading, values_words, writer_reading, writer_words};
ghost use Rattle.frag_tree.specs.Trees.{BlockTree, ModuleTree, Modules};
ghost use Rattle.frag_tree.specs.Validity.{valid_access, valid_block, valid_element, valid_field, valid_modules, valid_reader, valid_register, valid_slot, valid_type, valid_values, valid_writer};

/// The words of one tree of a production, followed by any words, are never the words of another tree
/// of that production, followed by any words.
pub fn words_law()
    ensures slot { OneTree Slot slot_words valid_slot }
    ensures element { OneTree Element element_words valid_element }
    ensures field_type { OneTree FieldType type_words valid_type }
    ensures field { OneTree StructField field_words valid_field }
    ensures access { OneTree Access access_words valid_access }
    ensures reader { (version : Version) → OneTree Reader reader_words (valid_reader version) }
    ensures writer { (version : Version) → OneTree Writer writer_words (valid_writer version) }
    ensures values { OneTree Values values_words valid_values }
    ensures register { (version : Version) → OneTree RegisterModule register_words (valid_register version) }
    ensures block { (version : Version) → OneTree BlockTree block_words (valid_block version) }
    ensures module_tree { (version : Version) → OneTree ModuleTree module_words (valid_module version) }
    ensures modules { (version : Version) → OneTree Modules modules_words (valid_modules version) }
{}

/// The readers of the productions read what was printed, and what they read has the words of the
/// printed form.
pub fn readings_law()
    ensures slot { IsExact Slot slot_reading }
    ensures element { IsExact Element element_reading }
    ensures field_type { IsExact FieldType type_reading }
    ensures field { IsExact StructField field_reading }
    ensures access { IsExact Access access_reading }
    ensures reader { (version : Version) → IsExact Reader (reader_reading version) }
    ensures writer { (version : Version) → IsExact Writer (writer_reading version) }
    ensures values { IsExact Values values_reading }
    ensures register { (version : Version) → IsExact RegisterModule (register_reading version) }
    ensures block { (version : Version) → IsExact BlockTree (block_reading version) }
    ensures module_tree { (version : Version) → IsExact ModuleTree (module_reading version) }
    ensures modules { (version : Version) → IsExact Modules (modules_reading version) }
{}

/// The words of a printed crate are those of its productions, and at most one crate fits a text: the
/// one that the reader of crates gives.
pub fn crate_law()
    ensures words { WordsOfPrinted }
    ensures one { OneCrate }
    ensures read { ReadsParsed }
    ensures parsed { ParsesRead }
{}

/// The parts of a crate, written one behind the other, are its printed form.
pub fn parts_law()
    ensures { PartsArePrinted }
{}
