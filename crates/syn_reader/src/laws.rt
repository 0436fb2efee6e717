//! Laws of the definitions: the contracts of functions that have no code.
ghost use Rattle.syn_reader.specs.Laws.{ReadSyntaxesNameNoMarks};

/// Each group that an item, a pattern, a list or a cluster of a syntax names is below 20,000,
/// whatever the files told.
pub fn read_syntaxes_name_no_marks()
    ensures { ReadSyntaxesNameNoMarks }
{}
