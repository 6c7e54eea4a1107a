//! Laws of edits and encodings, each the contract of a function that does nothing.
ghost use Rattle.wasm_edits.specs.Edited.{EditingComposes, StrippingIsAnEdit};
ghost use Rattle.wasm_edits.specs.EditedReading.{ReadingsAreEdited};
ghost use Rattle.wasm_edits.specs.EncodedLaws.{NamesAreShortest, NamesReadBack, NumbersAreShortest, NumbersReadBack, SectionsAreShortest, SectionsReadBack};
ghost use Rattle.wasm_edits.specs.Stripped.{StrippingTwiceIsOnce};

/// Editing a stream and then the result is one edit, by all edits in turn.
pub fn editing_composes()
    // Proved: editing twice is one edit, by the edits of both
    ensures { EditingComposes }
{}

/// The reading of an edited stream is the stream's reading after the edits.
///
/// An event of the stream that stays is the same but for its offsets. A section that was replaced, and before the end
/// each one that was appended, is a custom section with the new name and data.
pub fn readings_are_edited()
    // Proved: the reading of an edited stream is the edited reading: what stays is the same but for its offsets, and
    //   new sections are custom sections with their name and data
    ensures { ReadingsAreEdited }
{}

/// Stripping is the edit that keeps a choice of custom sections.
pub fn stripping_is_an_edit()
    // Proved: stripping is the edit that keeps a choice
    ensures { StrippingIsAnEdit }
{}

/// Stripping a stripped stream, with the names kept both times or neither time, changes nothing.
pub fn stripping_twice_is_once()
    // Proved: stripping the result again changes nothing
    ensures { StrippingTwiceIsOnce }
{}

/// An encoded number is read as that number, wherever it is, and takes exactly its bytes.
///
/// (Core specification, Binary format, Values, Integers.)
pub fn numbers_read_back()
    // Proved: an encoded number is read as that number, whatever comes after it, and takes its bytes
    ensures { NumbersReadBack }
{}

/// No bytes that are read as a number are fewer than those that it is encoded as.
///
/// (Core specification, Binary format, Values, Integers.)
pub fn numbers_are_shortest()
    // Proved: no shorter bytes are read as the same number
    ensures { NumbersAreShortest }
{}

/// No bytes that are read as a name are fewer than those that it is encoded as.
///
/// (Core specification, Binary format, Values, Names.)
pub fn names_are_shortest()
    // Proved: no shorter bytes are read as the same name
    ensures { NamesAreShortest }
{}

/// An encoded name is read as that name, wherever it is, and takes exactly its bytes.
///
/// (Core specification, Binary format, Values, Names.)
pub fn names_read_back()
    // Proved: an encoded name is read as that name, whatever comes after it, and takes its bytes
    ensures { NamesReadBack }
{}

/// An encoded custom section is a well-formed section, which is read as one with its name and its data.
///
/// (Core specification, Binary format, Modules, Custom Section.)
pub fn sections_read_back()
    // Proved: an encoded custom section is well-formed in modules and components, and read as one
    //   with its name and its data
    ensures { SectionsReadBack }
{}

/// No bytes that are read as a custom section with a name and data are fewer than those that it is encoded as.
///
/// (Core specification, Binary format, Modules, Custom Section.)
pub fn sections_are_shortest()
    // Proved: no shorter bytes are read as a custom section with the same name and data
    ensures { SectionsAreShortest }
{}
