//! Laws of tables. Each function does nothing, and its contract is the law.
ghost use Rattle.table_laws.specs.Answers.{AnswersComeBack, AnswersTellBags};
ghost use Rattle.table_laws.specs.Faults.{FaultsAreFirst};
ghost use Rattle.table_laws.specs.Fields.{FieldsComeBack};
ghost use Rattle.table_laws.specs.Files.{FilesAreTables};

use bags::laws::{bags_are_equivalence, bags_are_permutations, sorted_is_in_order};
use words::texts_come_back;

/// A number is written as the shortest digits of its value, and a text as its bytes; values are read back. Exactly digits
/// of a value below 2^64 are read as that number.
pub fn fields_come_back()
    ensures { FieldsComeBack }
{
    texts_come_back();
}

/// A file's bytes are a table under a declaration exactly where their first record is the columns' names, and behind it
/// there is a record for each of the table's rows, in order, at most the declared rows, with one field for each column,
/// that writes the row's word there.
pub fn files_are_tables()
    ensures { FilesAreTables }
{}

/// The fault that is told of a file is there, and is the first: no header, too many records, or else a record of another
/// width, or a field that writes no word, where each record before it is a row and each field before it writes a word.
pub fn faults_are_first()
    ensures { FaultsAreFirst }
{}

/// The text of a table's answer, read under its columns, is a table of the same columns and the same bag of rows, in
/// order: for columns with ASCII names, one at least, and rows of values of their kinds.
pub fn answers_come_back()
    ensures { AnswersComeBack }
{
    texts_come_back();
    sorted_is_in_order();
    bags_are_equivalence();
    bags_are_permutations();
}

/// Two such tables of the same columns with the same answer have the same bag of rows.
pub fn answers_tell_bags()
    ensures { AnswersTellBags }
{
    answers_come_back();
    bags_are_equivalence();
}
