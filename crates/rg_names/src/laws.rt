//! What a class table says of the headers of its program (docs/language.md, "Headers"), each law
//! as the contract of a function that does nothing.

ghost use Rattle.rg_names.specs.Laws.{TablesAreOfGoodHeaders, GoodHeadersPass};

/// The headers of a program that has a class table are good: the names of classes, of members and
/// of parameters differ, and each type and receiver goes with the class that it names or stands in.
pub fn tables_are_of_good_headers()
    ensures { TablesAreOfGoodHeaders }
{}

/// Headers that are good have no fault.
pub fn good_headers_pass()
    ensures { GoodHeadersPass }
{}
