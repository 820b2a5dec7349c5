//! Laws of the names of arrays in C. Each is the contract of a function that does nothing.
ghost use Rattle.ot_c_names.specs.Laws.{OwnNameComesBack};

/// The own name of a name in C is the name, where that begins with no capital.
pub fn own_name_comes_back()
    ensures { OwnNameComesBack }
{}
