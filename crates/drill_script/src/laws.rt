// What holds of scripts.
ghost use Rattle.drill_script.specs.Laws.{ScriptsAreOne, ScriptsHaveNoFault};

/// The same bytes are at most one script: no text is spelled by two lines, wherever it stands.
pub fn scripts_are_one()
    ensures { ScriptsAreOne }
{}

/// A script has no faulty line: bytes are not both a script and refused by a line.
pub fn scripts_have_no_fault()
    ensures { ScriptsHaveNoFault }
{}
