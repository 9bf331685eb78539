// Laws of the definitions that the contracts cite.
ghost use Rattle.std.specs.Prelude.{◌≡◌, Some};
ghost use Rattle.mr_arguments.specs.Names.{named, text_of};
ghost use Rattle.mr_arguments.specs.declared.name.Name.{Name};

/// Each name is found by its text, so no two commands have the same name.
pub fn names_are_found()
    ensures { (name : Name) → named (text_of name) ≡ Some name }
{}
