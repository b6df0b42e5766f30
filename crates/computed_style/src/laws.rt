// Laws of the definitions, each the contract of a function without a body.
ghost use Rattle.std.specs.Prelude.{◌≡◌, List, [], ◌∷◌, ◌++◌};
ghost use Rattle.computed_style.specs.declared.style.Style.{Style};
ghost use Rattle.computed_style.specs.Inheritance.{computed, inherited_values, IsNearestDeclared};

/// The values of an element are one step of inheritance from those of its parent.
pub fn values_come_from_the_parent()
    ensures { (above : List Style) (own : Style) → inherited_values (above ++ own ∷ []) ≡ computed (inherited_values above) own }
{}

/// Each value is the one that the nearest element declares, going from the element itself up to the root, and the
/// initial value where none does.
pub fn nearest_declaration_wins()
    ensures { (styles : List Style) → IsNearestDeclared styles (inherited_values styles) }
{}
