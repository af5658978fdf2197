// What holds of the table, each on a contract of its own.
ghost use Rattle.table.specs.Diagram.{short, long};
ghost use Rattle.table.specs.Laws.{DecodesExactly, Unshared, FormsOfActs, FormsOfBranches, ToldApart, UsesLeast, ActsHaveForms};
ghost use Rattle.table.specs.Worked.{WorkedExamples};

// A halfword or a word decodes to an instruction exactly when the table spells it so, and else is unknown.
pub fn decodes_exactly_what_the_table_spells()
    ensures { (DecodesExactly short) × (DecodesExactly long) }
{}

pub fn no_two_instructions_share_a_form()
    ensures { (Unshared short) × (Unshared long) }
{}

// An operation is an act exactly when some form spells it.
pub fn acts_are_what_forms_spell()
    ensures { (FormsOfActs short) × ((FormsOfActs long) × (ActsHaveForms)) }
{}

pub fn branches_have_the_forms_that_spell_them()
    ensures { (FormsOfBranches short) × (FormsOfBranches long) }
{}

// The form used is one of least length.
pub fn least_form_is_used()
    ensures { UsesLeast }
{}

// The first halfword tells whether a second one follows.
pub fn first_halfword_tells_the_length()
    ensures { ToldApart }
{}

pub fn worked_examples()
    ensures { WorkedExamples }
{}
