// Worked values, which the check computes.
ghost use Rattle.alu.specs.Worked.{WorkedValues};

pub fn worked_values()
    ensures { WorkedValues }
{}
