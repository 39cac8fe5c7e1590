// The worked examples of the rules, and what single words come to, about the definitions that the contracts use, in one theorem.
#![tactic(auto)]

ghost use Rattle.worked_examples.specs.Examples.{WorkedExamples};
ghost use Rattle.worked_examples.specs.Fields.{Fields};
ghost use Rattle.worked_examples.specs.Limits.{Limits};
ghost use Rattle.worked_examples.specs.LineFields.{LineFields};
ghost use Rattle.worked_examples.specs.Orders.{Orders};
ghost use Rattle.worked_examples.specs.Parts.{Parts};
ghost use Rattle.worked_examples.specs.SheetOrders.{SheetOrders};
ghost use Rattle.worked_examples.specs.Sums.{Sums};
ghost use Rattle.worked_examples.specs.Tampered.{Tampered};

/// Each of them comes out by computing.
pub fn worked_examples_hold()
    ensures rules { WorkedExamples }
    ensures limits { Limits }
    ensures parts { Parts }
    ensures tampered { Tampered }
    ensures fields { Fields }
    ensures orders { Orders }
    ensures sheet_orders { SheetOrders }
    ensures line_fields { LineFields }
    ensures sums { Sums }
{}
