// The worked figures: what the definitions come to in cases that were worked out by hand.
#![tactic(auto)]

ghost use Rattle.worked.specs.Worked.{WorkedFigures};
ghost use Rattle.worked.specs.Totals.{WorkedTotals};
ghost use Rattle.worked.specs.Limits.{WorkedLimits};
ghost use Rattle.worked.specs.Spans.{WorkedSpans};
ghost use Rattle.worked.specs.Orders.{WorkedOrders};

/// The definitions give every figure of the table, and the totals of a journal.
pub fn worked_figures_stand()
    ensures figures { WorkedFigures }
    ensures totals { WorkedTotals }
{}

/// The questions refuse what they were worked out to refuse: at the limits, at the edges of each cause's rule, and in their order.
pub fn worked_questions_stand()
    ensures limits { WorkedLimits }
    ensures spans { WorkedSpans }
    ensures orders { WorkedOrders }
{}
