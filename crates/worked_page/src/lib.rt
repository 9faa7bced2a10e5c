// Worked pages: what the definitions give for texts that were worked out apart from them.
#![tactic(auto)]

ghost use Rattle.worked_page.specs.Session.{WorkedPage, WorkedRows};
ghost use Rattle.worked_page.specs.Year.{YearPage};
ghost use Rattle.worked_page.specs.YearRows.{YearRows};

/// For each worked text the definitions give the worked page, byte for byte, and the worked rows behind it.
pub fn worked_page_stands()
    ensures page { WorkedPage }
    ensures rows { WorkedRows }
    ensures year_page { YearPage }
    ensures year_rows { YearRows }
{}
