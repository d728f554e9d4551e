#![tactic(auto)]

ghost use Rattle.meaning.specs.Accepts.{AcceptsLaw};
ghost use Rattle.meaning.specs.Access.{Own};
ghost use Rattle.meaning.specs.Converter.{ConvertedLaw};
ghost use Rattle.meaning.specs.Counter.{CountedLaw};
ghost use Rattle.meaning.specs.CounterLaw.{SumsLaw, RowsLaw};
ghost use Rattle.meaning.specs.Model.{Model};
ghost use Rattle.meaning.specs.Picks.{by_id, by_name};
ghost use Rattle.meaning.specs.WorkedCases.{WorkedCases};

// A file is accepted exactly if it is the encoding of a batch that keeps the rules, and it then means that batch.
pub fn accepts_stand()
    ensures { AcceptsLaw }
{}

// By id and by name, only a struct's own children are picked.
pub fn picks_stand()
    ensures ids { (m : Model) → Own m (by_id m) }
    ensures names { (m : Model) → Own m (by_name m) }
{}

// The walk with the converter's hooks gives the rows of a batch that keeps the rules, takes the cells that `converts` says, and refuses exactly as it does.
pub fn conversion_stands()
    ensures { ConvertedLaw }
{}

// The walk with the counter's hooks answers, and leaves the table, as adding what is reached does.
pub fn counter_stands()
    ensures { CountedLaw }
{}

// Counts are sums over the calls, whatever their order.
pub fn sums_stand()
    ensures { SumsLaw }
{}

// Where conversion accepts a batch, a new counter's count under every id is the NaNs in the rows and those at hidden slots.
pub fn rows_stand()
    ensures { RowsLaw }
{}

// The worked cases: small inputs, each with what the definitions say of it.
pub fn worked_cases_stand()
    ensures { WorkedCases }
{}
