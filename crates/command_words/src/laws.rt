//! The laws of words: each contract is the statement, and the functions do nothing.
ghost use Rattle.std.specs.Prelude.{◌≡◌, true};
ghost use Rattle.clap.specs.Words.{is_simple_and_free};
ghost use Rattle.command_words.specs.Plain.{AsksByDefault, AsksFrom, AsksPlainly, ChecksByDefault, ChecksFrom, ChecksPlainly, DueByDefault, DuePlainly, DueWithin, JudgesByDefault, JudgesFrom, JudgesPlainly, MakesByDefault, MakesPlainly, MakesWithoutOptions, SolvesByDefault, SolvesByWay, SolvesFreely, SolvesPlainly, SolvesWithin, SolvesWithoutBudget, TailsByDefault, TailsPlainly, TailsWithin};
ghost use Rattle.command_words.specs.Program.{our_app};
ghost use Rattle.command_words.specs.Refusals.{NameAloneAsksNothing, NoWordsAskNothing, OtherWordsAskNothing, TakeFlagsPlainly, TakeOptionsOnce, TakeOwnOptions};
ghost use Rattle.command_words.specs.declared.command.TheConstants.{DEFAULT_DAY_START, DEFAULT_DAYS, DEFAULT_LEAST_NIGHT, DEFAULT_NODES, DEFAULT_PERIOD, DEFAULT_PIVOTS, DEFAULT_THROUGH_MAX, DEFAULT_VISITS, DEFAULT_WAY, MAX_DATES, MAX_DAYS, MAX_LEAST_NIGHT, MAX_MADE_LEGS, MAX_NODES, MAX_NUMBER, MAX_PERIOD, MAX_PIVOTS, MAX_THROUGH_MAX, MAX_VISITS, MIN_DATES, MIN_DAYS, MIN_PERIOD};
ghost use Rattle.command_words.specs.declared.command.SearchWay.TheVariants as way;

/// The command line is of the kind for which clap's definition of a match is exact: by it alone clap tells a match
/// from a fault, and what the words give each argument.
pub fn match_is_exact()
    ensures { is_simple_and_free our_app ≡ true }
{}

/// What the definition of a match comes to, for words that don't begin with a dash, or are a dash alone; for
/// words of any kind behind `--`; and for any text behind `=`.
pub fn plain_reading()
    ensures judges_plainly { JudgesPlainly }
    ensures solves_plainly { SolvesPlainly }
    ensures checks_plainly { ChecksPlainly }
    ensures tails_plainly { TailsPlainly }
    ensures due_plainly { DuePlainly }
    ensures makes_plainly { MakesPlainly }
    ensures asks_plainly { AsksPlainly }
    ensures judges_by_default { JudgesByDefault }
    ensures judges_from { JudgesFrom }
    ensures solves_by_default { SolvesByDefault }
    ensures solves_by_way { SolvesByWay }
    ensures solves_freely { SolvesFreely }
    ensures solves_within { SolvesWithin }
    ensures solves_without_budget { SolvesWithoutBudget }
    ensures checks_by_default { ChecksByDefault }
    ensures checks_from { ChecksFrom }
    ensures tails_by_default { TailsByDefault }
    ensures tails_within { TailsWithin }
    ensures due_by_default { DueByDefault }
    ensures due_within { DueWithin }
    ensures makes_by_default { MakesByDefault }
    ensures makes_without_options { MakesWithoutOptions }
    ensures asks_by_default { AsksByDefault }
    ensures asks_from { AsksFrom }
{}

/// What asks for nothing, whatever other words stand there: no command, another option than the command's own, one
/// that is given twice, and a flag that is given twice or with a value.
pub fn plain_refusals()
    ensures no_words { NoWordsAskNothing }
    ensures name_alone { NameAloneAsksNothing }
    ensures other_words { OtherWordsAskNothing }
    ensures own_options { TakeOwnOptions }
    ensures options_once { TakeOptionsOnce }
    ensures flags_plainly { TakeFlagsPlainly }
{}

/// The defaults of the options, and the least and greatest values that words take, in numbers. By default each choice of a
/// search is fixed.
pub fn values_in_numbers()
    ensures day_start { DEFAULT_DAY_START ≡ 180 }
    ensures through_max { DEFAULT_THROUGH_MAX ≡ 60 }
    ensures most_through_max { MAX_THROUGH_MAX ≡ 1439 }
    ensures least_night { DEFAULT_LEAST_NIGHT ≡ 0 }
    ensures most_least_night { MAX_LEAST_NIGHT ≡ 1440 }
    ensures period { DEFAULT_PERIOD ≡ 1 }
    ensures least_period { MIN_PERIOD ≡ 1 }
    ensures most_period { MAX_PERIOD ≡ 7 }
    ensures way { DEFAULT_WAY ≡ way.Fixed }
    ensures nodes { DEFAULT_NODES ≡ 1000 }
    ensures most_nodes { MAX_NODES ≡ 1000000 }
    ensures pivots { DEFAULT_PIVOTS ≡ 20000 }
    ensures most_pivots { MAX_PIVOTS ≡ 1000000 }
    ensures days { DEFAULT_DAYS ≡ 3 }
    ensures least_days { MIN_DAYS ≡ 1 }
    ensures most_days { MAX_DAYS ≡ 30 }
    ensures visits { DEFAULT_VISITS ≡ 200000 }
    ensures most_visits { MAX_VISITS ≡ 1000000 }
    ensures least_dates { MIN_DATES ≡ 1 }
    ensures most_dates { MAX_DATES ≡ 366 }
    ensures most_number { MAX_NUMBER ≡ 2147483647 }
    ensures most_legs { MAX_MADE_LEGS ≡ 1000 }
{}
