// The laws of the grid, each on the contract of a function that does nothing. C is the type of costs.
ghost use Rattle.tries.specs.Laws.{FindsTheBest, ChoosesTheBestMatch, PathIs, VisitsAre, VisitsFew, KeysAre, NodesFew, NoFilters, OrderIsNothing, StandingRanks, StandingsDiffer, StandingsDecide};
ghost use Rattle.tries.specs.Worked.{WorkedSearches};

// A search chooses what the reading of every filter chooses.
pub fn finds_the_best<C>()
    ensures { FindsTheBest C }
{}

// A search chooses the best match, or none where no filter matches.
pub fn chooses_the_best_match<C>()
    ensures { ChoosesTheBestMatch C }
{}

// At each prefix of the source address a search visits the node of the longest destination prefix that has one, and no other.
pub fn path_is<C>()
    ensures { PathIs C }
{}

// A search visits the nodes of the longest destination string on its way, and those of the longest source string that it reaches.
pub fn visits_are<C>()
    ensures { VisitsAre C }
{}

// A search visits at most one node for each bit and the two roots, and never more than backtracking.
pub fn visits_few<C>()
    ensures { VisitsFew C }
{}

// The nodes that are counted are those that there are.
pub fn keys_are<C>()
    ensures { KeysAre C }
{}

// A build uses at most one node and, for each filter, both widths and one more.
pub fn nodes_few<C>()
    ensures { NodesFew C }
{}

// A grid of no filters has no node, and a search of it visits none and chooses none.
pub fn no_filters<C>()
    ensures { NoFilters C }
{}

// The order of the filters does not matter.
pub fn order_is_nothing<C>()
    ensures { OrderIsNothing C }
{}

// The better of two filters stands before the other.
pub fn standing_ranks<C>()
    ensures { StandingRanks C }
{}

// No two filters of a book have one standing.
pub fn standings_differ<C>()
    ensures { StandingsDiffer C }
{}

// Of two filters of a book the better is the one with the smaller standing.
pub fn standings_decide<C>()
    ensures { StandingsDecide C }
{}

// Searches worked by hand come out as worked.
pub fn worked_searches()
    ensures { WorkedSearches }
{}
