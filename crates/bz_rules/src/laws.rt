//! What is proved of rules and entries.
ghost use Rattle.bz_rules.specs.Laws.{EntriesAreFew, FloorsFollow, HistoriesGoOn, NodesFollow, SeparationsFollow, StopsFollow};
ghost use Rattle.bz_rules.specs.Shapes.{StatesFit};

/// The cuts, the nodes' regions and the posted points of every legal history fit the split.
pub fn states_fit()
    ensures { StatesFit }
{}

/// The history with events that may follow, stamped by a worker, is legal, and units are left unless the search is done.
pub fn histories_go_on()
    ensures { HistoriesGoOn }
{}

/// Where the rules of a floor's answer hold, each of its events may follow.
pub fn floors_follow()
    ensures { FloorsFollow }
{}

/// Where the rules of a stop hold, each of its events may follow.
pub fn stops_follow()
    ensures { StopsFollow }
{}

/// Where the rules of a node's answer hold, each of its events may follow.
pub fn nodes_follow()
    ensures { NodesFollow }
{}

/// Where the rules of a separation's answer hold, each of its events may follow.
pub fn separations_follow()
    ensures { SeparationsFollow }
{}

/// An answer appends at most four entries.
pub fn entries_are_few()
    ensures { EntriesAreFew }
{}
