// Retargeting: which latches a run opens, the string of bits of each of its passes, and what the run does to a network.
// Definitions stand in specs/; the laws of them are promised here, each by a function.
#![tactic(auto)]

ghost use Rattle.retarget.specs.Wants.{NeededLeadsToWanted};
ghost use Rattle.retarget.specs.Laws.{WalkByShapes, StringNamesItsCells, ConfigurationOpensTheWay, RunWritesAndReads};
ghost use Rattle.retarget.specs.Cases.{WorkedStrings};

pub fn needed_leads_to_wanted()
    ensures { NeededLeadsToWanted }
{}

pub fn walk_by_shapes()
    ensures { WalkByShapes }
{}

pub fn string_names_its_cells()
    ensures { StringNamesItsCells }
{}

pub fn configuration_opens_the_way()
    ensures { ConfigurationOpensTheWay }
{}

pub fn run_writes_and_reads()
    ensures { RunWritesAndReads }
{}

pub fn worked_strings()
    ensures { WorkedStrings }
{}
