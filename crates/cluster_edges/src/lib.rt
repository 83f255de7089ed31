//! Every run of the written cluster keeps the rules for edges and those for the ready list, as `backer_order` states them over the positions
//! of a run.
#![tactic(auto)]

ghost use Rattle.std.specs.Prelude.{List};
ghost use Rattle.backer_order.specs.Edges.{Edges};
ghost use Rattle.backer_order.specs.Ready.{ReadyRules};
ghost use Rattle.cilk_meaning.specs.Parted.{IsParted};
ghost use Rattle.cilk_meaning.specs.Resolved.{Program};
ghost use Rattle.cluster_edges.specs.Stages.{stages_of};
ghost use Rattle.cluster_order.specs.Reading.{events_of, memory_of};
ghost use Rattle.cluster_order.specs.Standing.{returns_of, stacks_of};
ghost use Rattle.cluster_rules.specs.Positions.{course_of};
ghost use Rattle.cluster_rules.specs.Runs.{Cluster, IsLawful};
ghost use Rattle.cluster_rules.specs.Turns.{WholeTurn};
ghost use Rattle.machine_code.specs.StandsFor.{StandsFor};

/// A law, nothing is done: the events of lawful turns, of which the latest comes first, keep the rules for edges, where the code stands for a
/// program. That it does is used once: a frame returns only where it has synced with its children.
pub fn keeps_edge_rules()
    ensures { (cluster : Cluster) (program : Program) (turns : List WholeTurn) → StandsFor cluster.code program → IsParted program → IsLawful cluster turns → Edges (events_of cluster (course_of turns)) (memory_of cluster) (returns_of cluster (course_of turns)) (stacks_of cluster (course_of turns)) }
{}

/// A law, nothing is done: and those for the ready list. A frame is taken up from it, once for each time it was sent, and a parked one only where
/// each child that was separated from it has returned to its join.
pub fn keeps_ready_rules()
    ensures { (cluster : Cluster) (turns : List WholeTurn) → IsLawful cluster turns → ReadyRules (events_of cluster (course_of turns)) (stacks_of cluster (course_of turns)) (stages_of cluster (course_of turns)) }
{}
