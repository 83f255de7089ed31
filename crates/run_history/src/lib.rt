//! Every run of the written cluster has a history, so that a law on each history of a run speaks of something.
#![tactic(auto)]

ghost use Rattle.std.specs.Prelude.{List};
ghost use Rattle.cluster_rules.specs.Histories.{IsHistoryOf};
ghost use Rattle.cluster_rules.specs.Runs.{Cluster, IsRun};
ghost use Rattle.page_messages.specs.declared.closure.FrameId.{FrameId};
ghost use Rattle.page_messages.specs.declared.log.Turn.{Turn};
ghost use Rattle.span_tree.specs.History.{History};

/// A law, nothing is done: each run, ended or not, has a history. Its rows are those of the frames that were made, numbered as a depth-first walk
/// over the Spawn acts comes to them.
pub fn each_run_has_a_history()
    ensures { (cluster : Cluster) (log : List Turn) → IsRun cluster log → (frames : List FrameId) × (history : History) × IsHistoryOf cluster.code.main log frames history }
{}
