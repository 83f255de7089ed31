//! Every run of the written cluster is location consistent. `docs/CONSISTENCY.md` tells why.
#![tactic(auto)]

ghost use Rattle.std.specs.Prelude.{ℕ, List, map, reverse};
ghost use Rattle.cilk_meaning.specs.Parted.{IsParted};
ghost use Rattle.cilk_meaning.specs.Resolved.{Program};
ghost use Rattle.cluster_rules.specs.Histories.{IsHistoryOf};
ghost use Rattle.cluster_rules.specs.Moments.{Listed, IsHomeOrder};
ghost use Rattle.cluster_rules.specs.Positions.{course_of};
ghost use Rattle.cluster_rules.specs.Runs.{Cluster, IsLawful, IsRun, logged};
ghost use Rattle.cluster_rules.specs.Turns.{WholeTurn};
ghost use Rattle.machine_code.specs.StandsFor.{StandsFor, start_words_of};
ghost use Rattle.machine_code.specs.Valid.{IsValid};
ghost use Rattle.page_messages.specs.declared.closure.FrameId.{FrameId};
ghost use Rattle.page_messages.specs.declared.log.Turn.{Turn};
ghost use Rattle.span_tree.specs.History.{History};
ghost use Rattle.span_tree.specs.Memory.{IsLocationConsistent};
ghost use Rattle.word_order.specs.Consistency.{HasOrders, orders_by};

/// A law, nothing is done: whatever well-formed code stands for a program, and whatever nodes, page size, cache capacity and interleaving a run has, ended or not,
/// with races or without, its history is location consistent.
pub fn runs_are_consistent()
    ensures { (cluster : Cluster) (program : Program) (log : List Turn) (frames : List FrameId) (history : History) → IsValid cluster.code → StandsFor cluster.code program → IsParted program → IsRun cluster log → IsHistoryOf cluster.code.main log frames history → HasOrders cluster history }
{}

/// A law, nothing is done: and the orders are the home orders. Where each word has its home order in lawful turns, which the moments at its home
/// give, a history is location consistent by these, each access read as its place: the row of its frame, and how many acts of the frame came before.
pub fn home_orders_are_consistent()
    ensures { (cluster : Cluster) (program : Program) (turns : List WholeTurn) (frames : List FrameId) (history : History) (orders : ℕ → List Listed) → IsValid cluster.code → StandsFor cluster.code program → IsParted program → IsLawful cluster turns → ((word : ℕ) → IsHomeOrder cluster (course_of turns) word (orders word)) → IsHistoryOf cluster.code.main (map logged (reverse turns)) frames history → IsLocationConsistent (start_words_of cluster.code) history (orders_by cluster turns frames orders) }
{}

/// A law, nothing is done: and there is one for each word, in whatever lawful turns.
pub fn each_word_has_a_home_order()
    ensures { (cluster : Cluster) (turns : List WholeTurn) (word : ℕ) → IsLawful cluster turns → (order : List Listed) × IsHomeOrder cluster (course_of turns) word order }
{}
