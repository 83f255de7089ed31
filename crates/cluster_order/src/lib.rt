//! Every run of the written cluster keeps BACKER's rules, as `backer_order` states them over the positions of a run. So what is proved there
//! of such lines of events holds of clusters.
#![tactic(auto)]

ghost use Rattle.std.specs.Prelude.{◌≡◌, ℕ, List, length, map};
ghost use Rattle.backer_order.specs.Edges.{Frames};
ghost use Rattle.backer_order.specs.HomeList.{HomeList};
ghost use Rattle.backer_order.specs.HomeOrder.{ReadsLast};
ghost use Rattle.backer_order.specs.Rules.{Caching};
ghost use Rattle.cluster_order.specs.Reading.{events_of, memory_of};
ghost use Rattle.cluster_order.specs.Standing.{returns_of, stacks_of};
ghost use Rattle.cluster_rules.specs.Moments.{Listed, IsHomeOrder};
ghost use Rattle.cluster_rules.specs.Positions.{course_of};
ghost use Rattle.cluster_rules.specs.Runs.{Cluster, IsLawful};
ghost use Rattle.cluster_rules.specs.Turns.{WholeTurn};

/// A law, nothing is done: the events of lawful turns, of which the latest comes first, keep the rules for pages and adds.
pub fn keeps_page_rules()
    ensures { (cluster : Cluster) (turns : List WholeTurn) → IsLawful cluster turns → Caching (events_of cluster (course_of turns)) (memory_of cluster) }
{}

/// A law, nothing is done: and they keep the rules for frames: how these stand on the stacks of the nodes, that names are fresh, and that all is
/// merged at the homes where a frame or a return goes to another node.
pub fn keeps_frame_rules()
    ensures { (cluster : Cluster) (turns : List WholeTurn) → IsLawful cluster turns → Frames (events_of cluster (course_of turns)) (memory_of cluster) (returns_of cluster (course_of turns)) (stacks_of cluster (course_of turns)) }
{}

/// A law, nothing is done: at each position of lawful turns, each read gives, and each add finds, what the last access before it in the home
/// order of its word left. Programs with races are meant too.
pub fn reads_last_in_home_order()
    ensures { (cluster : Cluster) (turns : List WholeTurn) (now : ℕ) → IsLawful cluster turns → ReadsLast (events_of cluster (course_of turns)) (memory_of cluster) now }
{}

/// A law, nothing is done: the home order of a word in lawful turns, which the moments at its home give, is the order of its accesses in which
/// each reads the last before it. The list has each access once.
pub fn home_order_is_list()
    ensures { (cluster : Cluster) (turns : List WholeTurn) (word : ℕ) (order : List Listed) → IsLawful cluster turns → IsHomeOrder cluster (course_of turns) word order → (home : HomeList (events_of cluster (course_of turns)) (memory_of cluster) (length (course_of turns)) word) × (map (λ entry. entry.at) (home.list) ≡ map (λ one. one.position) order) }
{}
