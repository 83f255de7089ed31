ghost use Rattle.std.specs.Prelude.{◌≡◌, ◌↔◌, ◌++◌, ◌∷◌, ℕ, ℤ, pos, false, true, None, Some, List, [], All, Contains, reverse, slice_index_or};
ghost use Rattle.std.specs.List.{list_any};
ghost use Rattle.cluster_rules.specs.Allowed.{AllAllowed, IsAllowed};
ghost use Rattle.cluster_rules.specs.Cache.{cached, is_resident, writes};
ghost use Rattle.cluster_rules.specs.Home.{changes, stored};
ghost use Rattle.cluster_rules.specs.Node.{Node, page_of, place_of, start_word};
ghost use Rattle.cluster_rules.specs.Positions.{Moved, at, before, course_of, own};
ghost use Rattle.cluster_rules.specs.Runs.{Cluster, IsLawful, IsNext, IsOver, IsRun, deeds_of, node_at};
ghost use Rattle.cluster_rules.specs.Sendings.{is_dirty};
ghost use Rattle.cluster_rules.specs.Turns.{IsDelivered, Past, WholeTurn, past_of, posted_at};
ghost use Rattle.cluster_rules.specs.Walking.{given};
ghost use Rattle.cluster_rules.specs.Written.{Arrival, IsUnsent, LastChange, LastWrite};
ghost use Rattle.page_messages.specs.Fitting.{BodyFits, ItemFits, NoteFits};
ghost use Rattle.page_messages.specs.declared.log.Turn.{Turn};

/// A law, nothing is done: turns with one more are lawful exactly where the turns are, and that turn may come next, which it may
/// only where they have no end.
pub fn with_one_more_turn()
    ensures { (cluster : Cluster) (turns : List WholeTurn) (turn : WholeTurn) → (IsLawful cluster (reverse (turns ++ turn ∷ [])) ↔ (IsLawful cluster (reverse turns) × IsNext cluster (reverse turns) turn)) }
{}

/// A law, nothing is done: a run that is cut after a turn is a run.
pub fn cut_is_run()
    ensures { (cluster : Cluster) (log more : List Turn) → IsRun cluster (log ++ more) → IsRun cluster log }
{}

/// A law, nothing is done: what a node may do next is decided by its own past and the message that it takes. Only that this message
/// waits, and that the turns have no end, is decided by all turns.
pub fn own_past_decides()
    ensures { (cluster : Cluster) (older other : List WholeTurn) (turn same : WholeTurn) → same.node ≡ turn.node → deeds_of same ≡ deeds_of turn → past_of turn.node other ≡ past_of turn.node older → posted_at other same.took ≡ posted_at older turn.took → ¬ IsOver other → IsDelivered other turn.node same.took (posted_at other same.took) → IsNext cluster older turn → IsNext cluster other same }
{}

/// A law, nothing is done: in lawful turns each event of a node is allowed by what the node did and took before.
pub fn each_event_is_allowed()
    ensures { (cluster : Cluster) (turns : List WholeTurn) (number : ℕ) → IsLawful cluster turns → AllAllowed (node_at cluster number) (past_of number turns) }
{}

/// A law, nothing is done: in lawful turns the event at each position is allowed by what its node did and took before.
pub fn each_position_is_allowed()
    ensures { (cluster : Cluster) (turns : List WholeTurn) (position : ℕ) (moved : Moved) → IsLawful cluster turns → at (course_of turns) position ≡ Some moved → IsAllowed (node_at cluster moved.node) (own moved.node (before (course_of turns) position)) moved.event }
{}

/// A law, nothing is done: a resident page has been so since an arrival, with no Drop of it behind that.
pub fn resident_page_arrived()
    ensures { (page : ℕ) (past : Past) → is_resident page past ≡ true → (words : List ℤ) × Arrival page past words }
{}

/// A law, nothing is done: a cached word that was written since the arrival of its page is the last Write of it.
pub fn cached_word_is_last_write()
    ensures { (node : Node) (word : ℕ) (value : ℤ) (past : Past) (words : List ℤ) (arrival : Arrival (page_of node word) past words) → LastWrite word value arrival.newer → cached node word past ≡ value }
{}

/// A law, nothing is done: a cached word that was not written since the arrival of its page is the word in that arrival.
pub fn cached_word_is_arrived()
    ensures { (node : Node) (word : ℕ) (past : Past) (words : List ℤ) (arrival : Arrival (page_of node word) past words) → list_any (writes word) arrival.newer ≡ false → cached node word past ≡ slice_index_or words (place_of node word) (pos 0) }
{}

/// A law, nothing is done: a dirty word was written, and its page has neither arrived nor been sent since.
pub fn dirty_word_is_unsent()
    ensures { (node : Node) (word : ℕ) (past : Past) → is_dirty node word past ≡ true → IsUnsent node word past }
{}

/// A law, nothing is done: a stored word is what its last change left.
pub fn stored_word_is_last_change()
    ensures { (node : Node) (word : ℕ) (value : ℤ) (past : Past) → LastChange node word value past → stored node word past ≡ value }
{}

/// A law, nothing is done: a stored word that was not changed is its start word.
pub fn stored_word_is_start_word()
    ensures { (node : Node) (word : ℕ) (past : Past) → given (changes node word) past ≡ None → stored node word past ≡ start_word node word }
{}

/// A law, nothing is done: what a turn of lawful turns holds fits the configuration, each item and each message that is posted.
pub fn what_turns_hold_fits()
    ensures { (cluster : Cluster) (turns : List WholeTurn) (turn : WholeTurn) → IsLawful cluster turns → Contains turns turn → All (ItemFits cluster.config) turn.items × All (λ message. BodyFits cluster.config message.body) turn.posts }
{}

/// A law, nothing is done: and so does what the log of a run has of it.
pub fn what_runs_hold_fits()
    ensures { (cluster : Cluster) (log : List Turn) (turn : Turn) → IsRun cluster log → Contains log turn → All (ItemFits cluster.config) turn.items × All (λ post. NoteFits cluster.config post.note) turn.posts }
{}
