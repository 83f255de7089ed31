//! What a node must not do, each refused by the rule that says so.

ghost use Rattle.std.specs.Prelude.{◌≡◌, ◌≢◌, ◌<◌, ◌∷◌, ℕ, true, false, Some, List, not};
ghost use Rattle.std.specs.List.{list_any};
ghost use Rattle.cluster_rules.specs.Acting.{MayAct};
ghost use Rattle.cluster_rules.specs.Asks.{asks_of};
ghost use Rattle.cluster_rules.specs.Cache.{drops_item, is_resident, stay, writes};
ghost use Rattle.cluster_rules.specs.Edges.{MayGrant};
ghost use Rattle.cluster_rules.specs.Frames.{highest};
ghost use Rattle.cluster_rules.specs.Home.{owed_home_replies};
ghost use Rattle.cluster_rules.specs.Lives.{Life};
ghost use Rattle.cluster_rules.specs.Node.{Node, page_of, word_of};
ghost use Rattle.cluster_rules.specs.Paging.{IsSending, MayDrop, MayTakeUp};
ghost use Rattle.cluster_rules.specs.Runs.{MaySend, OwesNothing};
ghost use Rattle.cluster_rules.specs.Sendings.{is_dirty, marks, sends_word};
ghost use Rattle.cluster_rules.specs.Turns.{Past, Waits, WholeTurn, takes_at};
ghost use Rattle.page_messages.specs.declared.closure.Closure.{Closure};
ghost use Rattle.page_messages.specs.declared.closure.FrameId.{FrameId};
ghost use Rattle.page_messages.specs.declared.closure.JoinId.{JoinId};
ghost use Rattle.page_messages.specs.declared.log.Item.{Item};
ghost use Rattle.page_messages.specs.declared.log.LoggedAct.TheVariants.{Sync};
ghost use Rattle.page_messages.specs.declared.log.PostAt.{PostAt};
ghost use Rattle.page_messages.specs.declared.message.Msg.{Msg};
ghost use Rattle.page_messages.specs.declared.parts.Part.{Part};

/// A Grant of a node that wrote a word and never sent it home: reconcile before an edge.
pub fn grant_before_reconcile_is_refused()
    ensures { (node : Node) (past : Past) (receiver : ℕ) (closure : Closure) (word : ℕ) → list_any (writes word) past ≡ true → list_any (sends_word node word) past ≡ false → ¬ MayGrant node past receiver closure }
{}

/// A TakeUp without a Drop of a resident page behind it: empty cache at take-up.
pub fn keeping_a_page_at_take_up_is_refused()
    ensures { (node : Node) (past : Past) (frame : FrameId) (rest : List Item) (page : ℕ) → is_resident page past ≡ true → list_any (drops_item page) rest ≡ false → ¬ MayTakeUp node past frame rest }
{}

/// A sending that marks a word which is not dirty: marked reconcile.
pub fn sending_a_clean_word_is_refused()
    ensures { (node : Node) (past : Past) (home : ℕ) (part : Part) (place : ℕ) → place < node.config.page_words → marks part.mask place ≡ true → is_dirty node (word_of node part.page place) past ≡ false → ¬ IsSending node past home part }
{}

/// A Drop of a page of which a word was written since it arrived, and never sent home: clean drop.
pub fn dropping_a_dirty_page_is_refused()
    ensures { (node : Node) (past : Past) (word : ℕ) (rest : List Item) (posts : List Msg) → list_any (writes word) (stay (page_of node word) past) ≡ true → list_any (sends_word node word) (stay (page_of node word) past) ≡ false → ¬ MayDrop node past (page_of node word) rest posts }
{}

/// Another message than the reply that is owed first, as a Page of other words: home replies.
pub fn another_reply_is_refused()
    ensures { (node : Node) (past : Past) (due message : Msg) (later : List Msg) → owed_home_replies node past ≡ due ∷ later → message ≢ due → ¬ MaySend node past message }
{}

/// A Sync of a frame whose join is not complete: stack order.
pub fn sync_before_its_join_is_refused()
    ensures { (node : Node) (past : Past) (life : Life) (join : JoinId) (frame : FrameId) (index : ℕ) → highest node past ≡ Some life → life.join ≡ Some join → ¬ MayAct node past frame index Sync }
{}

/// A message that was taken before: delivery.
pub fn taking_twice_is_refused()
    ensures { (older : List WholeTurn) (receiver : ℕ) (place : PostAt) (message : Msg) → list_any (λ turn. takes_at place turn.took) older ≡ true → ¬ Waits older receiver place message }
{}

/// A turn that leaves an Ask unanswered which came when the node had no frame: asks and grants.
pub fn keeping_an_ask_of_an_idle_node_is_refused()
    ensures { (node : Node) (past : Past) → list_any (λ ask. not ask.kept) (asks_of node past) ≡ true → ¬ OwesNothing node past }
{}
