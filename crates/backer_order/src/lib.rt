//! Why a run of Cilk on distributed memory is location consistent: BACKER's rules, one record each, and the proof that they are enough.
//!
//! A run is one line of events, and a rule is asked at every position of it. Nothing here speaks of turns, codes or caches as they are
//! programmed: a cluster is location consistent as soon as its logs are seen as such lines and keep these rules.
//!
//! The rules for pages are those of Blumofe, Frigo, Joerg, Leiserson and Randall, "Dag-consistent distributed shared memory" (1996): use a
//! page in the cache, fetch it from its home, reconcile it there, flush the cache; reconcile before an edge of the dag leaves a node, and flush
//! behind one that comes in. Location consistency is that of Frigo, "The weakest reasonable memory model" (1998): each word has one order of
//! all its accesses, which keeps the dag, and each read gives the last write before it. Here adds that the home does are accesses too.
#![tactic(auto)]

ghost use Rattle.backer_order.specs.Dag.{LocationConsistent};
ghost use Rattle.backer_order.specs.HomeOrder.{EachReadsLast};

/// By the rules for pages and adds, each read gives, and each add finds, what the last access before it in the home order of the word left.
/// Nothing is asked of frames or edges here, so this holds of programs with races too.
pub fn each_reads_last()
    ensures { EachReadsLast }
{}

/// By the rules for pages, adds, edges and the ready list, a run is location consistent at each of its positions: the home order lists each
/// access of a word once, keeps the dag of spawn and sync, and gives each read the last write before it.
pub fn consistent()
    ensures { LocationConsistent }
{}
