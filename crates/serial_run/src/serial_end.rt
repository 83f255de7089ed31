use cilk_meaning::NodeEnd;
use outside::Words;
use span_tree::History;

/// What a serial run leaves: how it ended, the history of what it did, the value of each shared word, and how many ticks it made.
#[derive(Debug, Drop)]
pub struct SerialEnd {
    pub end: NodeEnd,
    pub history: History,
    pub memory: Words,
    pub ticks: u64,
}
