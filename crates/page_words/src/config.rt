ghost use Rattle.std.specs.Prelude.{◌≡◌, ◌<◌, ◌↔◌, ◌+◌, ◌*◌, IsSome, IfSome};
ghost use Rattle.page_words.specs.Limits.{IsWithinLimits};

/// The most nodes of a cluster.
pub const MOST_NODES: u32 = 16;

/// The most pages that a cache may hold.
pub const MOST_CACHE_PAGES: u32 = 65_536;

/// The most ticks of all nodes together.
pub const MOST_BUDGET: u64 = 2_000_000;

/// The configuration of a cluster.
#[derive(Clone, Copy, Debug, PartialEq, Eq)]
pub struct Config {
    /// How many nodes there are, from 1 to 16.
    pub nodes: u32,
    /// How many words a page has: 1, 2, 4, 8, 16, 32 or 64.
    pub page_words: u32,
    /// How many pages a node's cache holds at most, from 1 to 65,536.
    pub cache_pages: u32,
    /// How many ticks a node may make, from 1 to 2,000,000 / `nodes`.
    pub budget: u64,
    // Every configuration is within the limits.
    pub ghost limits: { IsWithinLimits nodes page_words cache_pages budget },
}

impl Config {
    ghost use Rattle.page_words.specs.Layout.{page_of, home_of, turn_limit};

    /// The configuration of these numbers. None exactly where one of them is outside its limits.
    pub fn new(nodes: u32, page_words: u32, cache_pages: u32, budget: u64) -> Option<Config>
        ensures limits { IsSome result ↔ IsWithinLimits nodes page_words cache_pages budget }
        ensures numbers { IfSome result (λ config. (config.nodes ≡ nodes) × (config.page_words ≡ page_words) × (config.cache_pages ≡ cache_pages) × (config.budget ≡ budget)) }
    {
        if nodes < 1 || nodes > MOST_NODES {
            return None;
        }
        if !matches!(page_words, 1 | 2 | 4 | 8 | 16 | 32 | 64) {
            return None;
        }
        if cache_pages < 1 || cache_pages > MOST_CACHE_PAGES {
            return None;
        }
        if budget < 1 || budget > MOST_BUDGET / u64::from(nodes) {
            return None;
        }
        Some(Config {
            nodes,
            page_words,
            cache_pages,
            budget,
        })
    }

    /// The page that holds this word.
    pub fn page_of(&self, word: u32) -> u32
        ensures { result ≡ page_of self.now word }
    {
        word / self.page_words
    }

    /// The node whose part of the backing store holds this page.
    pub fn home_of(&self, page: u32) -> u32
        ensures home { result ≡ home_of self.now page }
        ensures node { result < self.now.nodes }
    {
        page % self.nodes
    }

    /// How many turns a simulation may take.
    pub fn turns(&self) -> u64
        ensures { result ≡ turn_limit self.now }
    {
        let nodes = u64::from(self.nodes);
        64 * nodes * (nodes + 2) * (self.budget + 1)
    }
}
