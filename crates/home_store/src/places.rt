ghost use Rattle.std.specs.Prelude.{◌≡◌, ◌+◌, ◌<◌, ◌≤◌, ◌^◌, ℕ};
ghost use Rattle.page_words.specs.Layout.{page_of};
ghost use Rattle.home_store.specs.Places as layout;
ghost use Rattle.home_store.specs.Places.{IsPageOf};

use page_words::Config;

/// How many places the home at this node has, where the program shares so many words.
pub fn places(node: u32, config: &Config, shared: u32) -> usize
    ensures places { (page : ℕ) → IsPageOf config.now shared node page → layout.first_place config.now page + config.now.page_words ≤ result }
    ensures used { (place : ℕ) → place < result → IsPageOf config.now shared node (page_of config.now (layout.word_at config.now node place)) }
    ensures few { result < 2 ^ 33 }
{
    if node >= config.nodes {
        return 0;
    }
    // Pages go round the nodes: in a round each node gets one.
    let round = config.nodes * config.page_words;
    let rounds = shared
        .saturating_sub(node * config.page_words)
        .div_ceil(round);
    rounds as usize * config.page_words as usize
}

/// The word at this place of the home at this node.
pub fn word_at(config: &Config, node: u32, place: usize) -> u64
    requires { place < 2 ^ 33 }
    ensures { result ≡ layout.word_at config.now node place }
{
    let place = place as u64;
    let page_words = u64::from(config.page_words);
    let page = place / page_words * u64::from(config.nodes) + u64::from(node);
    page * page_words + place % page_words
}

/// The place at which the words of this page begin in its home.
pub fn first_place(config: &Config, page: u32) -> usize
    ensures { result ≡ layout.first_place config.now page }
{
    (page / config.nodes) as usize * config.page_words as usize
}
