use crate::{Config, Page};
use std::test::Fail;

/// The words of a page.
fn words_of(rt: &HostRuntime, page: &Page) -> Result<Vec<i64>, Fail> {
    Ok(Vec::from_slice(rt.alloc(), page.copy(rt.alloc())?.items())?)
}

// Takes what threads may share, and nothing else.
fn may_be_shared<T: Sync>(_value: &T) {}

#[test]
fn a_configuration_keeps_its_limits(rt: HostRuntime) {
    let takes = |nodes, page_words, cache_pages, budget| {
        Config::new(nodes, page_words, cache_pages, budget).is_some()
    };
    assert!(rt; takes(1, 1, 1, 1));
    assert!(rt; takes(16, 64, 65_536, 125_000));
    assert!(rt; takes(3, 2, 64, 666_666));
    assert!(rt; !takes(0, 16, 64, 1));
    assert!(rt; !takes(17, 16, 64, 1));
    assert!(rt; !takes(4, 0, 64, 1));
    assert!(rt; !takes(4, 3, 64, 1));
    assert!(rt; !takes(4, 128, 64, 1));
    assert!(rt; !takes(4, 16, 0, 1));
    assert!(rt; !takes(4, 16, 65_537, 1));
    assert!(rt; !takes(4, 16, 64, 0));
    assert!(rt; !takes(3, 16, 64, 666_667));
}

#[test]
fn words_lie_in_pages_and_pages_at_nodes(rt: HostRuntime) {
    let config = Config::new(4, 16, 64, 500_000).expect(&rt, "within the limits");
    may_be_shared(&config);
    assert_eq!(rt; config.page_of(95), 5);
    assert_eq!(rt; config.page_of(96), 6);
    assert_eq!(rt; config.home_of(5), 1);
    assert_eq!(rt; config.turns(), 768_001_536);
}

#[test]
fn a_page_of_one_word(rt: HostRuntime) -> Result<(), Fail> {
    let mut page = Page::from_words(1, &[7]);
    assert_eq!(rt; page.read(0), 7);
    assert_eq!(rt; page.marked(), 0);
    page.write(0, -8);
    assert_eq!(rt; page.read(0), -8);
    assert_eq!(rt; page.marked(), 1);
    page.merge(1, &[9]);
    assert_eq!(rt; page.marked(), 1);
    page.clean();
    assert_eq!(rt; page.marked(), 0);
    assert_eq!(rt; words_of(&rt, &page)?.as_slice(), [9].as_slice());
    Ok(())
}

#[test]
fn a_page_of_64_words(rt: HostRuntime) -> Result<(), Fail> {
    let mut page = Page::from_words(64, &[1; 64]);
    page.write(63, 2);
    assert_eq!(rt; page.marked(), 1 << 63);
    page.merge(u64::MAX, &[3; 64]);
    assert_eq!(rt; words_of(&rt, &page)?.as_slice(), [3; 64].as_slice());
    assert_eq!(rt; page.marked(), 1 << 63);
    Ok(())
}

#[test]
fn merging_sets_the_marked_words_alone(rt: HostRuntime) -> Result<(), Fail> {
    let mut page = Page::from_words(4, &[1, 2, 3, 4]);
    page.merge(0, &[5, 6, 7, 8]);
    assert_eq!(rt; words_of(&rt, &page)?.as_slice(), [1, 2, 3, 4].as_slice());
    page.merge(0b0100, &[5, 6, 7, 8]);
    assert_eq!(rt; words_of(&rt, &page)?.as_slice(), [1, 2, 7, 4].as_slice());
    page.merge(0b1111, &[5, 6, 7, 8]);
    assert_eq!(rt; words_of(&rt, &page)?.as_slice(), [5, 6, 7, 8].as_slice());
    assert_eq!(rt; page.marked(), 0);
    Ok(())
}
