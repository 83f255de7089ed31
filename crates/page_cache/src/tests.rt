use crate::Cache;
use page_words::Page;
use std::alloc::Global;
use std::test::Fail;

// Takes what may move between threads, and nothing else.
fn may_move<T: Send>(_value: &T) {}

// Inserts a clean page of one word, where there is room and it is absent.
fn insert(cache: &mut Cache, number: u32) -> Result<(), Fail> {
    if cache.victim().is_some() || cache.peek_mut(number).is_some() {
        return Err("no room, or resident".into());
    }
    cache.insert(number, Page::from_words(1, &[0]))?;
    Ok(())
}

// Marks a page that is resident and clean.
fn mark(page: Option<&mut Page>) -> Result<(), Fail> {
    let page = page.ok_or("absent")?;
    if page.marked() != 0 {
        return Err("dirty".into());
    }
    page.write(0, 1);
    Ok(())
}

// Drops a page that is resident and clean.
fn drop_page(cache: &mut Cache, number: u32) -> Result<(), Fail> {
    if cache.next_resident(number) != Some(number) || cache.is_dirty(number) {
        return Err("absent, or dirty".into());
    }
    cache.drop_clean(number);
    Ok(())
}

#[test]
fn the_victim_is_the_least_recently_used(rt: HostRuntime) -> Result<(), Fail> {
    let mut cache = Cache::new(rt.alloc(), 2)?;
    may_move(&cache);
    assert_eq!(rt; cache.victim(), None);
    insert(&mut cache, 5)?;
    insert(&mut cache, 9)?;
    assert_eq!(rt; cache.victim(), Some(5));
    assert!(rt; cache.touch(5).is_some());
    assert_eq!(rt; cache.victim(), Some(9));
    assert!(rt; cache.touch(7).is_none());
    mark(cache.touch(5))?;
    assert_eq!(rt; cache.next_dirty(0), Some(5));
    drop_page(&mut cache, 9)?;
    assert_eq!(rt; cache.victim(), None);
    Ok(())
}

#[test]
fn a_cache_of_one_page(rt: HostRuntime) -> Result<(), Fail> {
    let mut cache = Cache::new(rt.alloc(), 1)?;
    insert(&mut cache, u32::MAX)?;
    assert_eq!(rt; cache.victim(), Some(u32::MAX));
    assert_eq!(rt; cache.next_resident(0), Some(u32::MAX));
    assert_eq!(rt; cache.next_dirty(u32::MAX), None);
    mark(cache.peek_mut(u32::MAX))?;
    assert!(rt; cache.is_dirty(u32::MAX));
    assert_eq!(rt; cache.next_dirty(u32::MAX), Some(u32::MAX));
    cache.peek_mut(u32::MAX).ok_or("absent")?.clean();
    drop_page(&mut cache, u32::MAX)?;
    assert_eq!(rt; cache.next_resident(0), None);
    Ok(())
}

#[test]
fn pages_are_gone_through_by_number(rt: HostRuntime) -> Result<(), Fail> {
    let mut cache = Cache::new(rt.alloc(), 4)?;
    for number in [7, 3, 9, 5] {
        insert(&mut cache, number)?;
    }
    for number in [9, 3] {
        mark(cache.touch(number))?;
    }
    assert_eq!(rt; cache.next_resident(4), Some(5));
    assert_eq!(rt; cache.next_dirty(0), Some(3));
    assert_eq!(rt; cache.next_dirty(4), Some(9));
    assert_eq!(rt; cache.next_dirty(9), Some(9));
    assert_eq!(rt; cache.next_dirty(10), None);
    assert_eq!(rt; cache.next_resident(10), None);
    Ok(())
}

#[derive(Clone, Copy)]
enum Step {
    Touch(u32),
    Insert(u32),
    Drop(u32),
}

const STEPS: [Step; 9] = [
    Step::Touch(1),
    Step::Touch(2),
    Step::Touch(3),
    Step::Insert(1),
    Step::Insert(2),
    Step::Insert(3),
    Step::Drop(1),
    Step::Drop(2),
    Step::Drop(3),
];

// Makes the step on a cache of three pages and on a plain list of numbers, the most recently used first. A step
// that is not allowed is left out.
fn make(step: Step, cache: &mut Cache, plain: &mut Vec<u32>) -> Result<(), Fail> {
    match step {
        Step::Touch(number) => {
            let found = plain.iter().position(|n| *n == number);
            if cache.touch(number).is_some() != found.is_some() {
                return Err("touched otherwise".into());
            }
            if let Some(place) = found {
                plain.remove(place);
                plain.insert(0, number)?;
            }
        }
        Step::Insert(number) => {
            if !plain.contains(&number) {
                plain.insert(0, number)?;
                insert(cache, number)?;
            }
        }
        Step::Drop(number) => {
            if let Some(place) = plain.iter().position(|n| *n == number) {
                plain.remove(place);
                drop_page(cache, number)?;
            }
        }
    }
    Ok(())
}

// The numbers of a cache of three pages, the least recently used first: fresh pages push them out.
fn pushed_out(alloc: Global, cache: &mut Cache) -> Result<Vec<u32>, Fail> {
    let mut numbers = Vec::new(alloc);
    for fresh in 10..16 {
        if let Some(victim) = cache.victim() {
            if victim < 10 {
                numbers.push(victim)?;
            }
            drop_page(cache, victim)?;
        }
        insert(cache, fresh)?;
    }
    Ok(numbers)
}

#[test]
fn three_pages_in_every_order(rt: HostRuntime) -> Result<(), Fail> {
    let alloc = rt.alloc();
    for code in 0..729 {
        let mut cache = Cache::new(alloc, 3)?;
        let mut plain = Vec::new(alloc);
        for number in 1..=3 {
            make(Step::Insert(number), &mut cache, &mut plain)?;
        }
        for digit in [code / 81, code / 9, code] {
            make(STEPS[digit % 9], &mut cache, &mut plain)?;
        }
        plain.reverse();
        assert!(rt;
            pushed_out(alloc, &mut cache)? == plain,
            "after steps {code}"
        );
    }
    Ok(())
}
