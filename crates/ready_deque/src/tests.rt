use crate::Deque;
use std::alloc::Global;
use std::test::Fail;

// The deque of 1, 2 and so on, up to this number.
fn counted(alloc: Global, most: u32) -> Result<Deque<u32>, Fail> {
    let mut deque = Deque::new(alloc);
    for item in 1..=most {
        deque.push_bottom(item).map_err(|_| "memory")?;
    }
    Ok(deque)
}

#[test]
fn items_leave_at_both_ends(rt: HostRuntime) -> Result<(), Fail> {
    let mut deque = counted(rt.alloc(), 4)?;
    assert_eq!(rt; deque.len(), 4);
    assert_eq!(rt; deque.pop_bottom(), Some(4));
    assert_eq!(rt; deque.take_top(), Some(1));
    assert_eq!(rt; deque.push_bottom(5), Ok(()));
    assert_eq!(rt; deque.take_top(), Some(2));
    assert_eq!(rt; deque.pop_bottom(), Some(5));
    assert!(rt; !deque.is_empty());
    assert_eq!(rt; deque.pop_bottom(), Some(3));
    assert!(rt; deque.is_empty());
    assert_eq!(rt; deque.pop_bottom(), None);
    assert_eq!(rt; deque.take_top(), None);
    Ok(())
}

#[test]
fn an_item_is_lent_at_each_place(rt: HostRuntime) -> Result<(), Fail> {
    let mut deque = counted(rt.alloc(), 3)?;
    for (place, item) in [(0, 1), (1, 2), (2, 3)] {
        let lent = deque.at_mut(place).ok_or("no item")?;
        assert_eq!(rt; *lent, item);
        *lent = item * 10;
    }
    assert_eq!(rt; deque.at_mut(3), None);
    assert_eq!(rt; deque.take_top(), Some(10));
    assert_eq!(rt; deque.take_top(), Some(20));
    assert_eq!(rt; deque.take_top(), Some(30));
    Ok(())
}
