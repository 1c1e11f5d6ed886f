// Lists, boxes and shared values, also of a type that holds itself through them.
use crate::answers::crosses;
use seqs::{Arc, Box, Seq, new_seq};
use std::alloc::{AllocError, Global};
use std::cmp::Ordering;
use std::hash::{DefaultHasher, Hash, Hasher};
use std::test::Fail;

#[derive(PartialEq, Eq, PartialOrd, Ord, Hash, Drop)]
enum Tree {
    Leaf(u32),
    Over(Box<Tree>),
    Row(Seq<Tree>),
}

fn copy_is(list: &Seq<u64>, wanted: &[u64]) -> bool {
    match list.copied(list.allocator()) {
        Ok(copy) => copy.as_slice() == wanted,
        Err(_) => false,
    }
}

fn has_alone(list: &Seq<u64>, item: u64) -> bool {
    match list.get(0) {
        Some(first) => *first == item && list.get(1).is_none() && list.len() == 1,
        None => false,
    }
}

#[test]
fn pushed_item_is_first_and_only(rt: HostRuntime) {
    let mut list = new_seq(rt.alloc());
    assert!(rt; list.is_empty());
    assert!(rt; list.push(5).is_ok());
    assert!(rt; has_alone(&list, 5));
    assert!(rt; copy_is(&list, &[5]));
}

fn over(alloc: Global, number: u32) -> Result<Tree, AllocError> {
    Ok(Tree::Over(Box::new(alloc, Tree::Leaf(number))?))
}

// The same, with its box emptied and filled again.
fn over_again(alloc: Global, number: u32) -> Result<Tree, AllocError> {
    let leaf = Box::new(alloc, Tree::Leaf(number))?;
    let again = Box::new(leaf.allocator(), leaf.into_inner())?;
    Ok(Tree::Over(again))
}

fn row(alloc: Global, first: Tree, second: Tree) -> Result<Tree, AllocError> {
    let mut list = new_seq(alloc);
    list.push(first)?;
    list.push(second)?;
    Ok(Tree::Row(list))
}

#[test]
fn trees_are_compared_by_what_they_hold(rt: HostRuntime) -> Result<(), Fail> {
    let low = over(rt.alloc(), 3)?;
    let high = over_again(rt.alloc(), 4)?;
    assert_eq!(rt; low.cmp(&high), Ordering::Less);
    let row = row(rt.alloc(), low, high)?;
    assert_eq!(rt; row.cmp(&Tree::Leaf(9)), Ordering::Greater);
    crosses(&row);
    Ok(())
}

fn hash_of<T: Hash>(value: &T) -> u64 {
    let mut state = DefaultHasher::new();
    value.hash(&mut state);
    state.finish()
}

#[test]
fn trees_made_apart_hash_alike(rt: HostRuntime) -> Result<(), Fail> {
    let low = over(rt.alloc(), 3)?;
    let again = over_again(rt.alloc(), 3)?;
    assert!(rt; hash_of(&low) == hash_of(&again));
    let row = row(rt.alloc(), low, again)?;
    assert!(rt; hash_of(&row) != hash_of(&Tree::Leaf(3)));
    assert!(rt; hash_of(&Arc::new(rt.alloc(), Tree::Leaf(3))?) == hash_of(&Tree::Leaf(3)));
    Ok(())
}

fn clone_is(shared: &Arc<Tree>, wanted: &Tree) -> bool {
    match shared.clone() {
        Ok(clone) => {
            crosses(&clone);
            clone.get() == wanted
        }
        Err(_) => false,
    }
}

#[test]
fn clone_shares_the_value(rt: HostRuntime) -> Result<(), Fail> {
    let shared = Arc::new(rt.alloc(), Tree::Leaf(7))?;
    assert!(rt; clone_is(&shared, &Tree::Leaf(7)));
    crosses(&shared);
    Ok(())
}
