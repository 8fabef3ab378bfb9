use crate::graph::{Fork, Sorted};
use crate::sorting::sort;
use std::alloc::Global;
use std::process::Abort;

const NONE: Fork = Fork {
    first: None,
    second: None,
};

fn to(first: u32) -> Fork {
    Fork {
        first: Some(first),
        second: None,
    }
}

fn fork(first: u32, second: u32) -> Fork {
    Fork {
        first: Some(first),
        second: Some(second),
    }
}

/// The numbers of the nodes, where the graph has an order.
fn check_ranks(rt: &impl Abort, alloc: Global, graph: &[Fork], expected: &[u32]) {
    if graph.len() > 100 {
        panic!(rt; "too many nodes");
    }
    let found = sort(alloc, graph);
    match found {
        Ok(Sorted::Ranks(ranks)) => assert_eq!(rt; ranks.as_slice(), expected),
        Ok(Sorted::Cycle(_)) => panic!(rt; "a cycle"),
        Err(_) => panic!(rt; "no memory"),
    }
}

/// The cycle that is found.
fn check_cycle(rt: &impl Abort, alloc: Global, graph: &[Fork], expected: &[u32]) {
    if graph.len() > 100 {
        panic!(rt; "too many nodes");
    }
    let found = sort(alloc, graph);
    match found {
        Ok(Sorted::Cycle(nodes)) => assert_eq!(rt; nodes.as_slice(), expected),
        Ok(Sorted::Ranks(_)) => panic!(rt; "an order"),
        Err(_) => panic!(rt; "no memory"),
    }
}

#[test]
fn orders(rt: HostRuntime) {
    let alloc = rt.alloc();
    check_ranks(&rt, alloc, &[], &[]);
    check_ranks(&rt, alloc, &[NONE, NONE], &[0, 1]);
    check_ranks(&rt, alloc, &[to(1), to(2), NONE], &[2, 1, 0]);
    check_ranks(&rt, alloc, &[fork(2, 1), to(3), to(3), NONE], &[3, 2, 1, 0]);
    check_ranks(&rt, alloc, &[to(7), NONE], &[0, 1]);
}

#[test]
fn cycles(rt: HostRuntime) {
    let alloc = rt.alloc();
    check_cycle(&rt, alloc, &[to(0)], &[0]);
    check_cycle(&rt, alloc, &[to(1), to(0)], &[0, 1]);
    check_cycle(&rt, alloc, &[to(2), to(3), to(1), to(2)], &[1, 3, 2]);
    check_cycle(&rt, alloc, &[to(1), fork(3, 2), NONE, fork(2, 1)], &[1, 3]);
}
