// The answers of the calls as four numbers. Those on the label file are in `labelled`.
use answers::Refusal;
use encodings::Counted;
use letters::{Make, Parts, Sort};
use std::cmp::Ordering;
use wire::Reply;

// The one number for a simple letter, and the other for a cluster.
fn by_make(make: Make, simple: u32, cluster: u32) -> u32 {
    match make {
        Make::Simple => simple,
        Make::Cluster => cluster,
    }
}

// The sorts as numbers, in the order of document 01, a simple letter before a cluster.
fn number_of(sort: Sort) -> u32 {
    match sort {
        Sort::ModernInitial(make) => by_make(make, 0, 1),
        Sort::OldInitial(make) => by_make(make, 2, 3),
        Sort::InitialFiller => 4,
        Sort::PeakFiller => 5,
        Sort::ModernPeak(make) => by_make(make, 6, 7),
        Sort::OldPeak(make) => by_make(make, 8, 9),
        Sort::ModernFinal(make) => by_make(make, 10, 11),
        Sort::OldFinal(make) => by_make(make, 12, 13),
        Sort::Lv => 14,
        Sort::Lvt => 15,
        Sort::Other => 16,
    }
}

pub(crate) fn sorted(answer: Result<Sort, Refusal>) -> Reply {
    match answer {
        Ok(sort) => wire::done(number_of(sort), 0, 0),
        Err(refusal) => wire::refused(refusal),
    }
}

pub(crate) fn stepped(answer: Result<Parts, Refusal>) -> Reply {
    match answer {
        Ok(Parts::One(only)) => wire::done(1, only, 0),
        Ok(Parts::Two(first, second)) => wire::done(2, first, second),
        Err(refusal) => wire::refused(refusal),
    }
}

pub(crate) fn named(answer: Result<u32, Refusal>) -> Reply {
    match answer {
        Ok(code) => wire::done(code, 0, 0),
        Err(refusal) => wire::refused(refusal),
    }
}

pub(crate) fn read(answer: Result<Counted, Refusal>) -> Reply {
    match answer {
        Ok(found) => wire::counted(found.length, found.ills),
        Err(refusal) => wire::refused(refusal),
    }
}

pub(crate) fn ranked(answer: Result<Ordering, Refusal>) -> Reply {
    match answer {
        Ok(order) => wire::done(ranking::number_of(order), 0, 0),
        Err(refusal) => wire::refused(refusal),
    }
}
