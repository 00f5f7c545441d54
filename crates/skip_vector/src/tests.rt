//! What a scan finds in the sets of one size of a clique of four, with numbers that were computed by hand.
ghost use Rattle.std.specs.Prelude.{◌≡◌, ◌≤◌, ◌<◌, length};

use crate::{Free, SkipPart};
use dpe_base::{RelSet, Steps};
use std::marker::Brand;
use std::sync::ledger::{Blank, Ledger};
use std::test::Fail;

fn scan_counting<L: Ledger>(part: &SkipPart, from: usize, x: RelSet, blank: Blank) -> Free
    requires from { from ≤ length part.now }
    requires name { blank.name ≡ L.name }
    requires parts { blank.parts ≡ L.parts }
    requires some { 0 < L.parts }
{
    let mut steps = Steps::<L>::new(blank);
    part.next_free(from, x, &mut steps)
}

fn scan(part: &SkipPart, from: usize, x: RelSet) -> Free
    requires from { from ≤ length part.now }
{
    scan_counting::<Brand>(part, from, x, Blank::new(1))
}

// A set, a start, the place and the entry that are found, and the number of probes.
type Scan = (u32, usize, Option<(usize, u32)>, u64);

// The first set and start at which the scan gives something else.
fn first_other_scan(part: &SkipPart, scans: &[Scan]) -> Option<(u32, usize)> {
    for scanned in scans {
        let (x, from, found, probes) = *scanned;
        if from > part.len() {
            return Some((x, from));
        }
        let free = scan(part, from, RelSet::of_bits(x));
        let seen = match free.found {
            Some((place, entry)) => Some((place, entry.bits())),
            None => None,
        };
        if seen != found || free.probes != probes {
            return Some((x, from));
        }
    }
    None
}

// How many entries all scans for a set look at, from a place on.
fn probes_from(part: &SkipPart, from: usize, x: u32) -> u64 {
    let mut place = from;
    let mut probes = 0u64;
    for _ in 0..part.len() {
        if place >= part.len() {
            return probes;
        }
        let free = scan(part, place, RelSet::of_bits(x));
        probes = probes.saturating_add(free.probes);
        match free.found {
            None => return probes,
            Some((found, _)) => place = found.saturating_add(1),
        }
    }
    probes
}

// The first set, with where its scans begin, that takes another number of probes.
fn first_other_count(part: &SkipPart, counts: &[(u32, usize, u64)]) -> Option<(u32, usize)> {
    for counted in counts {
        let (x, from, probes) = *counted;
        if probes_from(part, from, x) != probes {
            return Some((x, from));
        }
    }
    None
}

// The first place and length at which the next place with another prefix is something else.
fn first_other_place(
    part: &SkipPart,
    entries: &[RelSet],
    places: &[(usize, usize, usize)],
) -> Option<(usize, usize)>
    requires { part.now ≡ entries.now }
{
    for row in places {
        let (i, prefix_len, after) = *row;
        if i >= entries.len() {
            return Some((i, prefix_len));
        }
        if prefix_len < 1 || prefix_len > entries[i].len() as usize {
            return Some((i, prefix_len));
        }
        if part.after(i, prefix_len) != after {
            return Some((i, prefix_len));
        }
    }
    None
}

#[test]
fn the_single_relations(rt: HostRuntime) -> Result<(), Fail> {
    let entries = [
        RelSet::of_bits(1),
        RelSet::of_bits(2),
        RelSet::of_bits(4),
        RelSet::of_bits(8),
    ];
    let part = SkipPart::make(rt.alloc(), &entries)?;
    let scans = [
        (0, 0, Some((0, 1)), 1),
        (0b0101, 0, Some((1, 2)), 2),
        (0b0101, 2, Some((3, 8)), 2),
        (0b0111, 0, Some((3, 8)), 4),
        (0b1111, 0, None, 4),
        (0b1000, 3, None, 1),
        (0, 4, None, 0),
    ];
    assert_eq!(rt; first_other_scan(&part, &scans), None);
    let places = [(0, 1, 1), (1, 1, 2), (3, 1, 4)];
    assert_eq!(rt; first_other_place(&part, &entries, &places), None);
    // each relation with those after it
    let counts = [(1, 1, 3), (2, 2, 2), (4, 3, 1), (8, 4, 0)];
    assert_eq!(rt; first_other_count(&part, &counts), None);
    Ok(())
}

// 01, 02, 03, 12, 13, 23
#[test]
fn the_sets_of_two(rt: HostRuntime) -> Result<(), Fail> {
    let entries = [
        RelSet::of_bits(3),
        RelSet::of_bits(5),
        RelSet::of_bits(9),
        RelSet::of_bits(6),
        RelSet::of_bits(10),
        RelSet::of_bits(12),
    ];
    let part = SkipPart::make(rt.alloc(), &entries)?;
    let scans = [
        // 01 and 12: 02 and 03 begin with 0 as well
        (0b0001, 0, Some((3, 6)), 2),
        (0b0001, 2, Some((3, 6)), 2),
        (0b0010, 0, Some((1, 5)), 2),
        (0b0010, 2, Some((2, 9)), 1),
        // 12 and 23
        (0b0010, 3, Some((5, 12)), 2),
        // 01, 12 and 23
        (0b0011, 0, Some((5, 12)), 3),
        (0b0011, 1, Some((5, 12)), 3),
        (0b0100, 0, Some((0, 3)), 1),
        (0b0100, 1, Some((2, 9)), 2),
        (0b0100, 3, Some((4, 10)), 2),
        // 01, 12 and 13
        (0b0101, 0, Some((4, 10)), 3),
        (0b1000, 2, Some((3, 6)), 2),
        (0b1000, 4, None, 2),
        (0b1100, 0, Some((0, 3)), 1),
        // each but 01
        (0b1100, 1, None, 5),
        // 01, 12 and 23
        (0b1111, 0, None, 3),
        (0, 5, Some((5, 12)), 1),
        (0, 6, None, 0),
    ];
    assert_eq!(rt; first_other_scan(&part, &scans), None);
    let places = [
        (0, 1, 3),
        (1, 1, 3),
        (2, 1, 3),
        (3, 1, 5),
        (4, 1, 5),
        (5, 1, 6),
        (0, 2, 1),
        (2, 2, 3),
        (5, 2, 6),
    ];
    assert_eq!(rt; first_other_place(&part, &entries, &places), None);
    // each relation with all of them, and each of them with those after it
    let counts = [
        (1, 0, 4),
        (2, 0, 5),
        (4, 0, 6),
        (8, 0, 6),
        (3, 1, 3),
        (5, 2, 4),
        (9, 3, 3),
        (6, 4, 2),
        (10, 5, 1),
        (12, 6, 0),
    ];
    assert_eq!(rt; first_other_count(&part, &counts), None);
    Ok(())
}

// 012, 013, 023, 123
#[test]
fn the_sets_of_three(rt: HostRuntime) -> Result<(), Fail> {
    let entries = [
        RelSet::of_bits(7),
        RelSet::of_bits(11),
        RelSet::of_bits(13),
        RelSet::of_bits(14),
    ];
    let part = SkipPart::make(rt.alloc(), &entries)?;
    let scans = [
        (0b0001, 0, Some((3, 14)), 2),
        // 012 and 023: 013 begins with 01 as well
        (0b0010, 0, Some((2, 13)), 2),
        (0b0010, 1, Some((2, 13)), 2),
        (0b0010, 3, None, 1),
        (0b0100, 0, Some((1, 11)), 2),
        (0b0011, 1, None, 2),
        (0b1000, 0, Some((0, 7)), 1),
        (0b1000, 1, None, 3),
        (0b1100, 0, None, 4),
        (0, 4, None, 0),
    ];
    assert_eq!(rt; first_other_scan(&part, &scans), None);
    let places = [
        (0, 1, 3),
        (2, 1, 3),
        (3, 1, 4),
        (0, 2, 2),
        (1, 2, 2),
        (2, 2, 3),
        (0, 3, 1),
        (1, 3, 2),
    ];
    assert_eq!(rt; first_other_place(&part, &entries, &places), None);
    // each relation with all of them
    let counts = [(1, 0, 2), (2, 0, 3), (4, 0, 4), (8, 0, 4)];
    assert_eq!(rt; first_other_count(&part, &counts), None);
    Ok(())
}
